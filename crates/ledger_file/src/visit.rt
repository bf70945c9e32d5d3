//! Who is given the records that are found.
ghost use Rattle.std.specs.Prelude.{◌++◌, ◌∷◌, [], List, ℕ, OnOk};

use crate::error::LedgerError;

/// Is given the records of a file, one at a time, in order.
pub trait Visit {
    /// What these records, in order, make of a visitor. One that keeps no list says so what has become of it.
    ghost has_visited: { Self → List (List ℕ) → Self → Type 0 };

    /// Takes one record. `Refused` or `NoMemory` ends the reading.
    fn visit(&mut self, bytes: &[u8]) -> Result<(), LedgerError>
        ensures { OnOk result ((first : Self) (before : List (List ℕ)) → has_visited first before self.old → has_visited first (before ++ bytes.now ∷ []) self.new) };

    /// No record makes nothing of it.
    ghost starts: { (s : Self) → has_visited s [] s };
}
