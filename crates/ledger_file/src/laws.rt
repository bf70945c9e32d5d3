//! A law of the format.
ghost use Rattle.std.specs.Prelude.{◌≡◌, List, ℕ, ◌++◌, length, take};
ghost use Rattle.std.specs.List.{AllByRecursion};
ghost use Rattle.ledger_file.specs.Format.{Fits, header, seed_of, records_of, front};
ghost use Rattle.ledger_file.specs.Reading.{IsUnforged, IsPrefixOf};

/// Whatever stands behind a header: if each whole record there was written there, then the records that are found are a
/// front of those that were written. So a file that was not synced is read up to its first torn record, as far as no
/// torn bytes pass a checksum by chance.
pub fn found_if_written()
    ensures { (parameters left written : List ℕ) → Fits parameters → IsUnforged (seed_of parameters) left written → IsPrefixOf (records_of (header parameters ++ left)) (records_of (header parameters ++ written)) }
{}

/// A file that begins as one of these records has them, whatever stands behind.
pub fn found_if_synced()
    ensures { (parameters file : List ℕ) (items : List (List ℕ)) → Fits parameters → AllByRecursion Fits items → take (length (front parameters items)) file ≡ front parameters items → IsPrefixOf items (records_of file) }
{}
