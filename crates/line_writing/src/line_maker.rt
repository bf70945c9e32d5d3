//! How an entry becomes a line.
ghost use Rattle.std.specs.Prelude.{◌≡◌, ℕ, List, ◌++◌};
ghost use Rattle.std.specs.Bool.{OnTrue, OnFalse};

/// Makes the lines of entries.
pub trait LineMaker<T> {
    /// These bytes are the line of the entry, with its line feed.
    ghost is_line: { Self → T → List ℕ → Type 0 };

    /// Puts the line of an entry behind a text, and says whether it is put; where it isn't, the text is as it was.
    fn put(&self, text: &mut Vec<u8>, entry: &T) -> bool
        ensures put { OnTrue result ((line : List ℕ) × is_line self.now entry.now line × (text.new.items ≡ text.old.items ++ line)) }
        ensures same { OnFalse result (text.new.items ≡ text.old.items) };
}
