//! When an output turns to a new file.
ghost use Rattle.std.specs.Prelude.{◌≡◌};
ghost use Rattle.output_file.specs.Turning.{seen_after, turn_of};

/// Whether an output turns to a new file, and how.
#[derive(Clone, Copy, Debug, PartialEq, Eq)]
pub enum FileTurn {
    /// It goes on in the file that is open.
    Stays,
    /// Its path is opened anew.
    Reopens,
    /// The names of its files move up, and its path is opened anew.
    Shifts,
}

/// How an output turns whose file has so many bytes, where a new one is begun at so many (0: never). It doesn't inside a
/// line.
pub fn turn_of(size: u64, longest: u64, at_line_end: bool, asked: bool) -> FileTurn
    ensures { result ≡ turn_of size longest at_line_end asked }
{
    if !at_line_end {
        FileTurn::Stays
    } else if asked {
        FileTurn::Reopens
    } else if 0 < longest && longest <= size {
        FileTurn::Shifts
    } else {
        FileTurn::Stays
    }
}

/// How often a file was asked to be opened anew, as far as that is done: where it can't be opened it is still asked for.
pub fn seen_after(seen: u64, asked: u64, is_opened: bool) -> u64
    ensures { result ≡ seen_after seen asked is_opened }
{
    if is_opened { asked } else { seen }
}
