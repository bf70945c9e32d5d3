//! A search for the end of a part that goes on where it stopped, so that no byte is looked at more than twice.
ghost use Rattle.std.specs.Prelude.{◌≡◌, ℕ, ◌+◌, ◌<◌, ◌≤◌, List, Option, length};
ghost use Rattle.http_text.specs.declared.lines.TheConstants.{PART_LIMIT};
ghost use Rattle.http_text.specs.Search.{step_blank, step_start, step_middle, step_line, step, Searched, IsEnding, Cuts, IsInside, IsEndingInside, IsCutInside};

use crate::lines::{PART_LIMIT, front};

/// Where a search stands among the lines of a part.
#[derive(Clone, Copy, PartialEq, Eq)]
pub enum SearchPlace {
    /// Among the empty lines in front of a head.
    Blank,
    /// At the start of a line.
    Start,
    /// Within a line.
    Middle,
    /// Within a chunk line, whose end is the part's end.
    Line,
}

/// A search that has looked at so many bytes.
#[derive(Clone, Copy, PartialEq, Eq)]
pub struct PartSearch {
    /// How many bytes it has looked at.
    pub at: usize,
    /// Where these leave it.
    pub place: SearchPlace,
}

/// What the next byte, or the next two, say.
#[derive(Clone, Copy, PartialEq, Eq)]
pub enum SearchStep {
    /// The part ends behind so many bytes.
    Found(usize),
    /// The search goes on behind so many bytes.
    On(usize, SearchPlace),
    /// More bytes are wanted.
    Pause,
}

/// What a search came to.
#[derive(Clone, Copy, PartialEq, Eq)]
pub enum Ending {
    /// The part has so many bytes.
    At(usize),
    /// Its end hasn't come.
    Open(PartSearch),
}

/// What stands at the front of a stream, by a search that is under way.
#[derive(Clone, Copy, PartialEq, Eq)]
pub enum Cutting {
    /// A part of so many bytes.
    Whole(usize),
    /// Less than a part; the search goes on when more bytes have come.
    Waits(PartSearch),
    /// No end of a part within [`PART_LIMIT`] bytes.
    TooLong,
}

/// A step among the empty lines in front of a head.
fn step_blank(rest: &[u8]) -> SearchStep
    ensures { result ≡ step_blank rest.now }
{
    match rest {
        [] | [b'\r'] => SearchStep::Pause,
        [b'\n', ..] => SearchStep::On(1, SearchPlace::Blank),
        [b'\r', b'\n', ..] => SearchStep::On(2, SearchPlace::Blank),
        [b'\r', _, ..] => SearchStep::On(2, SearchPlace::Middle),
        _ => SearchStep::On(1, SearchPlace::Middle),
    }
}

/// A step at the start of a line.
fn step_start(rest: &[u8]) -> SearchStep
    ensures { result ≡ step_start rest.now }
{
    match rest {
        [] | [b'\r'] => SearchStep::Pause,
        [b'\n', ..] => SearchStep::Found(1),
        [b'\r', b'\n', ..] => SearchStep::Found(2),
        [b'\r', _, ..] => SearchStep::On(2, SearchPlace::Middle),
        _ => SearchStep::On(1, SearchPlace::Middle),
    }
}

/// A step within a line.
fn step_middle(rest: &[u8]) -> SearchStep
    ensures { result ≡ step_middle rest.now }
{
    match rest {
        [] => SearchStep::Pause,
        [b'\n', ..] => SearchStep::On(1, SearchPlace::Start),
        _ => SearchStep::On(1, SearchPlace::Middle),
    }
}

/// A step within a chunk line.
fn step_line(rest: &[u8]) -> SearchStep
    ensures { result ≡ step_line rest.now }
{
    match rest {
        [] => SearchStep::Pause,
        [b'\n', ..] => SearchStep::Found(1),
        _ => SearchStep::On(1, SearchPlace::Line),
    }
}

/// What the bytes say that come next.
fn next_step(place: SearchPlace, rest: &[u8]) -> SearchStep
    ensures { result ≡ step place rest.now }
{
    match place {
        SearchPlace::Blank => step_blank(rest),
        SearchPlace::Start => step_start(rest),
        SearchPlace::Middle => step_middle(rest),
        SearchPlace::Line => step_line(rest),
    }
}

/// Goes on with a search.
fn find(bytes: &[u8], search: PartSearch) -> Ending
    requires { search.at ≤ length bytes.now }
    ensures ends { (len_of : List ℕ → Option ℕ) → Searched len_of search bytes.now → IsEnding len_of bytes.now result }
    ensures inside { IsEndingInside bytes.now result }
{
    let mut at = search.at;
    let mut place = search.place;
    'steps: loop {
        match next_step(place, &bytes[at..]) {
            SearchStep::Found(n) => return Ending::At(at + n),
            SearchStep::On(n, next) => {
                at += n;
                place = next;
            }
            SearchStep::Pause => return Ending::Open(PartSearch { at, place }),
        }
    }
}

/// Goes on with a search for the part at the front of a stream, which has to end within [`PART_LIMIT`] bytes. It looks
/// only at what the search hasn't looked at.
pub fn cut_on(stream: &[u8], search: PartSearch) -> Cutting
    requires { IsInside search stream.now }
    ensures cuts { Cuts search stream.now result }
    ensures inside { IsCutInside stream.now result }
{
    match find(front(stream), search) {
        Ending::At(n) => Cutting::Whole(n),
        Ending::Open(_) if stream.len() >= PART_LIMIT => Cutting::TooLong,
        Ending::Open(search) => Cutting::Waits(search),
    }
}
