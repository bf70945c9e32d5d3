//! What is told of a write, and of what fails.
ghost use Rattle.std.specs.Prelude.{◌≡◌, ℕ, max, pos, Some, None};
ghost use Rattle.collector_board.specs.News.{delivered_of, news_of};

use batch_post::BatchFate;
use output_file::line_end_after;

/// What a board is told of a write.
#[derive(Clone, Copy, PartialEq, Eq)]
pub enum WriteNews {
    /// Nothing.
    Nothing,
    /// This number of bytes was taken, and so many lines ended there.
    Took { bytes: u64, lines: u64 },
    /// It failed, and the collector stops by that or doesn't.
    Fails { stops: bool },
}

/// What is told of a write of these bytes of which so many were taken, or which failed; `are_sent`: lines are sent, too, so
/// that they count once the backend took them; `stops`: the collector stops where a write fails.
pub fn news_of(taken: Option<usize>, bytes: &[u8], are_sent: bool, stops: bool) -> WriteNews
    ensures { result ≡ news_of taken bytes.now are_sent stops }
{
    let Some(count) = taken else {
        return WriteNews::Fails { stops };
    };
    if are_sent {
        return WriteNews::Nothing;
    }
    let taken = bytes.get(..count).unwrap_or(bytes);
    // However many writes a line took, its line feed is the end of the last.
    let lines = if line_end_after(false, taken) { 1 } else { 0 };
    WriteNews::Took {
        bytes: taken.len() as u64,
        lines,
    }
}

/// That writes of the output fail.
#[derive(Clone, Copy, PartialEq, Eq)]
pub struct OutputFailure {
    /// Since this moment.
    pub since: u64,
    /// By the system's error of this number, or by 0 where they take nothing.
    pub code: u64,
}

/// A failure from this moment on, by the system's error of this number, if there is one.
pub fn failure_of(moment: u64, code: Option<i32>) -> OutputFailure
    ensures since { result.since ≡ max moment 1 }
    ensures none { code ≡ None → result.code ≡ 0 }
    ensures code { (number : ℕ) → code ≡ Some (pos number) → result.code ≡ number }
{
    let code = match code {
        Some(code) => u64::try_from(code).unwrap_or(0),
        None => 0,
    };
    // The moment 0 is told as the next one, since it says that nothing fails.
    OutputFailure {
        since: moment.max(1),
        code,
    }
}

/// The bytes that a backend took of a batch of so many that ended so, if it took it.
pub fn delivered_of(bytes: u64, fate: BatchFate) -> Option<u64>
    ensures { result ≡ delivered_of bytes fate }
{
    match fate {
        BatchFate::Delivered => Some(bytes),
        BatchFate::GivenUp => None,
    }
}

/// The longest wait of some shards, and of one whose oldest trace waits so long.
pub fn longer(longest: u64, waited: u64) -> u64
    ensures { result ≡ max longest waited }
{
    longest.max(waited)
}
