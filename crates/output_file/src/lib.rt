//! The files of an output: one after the other, of whole lines each, and writes that are tried again.
//!
//! [`OutputFile`] is a writer whose bytes go to the file that is open at an [`OutputPlace`], as [`FilesPlace`] opens one
//! at a path. Behind a whole line it turns to a new file, where a [`ReopenMark`] asks for that or the file is long
//! enough ([`turn_of`]); then [`shift_names`] makes the path free. [`RetryingWriter`] tries a write again that failed,
//! for as long as [`tries_again`] says, and tells an [`OutputWatch`].
//!
//! What is proved: the bytes taken are those of the files that were left, joined, and then of the open one, where a place
//! tells what its files took, and each file that was left took whole lines (`specs/Segments`); a file is left only by the
//! rule (`specs/Turning`); where names move up, no file but the last is lost (`specs/Names`); a write that is tried again
//! answers an error only where it is no longer tried (`specs/Retrying`). What no contract can say of the system: that a
//! file is opened to append to it, which line feed stood last in it, and how long a pause lasts.
//!
//! ```
//! let place = FilesPlace::new(&rt, alloc, path, 10);
//! let file = OutputFile::new(place, 256 * 1_048_576, &mark)?;
//! let mut writer = RetryingWriter::new(&rt, file, true, &watch);
//! writer.write_all(line)?;
//! ```
#![tactic(auto)]

mod failure_told;
mod files_place;
mod names;
mod output;
mod place;
mod reopen_mark;
mod retrying;
mod turning;
mod watch;

pub use files_place::{FilesPlace, name_of};
pub use names::{OutputNames, shift_names};
pub use output::{OutputFile, line_end_after};
pub use place::{OpenedFile, OutputPlace};
pub use reopen_mark::ReopenMark;
pub use retrying::{RetryingWriter, tries_again};
pub use turning::{FileTurn, turn_of};
pub use watch::OutputWatch;
