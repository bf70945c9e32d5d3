//! The files of an output, at a place in memory.
ghost use Rattle.std.specs.Prelude.{◌≡◌, None};

use output_file::{
    OpenedFile, OutputFile, OutputNames, OutputPlace, OutputWatch, ReopenMark, RetryingWriter,
    shift_names,
};
use std::alloc::Global;
use std::io;
use std::io::{ErrorKind, Write};
use std::sync::atomic::{AtomicU64, Ordering};

/// A file that takes at most so many bytes at once.
#[derive(Drop)]
struct MemoryFile {
    taken: Vec<u8>,
    piece: usize,
}

impl Write for MemoryFile {
    fn write(&mut self, bytes: &[u8]) -> io::Result<usize> {
        let count = bytes.len().min(self.piece);
        self.taken.extend_from_slice(&bytes[..count])?;
        Ok(count)
    }

    fn flush(&mut self) -> io::Result<()> {
        Ok(())
    }
}

/// A place whose files stand in memory, of which the call of this number, to open or to shift it, fails.
#[derive(Drop)]
struct MemoryPlace {
    alloc: Global,
    left: Vec<Vec<u8>>,
    piece: usize,
    calls: u32,
    fault_at: u32,
    shifts: u32,
}

impl MemoryPlace {
    fn new(alloc: Global, piece: usize, fault_at: u32) -> Self {
        MemoryPlace {
            alloc,
            left: Vec::new(alloc),
            piece,
            calls: 0,
            fault_at,
            shifts: 0,
        }
    }

    fn fails(&mut self) -> bool {
        self.calls = self.calls.saturating_add(1);
        self.calls == self.fault_at
    }
}

impl OutputPlace for MemoryPlace {
    type File = MemoryFile;

    ghost left = { λ p. None };

    fn open(&mut self) -> io::Result<OpenedFile<MemoryFile>> {
        if self.fails() {
            return Err(io::Error::from(ErrorKind::PermissionDenied));
        }
        let file = MemoryFile {
            taken: Vec::new(self.alloc),
            piece: self.piece,
        };
        Ok(OpenedFile { file, size: 0 })
    }

    fn leave(&mut self, file: MemoryFile) {
        let _ = self.left.push(file.taken);
    }

    fn shift(&mut self) -> io::Result<()> {
        if self.fails() {
            return Err(io::Error::from(ErrorKind::PermissionDenied));
        }
        self.shifts = self.shifts.saturating_add(1);
        Ok(())
    }
}

/// Writes a text in pieces, and answers whether all was taken.
fn put<W: Write>(writer: &mut W, text: &[u8]) -> bool {
    writer.write_all(text).is_ok()
}

/// The texts of the files of a place, and how often it was shifted.
fn texts_are(place: &MemoryPlace, texts: &[&[u8]], shifts: u32) -> bool {
    if place.left.len() != texts.len() || place.shifts != shifts {
        return false;
    }
    for at in 0..texts.len() {
        match (place.left.get(at), texts.get(at)) {
            (Some(left), Some(text)) if left.as_slice() == *text => {}
            _ => return false,
        }
    }
    true
}

#[test]
fn new_file_behind_a_long_one(rt: HostRuntime) -> io::Result<()> {
    let mark = ReopenMark::new();
    let mut output = OutputFile::new(MemoryPlace::new(rt.alloc(), 3, 0), 8, &mark)?;
    for line in [b"aaaa\n".as_slice(), b"bbbbbb\n", b"c\n"] {
        assert!(rt; put(&mut output, line));
    }
    let place = output.end();
    assert!(rt; texts_are(&place, &[b"aaaa\nbbbbbb\n", b"c\n"], 1));
    Ok(())
}

#[test]
fn asked_inside_a_line(rt: HostRuntime) -> io::Result<()> {
    let mark = ReopenMark::new();
    let mut output = OutputFile::new(MemoryPlace::new(rt.alloc(), 64, 0), 0, &mark)?;
    assert!(rt; put(&mut output, b"aa"));
    mark.ask();
    assert!(rt; put(&mut output, b"a\n"));
    assert!(rt; put(&mut output, b"b\n"));
    assert!(rt; put(&mut output, b"c\n"));
    let place = output.end();
    assert!(rt; texts_are(&place, &[b"aaa\n", b"b\nc\n"], 0));
    Ok(())
}

#[test]
fn cannot_be_opened(rt: HostRuntime) {
    let mark = ReopenMark::new();
    assert!(rt; OutputFile::new(MemoryPlace::new(rt.alloc(), 64, 1), 2, &mark).is_err());
}

#[test]
fn goes_on_where_it_cannot_turn(rt: HostRuntime) -> io::Result<()> {
    // The second call shifts the place, and the third opens it.
    for (fault_at, shifts) in [(2, 1), (3, 2)] {
        let mark = ReopenMark::new();
        let place = MemoryPlace::new(rt.alloc(), 64, fault_at);
        let mut output = OutputFile::new(place, 2, &mark)?;
        for line in [b"a\n".as_slice(), b"b\n", b"c\n"] {
            assert!(rt; put(&mut output, line));
        }
        let place = output.end();
        assert!(rt; texts_are(&place, &[b"a\nb\n", b"c\n"], shifts));
    }
    Ok(())
}

/// A writer that fails, or takes nothing, so many times.
#[derive(Drop)]
struct FailingWriter {
    taken: Vec<u8>,
    faults: u32,
    takes_nothing: bool,
}

impl Write for FailingWriter {
    fn write(&mut self, bytes: &[u8]) -> io::Result<usize> {
        if self.faults > 0 {
            self.faults -= 1;
            if self.takes_nothing {
                return Ok(0);
            }
            return Err(io::Error::from(ErrorKind::StorageFull));
        }
        let count = bytes.len().min(2);
        self.taken.extend_from_slice(&bytes[..count])?;
        Ok(count)
    }

    fn flush(&mut self) -> io::Result<()> {
        Ok(())
    }
}

/// Counts what it is told.
#[derive(Drop)]
struct CountingWatch {
    failing: AtomicU64,
    back: AtomicU64,
}

impl OutputWatch for CountingWatch {
    fn is_stopping(&self) -> bool {
        false
    }

    fn failing(&self, _error: &io::Error) {
        self.failing.fetch_add(1, Ordering::SeqCst);
    }

    fn back(&self) {
        self.back.fetch_add(1, Ordering::SeqCst);
    }
}

#[test]
fn tried_again_until_it_is_taken(rt: HostRuntime) {
    for takes_nothing in [false, true] {
        let watch = CountingWatch {
            failing: AtomicU64::new(0),
            back: AtomicU64::new(0),
        };
        let writer = FailingWriter {
            taken: Vec::new(rt.alloc()),
            faults: 2,
            takes_nothing,
        };
        let mut retrying = RetryingWriter::new(&rt, writer, true, &watch);
        assert!(rt; put(&mut retrying, b"abcde\n"));
        assert_eq!(rt; retrying.end().taken.as_slice(), b"abcde\n".as_slice());
        assert_eq!(rt; watch.failing.load(Ordering::SeqCst), 1);
        assert_eq!(rt; watch.back.load(Ordering::SeqCst), 1);
    }
}

#[test]
fn not_tried_where_that_is_off(rt: HostRuntime) {
    let watch = CountingWatch {
        failing: AtomicU64::new(0),
        back: AtomicU64::new(0),
    };
    let writer = FailingWriter {
        taken: Vec::new(rt.alloc()),
        faults: 1,
        takes_nothing: false,
    };
    let mut retrying = RetryingWriter::new(&rt, writer, false, &watch);
    assert!(rt; !put(&mut retrying, b"abcde\n"));
    assert_eq!(rt; watch.failing.load(Ordering::SeqCst), 0);
}

/// Names in memory, of which one change fails.
#[derive(Drop)]
struct MemoryNames {
    files: [u32; 4],
    fault: Option<u32>,
}

impl OutputNames for MemoryNames {
    ghost names = { λ n. None };

    fn is_taken(&self, number: u32) -> io::Result<bool> {
        match self.files.get(number as usize) {
            Some(file) => Ok(*file > 0),
            None => Err(io::Error::from(ErrorKind::InvalidInput)),
        }
    }

    fn move_up(&mut self, number: u32) -> io::Result<()> {
        if self.fault == Some(number) {
            self.fault = None;
            return Err(io::Error::from(ErrorKind::PermissionDenied));
        }
        let at = number as usize;
        if at < 3 {
            self.files[at + 1] = self.files[at];
            self.files[at] = 0;
        }
        Ok(())
    }
}

#[test]
fn names_move_up(rt: HostRuntime) {
    let cases = [
        ([1, 0, 0, 0], [0, 1, 0, 0]),
        ([3, 2, 1, 0], [0, 3, 2, 1]),
        ([4, 3, 2, 1], [0, 4, 3, 2]),
        ([4, 0, 2, 1], [0, 4, 2, 1]),
        ([0, 3, 2, 1], [0, 3, 2, 1]),
    ];
    for (files, shifted) in cases {
        let mut names = MemoryNames { files, fault: None };
        assert!(rt; shift_names(&mut names, 3).is_ok());
        assert_eq!(rt; names.files, shifted);
    }
}

#[test]
fn names_that_stopped_go_on(rt: HostRuntime) {
    let mut names = MemoryNames {
        files: [4, 3, 2, 1],
        fault: Some(1),
    };
    assert!(rt; shift_names(&mut names, 3).is_err());
    assert_eq!(rt; names.files, [4, 3, 0, 2]);
    assert!(rt; shift_names(&mut names, 3).is_ok());
    assert_eq!(rt; names.files, [0, 4, 3, 2]);
}
