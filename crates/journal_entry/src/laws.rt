//! Laws of the bytes of entries.
ghost use Rattle.journal_entry.specs.ReadsBack.{EntriesAreRead, BytesTellEntries, BytesAreOneEntry};

/// The bytes of an entry are that entry and no other, where its span's text reads as its request.
pub fn entries_are_read()
    ensures { EntriesAreRead }
{}

/// Two such entries have the same bytes only if they are the same.
pub fn bytes_tell_entries()
    ensures { BytesTellEntries }
{}

/// Any bytes are at most one entry.
pub fn bytes_are_one_entry()
    ensures { BytesAreOneEntry }
{}
