//! Room for texts.
ghost use Rattle.std.specs.Prelude.{◌≡◌, ◌+◌, ◌<◌, length, IfOk};
ghost use Rattle.std.specs.Slice.Iter.{iter_mut_rest};

use arrayvec::ArrayString;
use std::alloc::{AllocError, Global};
use std::slice::IterMut;

/// Room for one text of at most 16,384 bytes.
pub type TextRoom = ArrayString<16384>;

/// Room for so many texts. `Err` where memory was refused.
pub fn rooms_for(alloc: Global, texts: usize) -> Result<Vec<TextRoom>, AllocError>
    ensures { IfOk result (λ rooms. length rooms.items ≡ texts) }
{
    let mut rooms = Vec::with_capacity(alloc, texts)?;
    for _text in 0..texts {
        rooms.push(ArrayString::new())?;
    }
    Ok(rooms)
}

/// The first room of those that are left, of which there has to be one.
pub(crate) fn next_room<'a>(rooms: &mut IterMut<'a, TextRoom>) -> &'a mut TextRoom
    requires { 0 < length (iter_mut_rest rooms.old) }
    ensures { length (iter_mut_rest rooms.new) + 1 ≡ length (iter_mut_rest rooms.old) }
{
    match rooms.next() {
        Some(room) => room,
        None => unreachable!(),
    }
}
