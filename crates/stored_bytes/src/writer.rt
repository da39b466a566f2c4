// The writer: a list of numbers, the array that their bytes are put into, and how far that is done.
ghost use Rattle.std.specs.Prelude.{◌≤◌, length};

use crate::cursor::Cursor;

// A list of numbers on its way into an array of bytes.
#[derive(Drop)]
pub struct Writer<'a> {
    pub(crate) numbers: &'a [u64],
    pub(crate) bytes: &'a mut [u8],
    pub(crate) cursor: Cursor,
    ghost inside: { cursor.at ≤ length numbers.now },
}
