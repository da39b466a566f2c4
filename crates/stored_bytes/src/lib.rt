// R10 and R53, the bytes of stored plans: one pass over a list of numbers, each number judged and its bytes put as it
// is read.
#![tactic(auto)]

mod cursor;
mod field;
mod operation;
mod section;
mod writer;

ghost use Rattle.std.specs.Prelude.{◌≤◌, length};
ghost use Rattle.plan_format.specs.Form.{form_by};
ghost use Rattle.plan_format.specs.Told.{told_by};
ghost use Rattle.stored_bytes.specs.Writing.{BytesWritten, LeadPut};

use cursor::Cursor;
use plan_format::limits::{PLAN_BYTES, SECOND_LEAD};
use plan_format::{Reason, Refusal};
use writer::Writer;

// The lead of the form, in front of the array, and how many bytes it has.
fn lead(wide: bool, bytes: &mut [u8]) -> usize
    requires { 1 ≤ length bytes.old }
    ensures { LeadPut (form_by wide).lead bytes.old result bytes.new }
{
    if wide {
        bytes[0] = SECOND_LEAD;
        return 1;
    }
    0
}

// The bytes of a list of numbers in one of the two forms, the second if `wide`, in front of the array, with their
// length as the answer; or the first of refusals 1 to 5 and 16, where the second form takes every count of semaphores
// that a plan may have. Past the bytes the array stays; beside a refusal it is unspecified up to the lead and eight
// bytes for each number before the refused one, and stays past them.
pub fn write_bytes(
    numbers: &[u64],
    wide: bool,
    bytes: &mut [u8; PLAN_BYTES],
) -> Result<u64, Refusal>
    ensures { BytesWritten wide numbers.now bytes.old (told_by result) bytes.new }
{
    let put = lead(wide, bytes);
    let mut writer = Writer {
        numbers,
        bytes,
        cursor: Cursor { at: 0, put },
    };
    writer.plan(wide)?;
    let Cursor { at, put } = writer.cursor;
    if at < numbers.len() {
        return Err(Reason::BytesFollow.at(at));
    }
    Ok(put as u64)
}
