// R10, R12 and R13, the writer: the bytes of the numbers, stored in the room that the caller lends.
#![tactic(auto)]

ghost use Rattle.plan_format.specs.Meaning.{WriteMeans};
ghost use Rattle.plan_format.specs.Stored.{WriteSays};
ghost use Rattle.plan_format.specs.Told.{told_by};
ghost use Rattle.stored_write.specs.Tried.{Tried};

use plan_format::limits::PLAN_BYTES;
use plan_format::{Reason, Refusal};

// The bytes of a list of numbers in front of the array: the first form is tried and, where it refuses, the second; the
// last try's answer is the answer.
fn tried(numbers: &[u64], bytes: &mut [u8; PLAN_BYTES]) -> Result<u64, Refusal>
    ensures { Tried numbers.now (told_by result) bytes.new }
{
    match stored_bytes::write_bytes(numbers, false, bytes) {
        Ok(length) => Ok(length),
        Err(_) => stored_bytes::write_bytes(numbers, true, bytes),
    }
}

// The bytes of a list of numbers in front of the room, with their length as the answer; or a refusal, and the room
// untouched.
pub fn write_plan(numbers: &[u64], room: &mut [u8]) -> Result<u64, Refusal>
    ensures says { WriteSays numbers.now (told_by result) room.old room.new }
    ensures means { WriteMeans numbers.now (told_by result) room.old room.new }
{
    let mut bytes = [0u8; PLAN_BYTES];
    let length = tried(numbers, &mut bytes)?;
    let many = length as usize;
    if room.len() < many {
        return Err(Reason::RoomTooShort.at(many));
    }
    room[..many].copy_from_slice(&bytes[..many]);
    Ok(length)
}
