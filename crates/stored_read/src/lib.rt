// R10, R12 and R13, the reader: the numbers of the bytes, stored in the room that the caller lends.
#![tactic(auto)]

ghost use Rattle.std.specs.Prelude.{◌≡◌, false, length};
ghost use Rattle.plan_format.specs.Form.{is_second};
ghost use Rattle.plan_format.specs.Meaning.{ReadMeans};
ghost use Rattle.plan_format.specs.Stored.{room_for, Fills, ReadSays};
ghost use Rattle.plan_format.specs.Told.{told_by};
ghost use Rattle.stored_numbers.specs.Reading.{told_for};
ghost use Rattle.stored_read.specs.Rest.{HeadingTold, RestSays};

use plan_format::limits::{HEAD_NUMBERS, PLAN_NUMBERS};
use plan_format::{Reason, Refusal};
use stored_numbers::{FIRST_PLAN_NUMBERS, Head, RefusedFor, Stop, Why};

// Numbers in front of the room, if they fit, with their length as the answer.
fn into_room(numbers: &[u64], room: &mut [u64]) -> Result<u64, Refusal>
    ensures { Fills (room_for (length numbers.now) (length room.old)) numbers.now (told_by result) room.old room.new }
{
    let many = numbers.len();
    if room.len() < many {
        return Err(Reason::RoomTooShort.at(many));
    }
    room[..many].copy_from_slice(numbers);
    Ok(many as u64)
}

// The numbers of a plan in either form.
fn read_either(plan: &[u8], room: &mut [u64]) -> Result<u64, Refusal>
    ensures { ReadSays plan.now (told_by result) room.old room.new }
{
    let mut numbers = [0u64; PLAN_NUMBERS];
    let many = stored_numbers::read_numbers(plan, &mut numbers)?;
    into_room(&numbers[..many as usize], room)
}

// The numbers of a plan in the first form: fewer have to be cleared.
// A function of its own: the array that is read into differs in its type from the one for either form.
fn read_first(plan: &[u8], room: &mut [u64]) -> Result<u64, Refusal>
    requires { is_second plan.now ≡ false }
    ensures { ReadSays plan.now (told_by result) room.old room.new }
{
    let mut numbers = [0u64; FIRST_PLAN_NUMBERS];
    let many = stored_numbers::read_first_numbers(plan, &mut numbers)?;
    into_room(&numbers[..many as usize], room)
}

// The numbers of a stored plan in front of the room, with their length as the answer; or a refusal, and the room
// untouched.
pub fn read_plan(plan: &[u8], room: &mut [u64]) -> Result<u64, Refusal>
    ensures says { ReadSays plan.now (told_by result) room.old room.new }
    ensures means { ReadMeans plan.now (told_by result) room.old room.new }
{
    if stored_numbers::is_second(plan) {
        return read_either(plan, room);
    }
    read_first(plan, room)
}

// The head of a plan, or where its reading stopped; and the numbers before its operations.
#[derive(Clone, Copy, Debug, PartialEq, Eq, Hash)]
pub struct Heading<R> {
    pub head: Result<Head, Stop<R>>,
    pub numbers: [u64; HEAD_NUMBERS],
}

// The head of the plan that begins at a place; past the end there are no bytes.
pub fn read_heading(plan: &[u8], at: usize) -> Heading<Reason>
    ensures { HeadingTold plan.now at result }
{
    let mut numbers = [0u64; HEAD_NUMBERS];
    if plan.len() < at {
        let none = stored_numbers::read_head(&plan[..0], &mut numbers);
        return Heading {
            head: none,
            numbers,
        };
    }
    let head = stored_numbers::read_head(&plan[at..], &mut numbers);
    Heading { head, numbers }
}

// The numbers of a plan whose head was read, its operations from a place on, in front of the room, with their length as
// the answer; or a refusal, the head's whatever its number is, and the room untouched.
pub fn read_rest<R: Why>(
    plan: &[u8],
    at: usize,
    h: Heading<R>,
    room: &mut [u64],
) -> Result<u64, RefusedFor<R>>
    ensures { RestSays R.number plan.now at h (told_for R.number result) room.old room.new }
{
    let mut numbers = [0u64; PLAN_NUMBERS];
    let many = stored_numbers::read_rest(plan, at, h.head, &h.numbers, &mut numbers)?;
    Ok(into_room(&numbers[..many as usize], room)?)
}
