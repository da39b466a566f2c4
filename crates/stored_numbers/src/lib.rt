// R9 and R53, the numbers of stored plans: one pass over the bytes, by a reader with a cursor that moves by value, each
// field judged and stored as it is read.
#![tactic(auto)]

mod field;
mod operation;
mod reader;
mod section;

ghost use Rattle.std.specs.Prelude.{◌≡◌, List, false, ℕ, ◌+◌, ◌≤◌, length, take, IfErr};
ghost use Rattle.std.specs.Int.NonZero.{non_zero_u32_get};
ghost use Rattle.base_lists.specs.Lists.{in_front};
ghost use Rattle.plan_format.specs.Form.{is_second, first_form, form_in, form_by, width_by, scanned_by};
ghost use Rattle.plan_format.specs.Grammar.{bytes, ended};
ghost use Rattle.plan_format.specs.Sizes.{plan_numbers};
ghost use Rattle.plan_format.specs.Stored.{scanned};
ghost use Rattle.plan_format.specs.Told.{number_of, refused_by, told_by};
ghost use Rattle.stored_numbers.specs.Reading.{here, reached, head_scan, head_scan_by, front_numbers, form_numbers};
ghost use Rattle.stored_numbers.specs.Reading.{first_numbers, head_told_by, head_told, is_wide, HeadTold, HeadRead};
ghost use Rattle.stored_numbers.specs.Reading.{end_told, told_for};
ghost use Rattle.stored_numbers.specs.Reading.{OperationTold, OperationRead, Ends, NumbersRead, rest_scan, Begins};
ghost use Rattle.stored_numbers.specs.Why.{reason_given, above_0_given};

use crate::operation::Counts;
use crate::reader::{Cursor, Reader};
use crate::section::OPERATIONS;
use plan_format::limits::{
    BLOCK_NUMBERS, FIRST_SEMAPHORES, HEAD_NUMBERS, MOST_BUFFERS, MOST_OPERATIONS, MOST_QUEUES,
    PLAN_NUMBERS, WINDOW,
};
use plan_format::{Reason, Refusal};
use std::num::NonZeroU32;

// The most numbers before the operations of a plan in the first form.
pub const FIRST_HEAD_NUMBERS: usize = 4 + MOST_QUEUES + FIRST_SEMAPHORES + MOST_BUFFERS;

pub type FirstHeadNumbers = [u64; FIRST_HEAD_NUMBERS];

// And of the whole plan.
pub const FIRST_PLAN_NUMBERS: usize = FIRST_HEAD_NUMBERS + MOST_OPERATIONS * BLOCK_NUMBERS;

pub type FirstPlanNumbers = [u64; FIRST_PLAN_NUMBERS];

// What comes before the operations: the place where they begin, a byte, and how many numbers are stored; the four
// counts; and whether the plan is in the second form, in which a semaphore's position takes two bytes.
#[derive(Clone, Copy, Debug, PartialEq, Eq, Hash)]
pub struct Head {
    pub at: usize,
    pub got: usize,
    pub queues: u64,
    pub semaphores: u64,
    pub buffers: u64,
    pub operations: u64,
    pub wide: bool,
}

// Where an operation ends: the place, a byte; how many numbers are stored.
#[derive(Clone, Copy, Debug, PartialEq, Eq, Hash)]
pub struct End {
    pub at: usize,
    pub got: usize,
}

// Why a reading stopped: a reason, or any other number that isn't 0.
pub trait Why: Copy {
    ghost number: { Self → ℕ };

    // The number.
    fn number(self) -> u32
        ensures { result ≡ number self };

    // What stands for a reason: it has the reason's number.
    fn of(reason: Reason) -> Self
        ensures { number result ≡ number_of reason };

    ghost given: { (why : Self) → number why ≡ 0 → ⊥ };
}

impl Why for Reason {
    ghost number = { number_of };

    ghost given = { reason_given };

    fn number(self) -> u32 {
        Reason::number(self)
    }

    fn of(reason: Reason) -> Reason {
        reason
    }
}

impl Why for NonZeroU32 {
    ghost number = { non_zero_u32_get };

    ghost given = { λ why. above_0_given (non_zero_u32_get why) why.ok };

    fn number(self) -> u32 {
        self.get()
    }

    fn of(reason: Reason) -> NonZeroU32 {
        match NonZeroU32::new(reason.number()) {
            Some(number) => number,
            None => unreachable!(),
        }
    }
}

// Where a reading stopped, and why: the reason; the place, a byte; how many numbers are stored; and whether it was of
// the second form, in which a semaphore's position takes two bytes.
#[derive(Clone, Copy, Debug, PartialEq, Eq, Hash)]
pub struct Stop<R> {
    pub reason: R,
    pub at: usize,
    pub got: usize,
    pub wide: bool,
}

impl From<Stop<Reason>> for Refusal {
    ghost from_gives = { λ stop refusal. refusal ≡ refused_by stop.reason stop.at };

    // The refusal where the reading stopped.
    fn from(stop: Stop<Reason>) -> Refusal {
        stop.reason.at(stop.at)
    }
}

// A refusal whose reason is of such a kind, and its place.
#[derive(Clone, Copy, Debug, PartialEq, Eq, Hash)]
pub struct RefusedFor<R> {
    pub reason: R,
    pub place: u64,
}

impl<R: Why> From<Refusal> for RefusedFor<R> {
    ghost from_gives = { λ refusal told.
        (R.number told.reason ≡ number_of refusal.reason) × (told.place ≡ refusal.place) };

    // The same refusal: its reason's number, and its place.
    fn from(refusal: Refusal) -> RefusedFor<R> {
        RefusedFor {
            reason: R::of(refusal.reason),
            place: refusal.place,
        }
    }
}

impl From<RefusedFor<Reason>> for Refusal {
    ghost from_gives = { λ refused refusal. refusal ≡ record { reason = refused.reason; place = refused.place } };

    // The same refusal.
    fn from(refused: RefusedFor<Reason>) -> Refusal {
        Refusal {
            reason: refused.reason,
            place: refused.place,
        }
    }
}

// Whether a plan is stored in the second form: its first byte tells.
pub fn is_second(plan: &[u8]) -> bool
    ensures { result ≡ is_second plan.now }
{
    section::in_second_form(plan)
}

// The numbers before the operations, in front of the array, with the four counts; or the first of refusals 1, 2, 4 and
// 5 that is met there, and where. Past the numbers read the array stays.
pub fn read_head(plan: &[u8], numbers: &mut [u64; HEAD_NUMBERS]) -> Result<Head, Stop<Reason>>
    ensures form { is_wide result ≡ is_second plan.now }
    ensures told { HeadTold (head_scan plan.now) numbers.old (head_told result) numbers.new }
    ensures means { HeadRead (form_in plan.now) plan.now (head_told result) numbers.new }
{
    let wide = section::in_second_form(plan);
    let cursor = Cursor {
        at: section::lead(wide),
        got: 0,
    };
    let mut reader = Reader {
        plan,
        numbers,
        cursor,
    };
    reader.front(wide)
}

// The same of bytes taken as a plan in the first form, whatever the first byte is: fewer numbers have to be cleared.
pub fn read_first_head(plan: &[u8], numbers: &mut FirstHeadNumbers) -> Result<Head, Stop<Reason>>
    ensures form { is_wide result ≡ false }
    ensures told { HeadTold (head_scan_by first_form plan.now) numbers.old (head_told result) numbers.new }
    ensures means { HeadRead first_form plan.now (head_told result) numbers.new }
{
    let cursor = Cursor { at: 0, got: 0 };
    let mut reader = Reader {
        plan,
        numbers,
        cursor,
    };
    reader.front(false)
}

// The numbers of the operation at a place, in front of the window, where the width of a semaphore's position and the
// counts are as given; or the first of refusals 1, 2, 4 and 16. Past the numbers read the window stays.
pub fn read_operation(
    plan: &[u8],
    at: usize,
    wide: bool,
    queues: u64,
    semaphores: u64,
    buffers: u64,
    window: &mut [u64; WINDOW],
) -> Result<End, Stop<Reason>>
    ensures told { OperationTold (width_by wide) queues semaphores buffers plan.now at window.old (end_told result)
        window.new }
    ensures means { OperationRead (width_by wide) queues semaphores buffers plan.now at (end_told result) window.new }
    ensures form { IfErr result (λ stop. stop.wide ≡ wide) }
{
    let counts = Counts {
        queues,
        semaphores,
        buffers,
    };
    let cursor = Cursor {
        at: at.min(plan.len()),
        got: 0,
    };
    let mut reader = Reader {
        plan,
        numbers: window,
        cursor,
    };
    let read = reader.operation(wide, counts);
    let Cursor { at, got } = reader.cursor;
    match read {
        Ok(()) => Ok(End { at, got }),
        Err(reason) => Err(Stop {
            reason,
            at,
            got,
            wide,
        }),
    }
}

// The first `many` numbers, in front of the array.
fn copy(front: &[u64], many: usize, numbers: &mut [u64])
    requires { (many ≤ length front.now) × (many ≤ length numbers.old) }
    ensures { numbers.new ≡ in_front (take many front.now) numbers.old }
{
    numbers[..many].copy_from_slice(&front[..many]);
}

// What is told where a reading has come to its end: its refusal; or that bytes follow; or how many numbers it got.
fn finished(plan: &[u8], cursor: Cursor, read: Result<(), Reason>) -> Result<u64, Refusal>
    requires { cursor.at ≤ length plan.now }
    ensures { (nums : List ℕ) → cursor.got ≤ length nums → Ends (ended (here plan.now (reached read cursor) nums))
        (told_by result) }
{
    if let Err(reason) = read {
        return Err(reason.at(cursor.at));
    }
    if cursor.at < plan.len() {
        return Err(Reason::BytesFollow.at(cursor.at));
    }
    Ok(cursor.got as u64)
}

impl<'a> Reader<'a> {
    // What comes before the operations of a plan, in the form that is told.
    fn front(&mut self, wide: bool) -> Result<Head, Stop<Reason>>
        requires begins { Begins (form_by wide) self.old }
        requires room { front_numbers (form_by wide) + 1 ≤ length self.old.numbers.now }
        ensures same_room { self.new.numbers.ghost_name ≡ self.old.numbers.ghost_name }
        ensures form { is_wide result ≡ wide }
        ensures told { HeadTold (head_scan_by (form_by wide) self.old.plan.now) self.old.numbers.now
            (head_told result) self.new.numbers.now }
        ensures means { HeadRead (form_by wide) self.old.plan.now (head_told result) self.new.numbers.now }
    {
        let head = self.head(wide);
        let Cursor { at, got } = self.cursor;
        let (counts, operations) = match head {
            Ok(read) => read,
            Err(reason) => {
                return Err(Stop {
                    reason,
                    at,
                    got,
                    wide,
                });
            }
        };
        Ok(Head {
            at,
            got,
            queues: counts.queues,
            semaphores: counts.semaphores,
            buffers: counts.buffers,
            operations,
            wide,
        })
    }

    // The numbers of bytes taken as a plan in the form that is told, and how many they are.
    fn whole(&mut self, wide: bool) -> Result<u64, Refusal>
        requires begins { Begins (form_by wide) self.old }
        requires room { form_numbers (form_by wide) ≤ length self.old.numbers.now }
        ensures same_room { self.new.numbers.ghost_name ≡ self.old.numbers.ghost_name }
        ensures told { Ends (scanned_by bytes (form_by wide) self.old.plan.now) (told_by result) }
        ensures array { self.new.numbers.now ≡
            in_front (scanned_by bytes (form_by wide) self.old.plan.now).got self.old.numbers.now }
        ensures few { (told_by result).answer ≤ form_numbers (form_by wide) }
        ensures long { length self.new.numbers.now ≡ length self.old.numbers.now }
    {
        let read = self.sections(wide);
        finished(self.plan, self.cursor, read)
    }
}

// The numbers of a stored plan in front of the array, with their length as the answer; or the first of refusals 1 to 5
// and 16, with the numbers read before it. Past the numbers read the array stays.
pub fn read_numbers(plan: &[u8], numbers: &mut [u64; PLAN_NUMBERS]) -> Result<u64, Refusal>
    ensures told { NumbersRead plan.now (told_by result) numbers.new }
    ensures array { numbers.new ≡ in_front (scanned plan.now).got numbers.old }
{
    let wide = section::in_second_form(plan);
    let cursor = Cursor {
        at: section::lead(wide),
        got: 0,
    };
    let mut reader = Reader {
        plan,
        numbers,
        cursor,
    };
    reader.whole(wide)
}

// The same of bytes taken as a plan in the first form, whatever the first byte is: fewer numbers have to be cleared.
pub fn read_first_numbers(plan: &[u8], numbers: &mut FirstPlanNumbers) -> Result<u64, Refusal>
    ensures told { Ends (scanned_by bytes first_form plan.now) (told_by result) }
    ensures array { numbers.new ≡
        in_front (scanned_by bytes first_form plan.now).got numbers.old }
    ensures few { (told_by result).answer ≤ first_numbers }
    ensures long { length numbers.new ≡ first_numbers }
{
    let cursor = Cursor { at: 0, got: 0 };
    let mut reader = Reader {
        plan,
        numbers,
        cursor,
    };
    reader.whole(false)
}

// The rest of a plan whose head was read, from a place on: the head's numbers and then those of its operations in front
// of the array, with their length as the answer; or the head's refusal, whatever its number is, at that place, or the
// first of refusals 1 to 4 and 16 after it. Past the numbers read the array stays.
pub fn read_rest<R: Why>(
    plan: &[u8],
    at: usize,
    head: Result<Head, Stop<R>>,
    front: &[u64; HEAD_NUMBERS],
    numbers: &mut [u64; PLAN_NUMBERS],
) -> Result<u64, RefusedFor<R>>
    ensures told { Ends (rest_scan (width_by (is_wide head)) plan.now at (head_told_by R.number head) front.now)
        (told_for R.number result) }
    ensures array { numbers.new ≡
        in_front (rest_scan (width_by (is_wide head)) plan.now at (head_told_by R.number head) front.now).got
        numbers.old }
    ensures few { (told_for R.number result).answer ≤ plan_numbers }
    ensures long { length numbers.new ≡ plan_numbers }
{
    let place = at.min(plan.len());
    let h = match head {
        Ok(h) => h,
        Err(stop) => {
            copy(front, stop.got.min(HEAD_NUMBERS), numbers);
            return Err(RefusedFor {
                reason: stop.reason,
                place: place as u64,
            });
        }
    };
    let before = h.got.min(HEAD_NUMBERS);
    copy(front, before, numbers);
    let counts = Counts {
        queues: h.queues,
        semaphores: h.semaphores,
        buffers: h.buffers,
    };
    let mut reader = Reader {
        plan,
        numbers,
        cursor: Cursor {
            at: place,
            got: before,
        },
    };
    let many = h.operations.min(OPERATIONS);
    let read = reader.several(many, h.wide, counts);
    Ok(finished(plan, reader.cursor, read)?)
}
