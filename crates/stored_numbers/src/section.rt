// The sections of a plan, in stored order.
ghost use Rattle.std.specs.Prelude.{◌≡◌, ◌+◌, ◌≤◌, length};
ghost use Rattle.plan_format.specs.Sizes.{most_queues, most_buffers};
ghost use Rattle.plan_format.specs.Form.{is_second, form_by, width_by};
ghost use Rattle.plan_format.specs.Grammar.{counted, count_check};
ghost use Rattle.plan_format.specs.Sections.{axis_field, size_field, owned, limited};
ghost use Rattle.stored_numbers.specs.Reading.{RoomFor, ReadsNumber, ReadsSection, form_numbers, front_numbers};
ghost use Rattle.stored_numbers.specs.Reading.{Begins, HeadReads, HeadTold, HeadRead, head_of, head_scan_by, Past};
ghost use Rattle.stored_numbers.specs.Reading.{PlanReads};

use crate::operation::Counts;
use crate::reader::{Cursor, Reader};
use plan_format::Reason;
use plan_format::limits::{
    FIRST_SEMAPHORES, FIRST_WIDTH, MOST_BUFFERS, MOST_OPERATIONS, MOST_QUEUES, MOST_SEMAPHORES,
    SECOND_LEAD, SECOND_WIDTH,
};

// What a plan has at most, in either form.
const QUEUES: u64 = MOST_QUEUES as u64;

const SEMAPHORES: u64 = MOST_SEMAPHORES as u64;

const SEMAPHORES_IN_FIRST: u64 = FIRST_SEMAPHORES as u64;

const BUFFERS: u64 = MOST_BUFFERS as u64;

pub const OPERATIONS: u64 = MOST_OPERATIONS as u64;

// Whether a plan is stored in the second form: its first byte tells.
pub fn in_second_form(plan: &[u8]) -> bool
    ensures { result ≡ is_second plan.now }
{
    !plan.is_empty() && plan[0] == SECOND_LEAD
}

// How many bytes come before the first section.
pub fn lead(wide: bool) -> usize
    ensures { result ≡ length (form_by wide).lead }
{
    if wide { 1 } else { 0 }
}

impl<'a> Reader<'a> {
    // The section of queues; how many there are.
    fn axes(&mut self) -> Result<u64, Reason>
        requires { RoomFor (1 + most_queues) self.old }
        ensures { ReadsSection (counted 0 most_queues 1 axis_field) most_queues self.old result self.new }
    {
        let count = self.count::<1>(0, QUEUES)?;
        for _k in 0..count {
            self.axis()?;
        }
        Ok(count)
    }

    // The count of the semaphores: as many as the form has room for, and in the second form more than in the first.
    fn semaphores(&mut self, wide: bool) -> Result<u64, Reason>
        requires { RoomFor 1 self.old }
        ensures { ReadsNumber (width_by wide)
            (λ _ v. count_check (form_by wide).semaphores_least (form_by wide).semaphores_most v)
            (form_by wide).semaphores_most self.old result self.new }
    {
        if wide {
            self.count::<SECOND_WIDTH>(SEMAPHORES_IN_FIRST + 1, SEMAPHORES)
        } else {
            self.count::<FIRST_WIDTH>(0, SEMAPHORES_IN_FIRST)
        }
    }

    // The section of semaphores; how many there are.
    fn owners(&mut self, wide: bool, queues: u64) -> Result<u64, Reason>
        requires { RoomFor (1 + (form_by wide).semaphores_most) self.old }
        ensures { ReadsSection (owned (form_by wide) (limited queues 4)) (form_by wide).semaphores_most self.old result
            self.new }
    {
        let count = self.semaphores(wide)?;
        for _k in 0..count {
            self.below::<1>(queues, Reason::NotInList)?;
        }
        Ok(count)
    }

    // The section of buffers; how many there are.
    fn sizes(&mut self) -> Result<u64, Reason>
        requires { RoomFor (1 + most_buffers) self.old }
        ensures { ReadsSection (counted 0 most_buffers 2 size_field) most_buffers self.old result self.new }
    {
        let count = self.count::<2>(0, BUFFERS)?;
        for _k in 0..count {
            self.size()?;
        }
        Ok(count)
    }

    // Three sections and the count of the fourth.
    #[inline(always)]
    fn before_operations(&mut self, wide: bool) -> Result<(Counts, u64), Reason>
        requires begins { Begins (form_by wide) self.old }
        requires room { front_numbers (form_by wide) + 1 ≤ length self.old.numbers.now }
        ensures room { self.new.numbers.ghost_name ≡ self.old.numbers.ghost_name }
        ensures reads { HeadReads (form_by wide) self.old result self.new }
    {
        let queues = self.axes()?;
        let semaphores = self.owners(wide, queues)?;
        let buffers = self.sizes()?;
        let operations = self.count::<2>(0, OPERATIONS)?;
        let counts = Counts {
            queues,
            semaphores,
            buffers,
        };
        Ok((counts, operations))
    }

    // What comes before the operations, by a reader whose cursor nothing refers to while it reads.
    pub fn head(&mut self, wide: bool) -> Result<(Counts, u64), Reason>
        requires begins { Begins (form_by wide) self.old }
        requires room { front_numbers (form_by wide) + 1 ≤ length self.old.numbers.now }
        ensures room { self.new.numbers.ghost_name ≡ self.old.numbers.ghost_name }
        ensures reads { HeadReads (form_by wide) self.old result self.new }
    {
        let (cursor, read) = head_from(self.plan, self.cursor, self.numbers, wide);
        self.cursor = cursor;
        read
    }

    // The four sections.
    pub fn sections(&mut self, wide: bool) -> Result<(), Reason>
        requires begins { Begins (form_by wide) self.old }
        requires room { form_numbers (form_by wide) ≤ length self.old.numbers.now }
        ensures room { self.new.numbers.ghost_name ≡ self.old.numbers.ghost_name }
        ensures reads { PlanReads (form_by wide) self.old result self.new }
    {
        let (counts, operations) = self.head(wide)?;
        self.several(operations, wide, counts)
    }
}

// What comes before the operations of a plan, from the cursor before its first section on, which comes back by value:
// so it is kept in registers.
fn head_from(
    plan: &[u8],
    cursor: Cursor,
    numbers: &mut [u64],
    wide: bool,
) -> (Cursor, Result<(Counts, u64), Reason>)
    requires begins { (cursor.at ≡ length (form_by wide).lead) × (cursor.got ≡ 0) }
    requires inside { cursor.at ≤ length plan.now }
    requires room { front_numbers (form_by wide) + 1 ≤ length numbers.old }
    ensures told { HeadTold (head_scan_by (form_by wide) plan.now) numbers.old (head_of result.1 result.0) numbers.new }
    ensures means { HeadRead (form_by wide) plan.now (head_of result.1 result.0) numbers.new }
    ensures past { Past result.0.got numbers.old numbers.new }
    ensures few { result.0.got ≤ front_numbers (form_by wide) + 1 }
{
    let mut reader = Reader {
        plan,
        numbers,
        cursor,
    };
    let read = reader.before_operations(wide);
    (reader.cursor, read)
}
