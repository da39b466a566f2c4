// Operations: a queue, waits, signals and marks. A semaphore's position has WIDTH bytes.
ghost use Rattle.std.specs.Prelude.{◌≡◌, ◌+◌, ◌*◌, ◌≤◌, length};
ghost use Rattle.plan_format.specs.Form.{width_by};
ghost use Rattle.plan_format.specs.Grammar.{counted};
ghost use Rattle.plan_format.specs.Sections.{repeat, point_below, mark_below, operation_below};
ghost use Rattle.plan_format.specs.Sizes.{most_marks, block_numbers};
ghost use Rattle.stored_numbers.specs.Reading.{RoomFor, Reads, ReadsOn, reading, reached};

use crate::reader::{Cursor, Reader};
use plan_format::Reason;
use plan_format::limits::{
    FIRST_WIDTH, LEAST_SIGNAL, LEAST_WAIT, MOST_MARKS, MOST_SIGNALS, MOST_WAITS, SECOND_WIDTH,
};

// How many queues, semaphores and buffers a plan has: what positions are judged by.
#[derive(Clone, Copy, Debug, PartialEq, Eq, Hash)]
pub struct Counts {
    pub queues: u64,
    pub semaphores: u64,
    pub buffers: u64,
}

// What an operation has at most.
const WAITS: u64 = MOST_WAITS as u64;

const SIGNALS: u64 = MOST_SIGNALS as u64;

const MARKS: u64 = MOST_MARKS as u64;

impl<'a> Reader<'a> {
    // A wait or a signal: a semaphore and a value, at least `least`.
    #[inline(always)]
    fn point<const WIDTH: usize>(&mut self, semaphores: u64, least: u64) -> Result<(), Reason>
        requires width { (1 ≤ WIDTH) × (WIDTH ≤ 8) }
        requires room { RoomFor 2 self.old }
        ensures { Reads (point_below WIDTH semaphores least) 2 self.old result self.new }
    {
        self.below::<WIDTH>(semaphores, Reason::NotInList)?;
        self.value(least)
    }

    // The waits or the signals: a count, at most `most`, and the points, with values of at least `least`.
    #[inline(always)]
    fn points<const WIDTH: usize>(
        &mut self,
        most: u64,
        semaphores: u64,
        least: u64,
    ) -> Result<(), Reason>
        requires width { (1 ≤ WIDTH) × (WIDTH ≤ 8) }
        requires room { RoomFor (1 + 2 * most) self.old }
        ensures { Reads (counted 0 most 1 (point_below WIDTH semaphores least)) (1 + 2 * most) self.old result
            self.new }
    {
        let count = self.count::<1>(0, most)?;
        for _k in 0..count {
            self.point::<WIDTH>(semaphores, least)?;
        }
        Ok(())
    }

    // A mark: a buffer and a kind.
    #[inline(always)]
    fn mark(&mut self, buffers: u64) -> Result<(), Reason>
        requires { RoomFor 2 self.old }
        ensures { Reads (mark_below buffers) 2 self.old result self.new }
    {
        self.below::<2>(buffers, Reason::NotInList)?;
        self.below::<1>(2, Reason::NotInList)?;
        Ok(())
    }

    // The marks: a count and the marks.
    #[inline(always)]
    fn marks(&mut self, buffers: u64) -> Result<(), Reason>
        requires { RoomFor (1 + 2 * most_marks) self.old }
        ensures { Reads (counted 0 most_marks 1 (mark_below buffers)) (1 + 2 * most_marks) self.old result self.new }
    {
        let count = self.count::<1>(0, MARKS)?;
        for _k in 0..count {
            self.mark(buffers)?;
        }
        Ok(())
    }

    // One operation.
    #[inline(always)]
    fn operation_in<const WIDTH: usize>(&mut self, counts: Counts) -> Result<(), Reason>
        requires width { (1 ≤ WIDTH) × (WIDTH ≤ 8) }
        requires room { RoomFor block_numbers self.old }
        ensures { Reads (operation_below WIDTH counts.queues counts.semaphores counts.buffers) block_numbers self.old
            result self.new }
    {
        self.below::<1>(counts.queues, Reason::NotInList)?;
        self.points::<WIDTH>(WAITS, counts.semaphores, LEAST_WAIT)?;
        self.points::<WIDTH>(SIGNALS, counts.semaphores, LEAST_SIGNAL)?;
        self.marks(counts.buffers)
    }

    // The same in the form that is told.
    #[inline(always)]
    pub fn operation(&mut self, wide: bool, counts: Counts) -> Result<(), Reason>
        requires { RoomFor block_numbers self.old }
        ensures { Reads (operation_below (width_by wide) counts.queues counts.semaphores counts.buffers) block_numbers
            self.old result self.new }
    {
        if wide {
            self.operation_in::<SECOND_WIDTH>(counts)
        } else {
            self.operation_in::<FIRST_WIDTH>(counts)
        }
    }

    // So many operations, one after another.
    #[inline(always)]
    fn each(&mut self, many: u64, wide: bool, counts: Counts) -> Result<(), Reason>
        requires { RoomFor (block_numbers * many) self.old }
        ensures room { self.new.numbers.ghost_name ≡ self.old.numbers.ghost_name }
        ensures reads { Reads
            (repeat many (operation_below (width_by wide) counts.queues counts.semaphores counts.buffers))
            (block_numbers * many) self.old result self.new }
    {
        for _k in 0..many {
            self.operation(wide, counts)?;
        }
        Ok(())
    }

    // The same, by a reader whose cursor nothing refers to while it reads.
    pub fn several(&mut self, many: u64, wide: bool, counts: Counts) -> Result<(), Reason>
        requires { RoomFor (block_numbers * many) self.old }
        ensures room { self.new.numbers.ghost_name ≡ self.old.numbers.ghost_name }
        ensures reads { Reads
            (repeat many (operation_below (width_by wide) counts.queues counts.semaphores counts.buffers))
            (block_numbers * many) self.old result self.new }
    {
        let (cursor, read) = from_cursor(self.plan, self.cursor, self.numbers, many, wide, counts);
        self.cursor = cursor;
        read
    }
}

// So many operations from a cursor on, which comes back by value: so it is kept in registers.
fn from_cursor(
    plan: &[u8],
    cursor: Cursor,
    numbers: &mut [u64],
    many: u64,
    wide: bool,
    counts: Counts,
) -> (Cursor, Result<(), Reason>)
    requires inside { cursor.at ≤ length plan.now }
    requires room { cursor.got + block_numbers * many ≤ length numbers.old }
    ensures { ReadsOn (repeat many (operation_below (width_by wide) counts.queues counts.semaphores counts.buffers))
        (block_numbers * many) plan.now (reading cursor.at cursor.got) numbers.old (reached result.1 result.0)
        numbers.new }
{
    let mut reader = Reader {
        plan,
        numbers,
        cursor,
    };
    let read = reader.each(many, wide, counts);
    (reader.cursor, read)
}
