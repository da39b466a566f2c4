// Operations: a queue, waits, signals and marks.
ghost use Rattle.std.specs.Prelude.{◌≡◌, ◌+◌, ◌*◌, ◌≤◌, ◌<◌, ◌^◌, length};
ghost use Rattle.plan_format.specs.Sizes.{most_operations, most_marks, block_bytes};
ghost use Rattle.plan_format.specs.Grammar.{counted};
ghost use Rattle.plan_format.specs.Sections.{point_below, mark_below, operation_below};
ghost use Rattle.stored_bytes.specs.Writing.{Wrote, point_most};

use crate::writer::Writer;
use plan_format::limits::{
    LEAST_SIGNAL, LEAST_WAIT, MOST_MARKS, MOST_OPERATIONS, MOST_SIGNALS, MOST_WAITS,
};
use plan_format::{Reason, Refusal};

impl<'a> Writer<'a> {
    // A wait or a signal: a semaphore and a value, at least `least`.
    #[inline(always)]
    fn point<const WIDTH: usize>(&mut self, semaphores: u64, least: u64) -> Result<(), Refusal>
        requires width { (1 ≤ WIDTH) × (WIDTH ≤ 2) }
        requires fits { semaphores ≤ 256 ^ WIDTH }
        requires room { self.old.cursor.put + point_most ≤ length self.old.bytes.now }
        ensures wrote { Wrote (point_below WIDTH semaphores least) point_most self.old result self.new }
        ensures same_array { self.new.bytes.ghost_name ≡ self.old.bytes.ghost_name }
    {
        self.below::<WIDTH>(semaphores, Reason::NotInList)?;
        self.at_least(least)
    }

    // The waits or the signals: a count, at most `most`, and the points, with values of at least `least`.
    #[inline(always)]
    fn points<const WIDTH: usize>(
        &mut self,
        most: u64,
        semaphores: u64,
        least: u64,
    ) -> Result<(), Refusal>
        requires width { (1 ≤ WIDTH) × (WIDTH ≤ 2) }
        requires few { most < 256 }
        requires fits { semaphores ≤ 256 ^ WIDTH }
        requires room { self.old.cursor.put + (1 + point_most * most) ≤ length self.old.bytes.now }
        ensures wrote { Wrote (counted 0 most 1 (point_below WIDTH semaphores least)) (1 + point_most * most)
            self.old result self.new }
        ensures same_array { self.new.bytes.ghost_name ≡ self.old.bytes.ghost_name }
    {
        let count = self.below::<1>(most + 1, Reason::CountOverLimit)?;
        for _k in 0..count {
            self.point::<WIDTH>(semaphores, least)?;
        }
        Ok(())
    }

    // A mark: a buffer and a kind.
    #[inline(always)]
    fn mark(&mut self, buffers: u64) -> Result<(), Refusal>
        requires fits { buffers ≤ 65536 }
        requires room { self.old.cursor.put + 3 ≤ length self.old.bytes.now }
        ensures wrote { Wrote (mark_below buffers) 3 self.old result self.new }
        ensures same_array { self.new.bytes.ghost_name ≡ self.old.bytes.ghost_name }
    {
        self.below::<2>(buffers, Reason::NotInList)?;
        self.below::<1>(2, Reason::NotInList)?;
        Ok(())
    }

    // The marks: a count and the marks.
    #[inline(always)]
    fn marks(&mut self, buffers: u64) -> Result<(), Refusal>
        requires fits { buffers ≤ 65536 }
        requires room { self.old.cursor.put + (1 + 3 * most_marks) ≤ length self.old.bytes.now }
        ensures wrote { Wrote (counted 0 most_marks 1 (mark_below buffers)) (1 + 3 * most_marks)
            self.old result self.new }
        ensures same_array { self.new.bytes.ghost_name ≡ self.old.bytes.ghost_name }
    {
        let count = self.below::<1>(MOST_MARKS as u64 + 1, Reason::CountOverLimit)?;
        for _k in 0..count {
            self.mark(buffers)?;
        }
        Ok(())
    }

    // One operation.
    #[inline(always)]
    fn operation<const WIDTH: usize>(
        &mut self,
        queues: u64,
        semaphores: u64,
        buffers: u64,
    ) -> Result<(), Refusal>
        requires width { (1 ≤ WIDTH) × (WIDTH ≤ 2) }
        requires fits { (queues ≤ 256) × (semaphores ≤ 256 ^ WIDTH) × (buffers ≤ 65536) }
        requires room { self.old.cursor.put + block_bytes ≤ length self.old.bytes.now }
        ensures wrote { Wrote (operation_below WIDTH queues semaphores buffers) block_bytes self.old result self.new }
        ensures same_array { self.new.bytes.ghost_name ≡ self.old.bytes.ghost_name }
    {
        self.below::<1>(queues, Reason::NotInList)?;
        self.points::<WIDTH>(MOST_WAITS as u64, semaphores, LEAST_WAIT)?;
        self.points::<WIDTH>(MOST_SIGNALS as u64, semaphores, LEAST_SIGNAL)?;
        self.marks(buffers)
    }

    // The section of operations.
    pub fn operations<const WIDTH: usize>(
        &mut self,
        queues: u64,
        semaphores: u64,
        buffers: u64,
    ) -> Result<(), Refusal>
        requires width { (1 ≤ WIDTH) × (WIDTH ≤ 2) }
        requires fits { (queues ≤ 256) × (semaphores ≤ 256 ^ WIDTH) × (buffers ≤ 65536) }
        requires room { self.old.cursor.put + (2 + block_bytes * most_operations) ≤ length self.old.bytes.now }
        ensures wrote { Wrote (counted 0 most_operations 2 (operation_below WIDTH queues semaphores buffers))
            (2 + block_bytes * most_operations) self.old result self.new }
        ensures same_array { self.new.bytes.ghost_name ≡ self.old.bytes.ghost_name }
    {
        let count = self.below::<2>(MOST_OPERATIONS as u64 + 1, Reason::CountOverLimit)?;
        for _k in 0..count {
            self.operation::<WIDTH>(queues, semaphores, buffers)?;
        }
        Ok(())
    }
}
