// The sections of a plan, in stored order.
ghost use Rattle.std.specs.Prelude.{◌≡◌, ◌+◌, ◌*◌, ◌≤◌, ◌<◌, ◌^◌, length};
ghost use Rattle.plan_format.specs.Sizes.{most_queues, most_semaphores, most_buffers, second_width};
ghost use Rattle.plan_format.specs.Form.{list_by, plan_grammar};
ghost use Rattle.plan_format.specs.Grammar.{field, counted};
ghost use Rattle.plan_format.specs.Sections.{axis_field, size_field, limited};
ghost use Rattle.stored_bytes.specs.Writing.{Wrote, Counted, listed_with, sections_most};

use crate::writer::Writer;
use plan_format::limits::{FIRST_SEMAPHORES, MOST_BUFFERS, MOST_QUEUES, MOST_SEMAPHORES};
use plan_format::{Reason, Refusal};

impl<'a> Writer<'a> {
    // The section of queues, and their count.
    fn axes(&mut self) -> Result<u64, Refusal>
        requires room { self.old.cursor.put + (1 + 8 * most_queues) ≤ length self.old.bytes.now }
        ensures wrote { Wrote (counted 0 most_queues 1 axis_field) (1 + 8 * most_queues) self.old result self.new }
        ensures count { Counted most_queues self.old result self.new }
        ensures same_array { self.new.bytes.ghost_name ≡ self.old.bytes.ghost_name }
    {
        let count = self.below::<1>(MOST_QUEUES as u64 + 1, Reason::CountOverLimit)?;
        for _k in 0..count {
            self.axis()?;
        }
        Ok(count)
    }

    // The section of semaphores, at most `most`, and their count.
    fn owners<const WIDTH: usize>(&mut self, most: u64, queues: u64) -> Result<u64, Refusal>
        requires width { (1 ≤ WIDTH) × (WIDTH ≤ 2) }
        requires few { most < 256 ^ WIDTH }
        requires fits { queues ≤ 256 }
        requires room { self.old.cursor.put + (WIDTH + 1 * most) ≤ length self.old.bytes.now }
        ensures wrote { Wrote (counted 0 most WIDTH (field 1 (limited queues 4))) (WIDTH + 1 * most)
            self.old result self.new }
        ensures count { Counted most self.old result self.new }
        ensures same_array { self.new.bytes.ghost_name ≡ self.old.bytes.ghost_name }
    {
        let count = self.below::<WIDTH>(most + 1, Reason::CountOverLimit)?;
        for _k in 0..count {
            self.below::<1>(queues, Reason::NotInList)?;
        }
        Ok(count)
    }

    // The section of buffers, and their count.
    fn sizes(&mut self) -> Result<u64, Refusal>
        requires room { self.old.cursor.put + (2 + 4 * most_buffers) ≤ length self.old.bytes.now }
        ensures wrote { Wrote (counted 0 most_buffers 2 size_field) (2 + 4 * most_buffers) self.old result self.new }
        ensures count { Counted most_buffers self.old result self.new }
        ensures same_array { self.new.bytes.ghost_name ≡ self.old.bytes.ghost_name }
    {
        let count = self.below::<2>(MOST_BUFFERS as u64 + 1, Reason::CountOverLimit)?;
        for _k in 0..count {
            self.size()?;
        }
        Ok(count)
    }

    // The four sections; a count comes before its section.
    #[inline(always)]
    fn sections<const WIDTH: usize>(&mut self, most: u64) -> Result<(), Refusal>
        requires width { (1 ≤ WIDTH) × (WIDTH ≤ 2) }
        requires few { most < 256 ^ WIDTH }
        requires first { self.old.cursor.at ≡ 0 }
        requires room { self.old.cursor.put + sections_most (WIDTH + 1 * most) ≤ length self.old.bytes.now }
        ensures wrote { Wrote (plan_grammar (listed_with WIDTH most)) (sections_most (WIDTH + 1 * most))
            self.old result self.new }
        ensures same_array { self.new.bytes.ghost_name ≡ self.old.bytes.ghost_name }
    {
        let queues = self.axes()?;
        let semaphores = self.owners::<WIDTH>(most, queues)?;
        let buffers = self.sizes()?;
        self.operations::<WIDTH>(queues, semaphores, buffers)
    }

    // The sections in one of the two forms, the second if `wide`, where its count of semaphores may be any.
    pub fn plan(&mut self, wide: bool) -> Result<(), Refusal>
        requires first { self.old.cursor.at ≡ 0 }
        requires room { self.old.cursor.put + sections_most (second_width + most_semaphores)
            ≤ length self.old.bytes.now }
        ensures wrote { Wrote (plan_grammar (list_by wide)) (sections_most (second_width + most_semaphores))
            self.old result self.new }
        ensures same_array { self.new.bytes.ghost_name ≡ self.old.bytes.ghost_name }
    {
        if wide {
            self.sections::<2>(MOST_SEMAPHORES as u64)
        } else {
            self.sections::<1>(FIRST_SEMAPHORES as u64)
        }
    }
}
