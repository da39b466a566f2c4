// Fields: each is read at the cursor, judged, and stored after the numbers before it. A field that is refused leaves
// the cursor where it is.
ghost use Rattle.std.specs.Prelude.{◌≡◌, ◌+◌, ◌-◌, ◌≤◌, ◌<◌, length, take, drop, set};
ghost use Rattle.base_lists.specs.Lists.{member};
ghost use Rattle.plan_format.specs.Form.{any_number, at_least, new_axis};
ghost use Rattle.plan_format.specs.Told.{number_of};
ghost use Rattle.plan_format.specs.Grammar.{count_check};
ghost use Rattle.plan_format.specs.Sections.{limited};
ghost use Rattle.stored_numbers.specs.Reading.{NextIs, RoomFor, SameLent, ReadsField, ReadsNumber};

use crate::reader::Reader;
use byteorder::{ByteOrder, LittleEndian};
use plan_format::Reason;

impl<'a> Reader<'a> {
    // The number in the next bytes, the lowest first; compiled, it is one load.
    #[inline(always)]
    fn next<const WIDTH: usize>(&self) -> Result<u64, Reason>
        requires { (1 ≤ WIDTH) × (WIDTH ≤ 8) }
        ensures { NextIs WIDTH self.now.plan.now self.now.cursor.at result }
    {
        let left = &self.plan[self.cursor.at..];
        if left.len() < WIDTH {
            return Err(Reason::CutShort);
        }
        Ok(LittleEndian::read_uint(left, WIDTH))
    }

    // A number is stored, and the cursor moves past its field.
    #[inline(always)]
    fn keep<const WIDTH: usize>(&mut self, value: u64)
        requires whole { self.old.cursor.at + WIDTH ≤ length self.old.plan.now }
        requires room { RoomFor 1 self.old }
        ensures same { SameLent self.old self.new }
        ensures cursor { self.new.cursor ≡ record { at = self.old.cursor.at + WIDTH; got = self.old.cursor.got + 1 } }
        ensures stored { self.new.numbers.now ≡ set self.old.numbers.now self.old.cursor.got value }
    {
        self.numbers[self.cursor.got] = value;
        self.cursor = self.cursor.past(WIDTH);
    }

    // A number below `limit`; any other is refused by `over`.
    #[inline(always)]
    pub fn below<const WIDTH: usize>(&mut self, limit: u64, over: Reason) -> Result<u64, Reason>
        requires width { (1 ≤ WIDTH) × (WIDTH ≤ 8) }
        requires room { RoomFor 1 self.old }
        ensures { ReadsNumber WIDTH (limited limit (number_of over)) (limit - 1) self.old result self.new }
    {
        let value = self.next::<WIDTH>()?;
        if limit <= value {
            return Err(over);
        }
        self.keep::<WIDTH>(value);
        Ok(value)
    }

    // A count, from `least` to `most`.
    #[inline(always)]
    pub fn count<const WIDTH: usize>(&mut self, least: u64, most: u64) -> Result<u64, Reason>
        requires width { (1 ≤ WIDTH) × (WIDTH ≤ 8) }
        requires room { RoomFor 1 self.old }
        ensures { ReadsNumber WIDTH (λ _ v. count_check least most v) most self.old result self.new }
    {
        let value = self.next::<WIDTH>()?;
        if value < least || most < value {
            return Err(Reason::CountOverLimit);
        }
        self.keep::<WIDTH>(value);
        Ok(value)
    }

    // The size of a buffer: any number.
    #[inline(always)]
    pub fn size(&mut self) -> Result<(), Reason>
        requires { RoomFor 1 self.old }
        ensures { ReadsField 4 any_number self.old result self.new }
    {
        let value = self.next::<4>()?;
        self.keep::<4>(value);
        Ok(())
    }

    // The value of a wait or a signal, at least `least`.
    #[inline(always)]
    pub fn value(&mut self, least: u64) -> Result<(), Reason>
        requires { RoomFor 1 self.old }
        ensures { ReadsField 8 (at_least least) self.old result self.new }
    {
        let value = self.next::<8>()?;
        if value < least {
            return Err(Reason::WaitForZero);
        }
        self.keep::<8>(value);
        Ok(())
    }

    // Whether a queue that was read has this axis: the numbers so far are the count of the queues and their axes.
    #[inline(always)]
    fn has_axis(&self, axis: u64) -> bool
        requires { RoomFor 0 self.now }
        ensures { result ≡ member axis (drop 1 (take self.now.cursor.got self.now.numbers.now)) }
    {
        plan_format::repeated(&self.numbers[..self.cursor.got], axis)
    }

    // The axis of a queue, which no earlier queue has.
    #[inline(always)]
    pub fn axis(&mut self) -> Result<(), Reason>
        requires { RoomFor 1 self.old }
        ensures { ReadsField 8 new_axis self.old result self.new }
    {
        let value = self.next::<8>()?;
        if self.has_axis(value) {
            return Err(Reason::AxisTwice);
        }
        self.keep::<8>(value);
        Ok(())
    }
}
