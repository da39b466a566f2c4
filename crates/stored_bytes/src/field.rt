// Fields: the number at the cursor is judged, and its bytes are put after those before it.
ghost use Rattle.std.specs.Prelude.{◌≡◌, ◌+◌, ◌≤◌, ◌<◌, ◌^◌, length, get_or};
ghost use Rattle.plan_format.specs.Form.{at_least};
ghost use Rattle.plan_format.specs.Grammar.{field};
ghost use Rattle.plan_format.specs.Sections.{axis_field, size_field};
ghost use Rattle.plan_format.specs.Told.{number_of, refused_by};
ghost use Rattle.stored_bytes.specs.Writing.{NumberPut, Wrote, WroteLimited};

use crate::writer::Writer;
use byteorder::{ByteOrder, LittleEndian};
use plan_format::{Reason, Refusal};

// The least number that four bytes cannot hold.
const SIZE_END: u64 = 4294967296;

impl<'a> Writer<'a> {
    // A refusal of the number at the cursor.
    fn refusal(&self, reason: Reason) -> Refusal
        ensures { result ≡ refused_by reason self.now.cursor.at }
    {
        reason.at(self.cursor.at)
    }

    // Puts the number at the cursor in `WIDTH` bytes, and moves past it.
    #[inline(always)]
    fn put<const WIDTH: usize>(&mut self, value: u64)
        requires width { (1 ≤ WIDTH) × (WIDTH ≤ 8) }
        requires fits { value < 256 ^ WIDTH }
        requires there { self.old.cursor.at < length self.old.numbers.now }
        requires room { self.old.cursor.put + WIDTH ≤ length self.old.bytes.now }
        ensures put { NumberPut WIDTH self.old.bytes.now self.old.cursor.put value self.new.bytes.now }
        ensures past { self.new.cursor ≡ record { at = self.old.cursor.at + 1; put = self.old.cursor.put + WIDTH } }
        ensures same_list { self.new.numbers.now ≡ self.old.numbers.now }
        ensures same_array { self.new.bytes.ghost_name ≡ self.old.bytes.ghost_name }
    {
        let put = self.cursor.put;
        LittleEndian::write_uint(&mut self.bytes[put..put + WIDTH], value, WIDTH);
        self.cursor = self.cursor.past(WIDTH);
    }

    // A number below `limit`, in `WIDTH` bytes; any other is refused by `over`.
    #[inline(always)]
    pub fn below<const WIDTH: usize>(&mut self, limit: u64, over: Reason) -> Result<u64, Refusal>
        requires width { (1 ≤ WIDTH) × (WIDTH ≤ 8) }
        requires fits { limit ≤ 256 ^ WIDTH }
        requires room { self.old.cursor.put + WIDTH ≤ length self.old.bytes.now }
        ensures wrote { WroteLimited WIDTH limit (number_of over) self.old result self.new }
        ensures same_array { self.new.bytes.ghost_name ≡ self.old.bytes.ghost_name }
    {
        if self.numbers.len() <= self.cursor.at {
            return Err(self.refusal(Reason::CutShort));
        }
        let value = self.numbers[self.cursor.at];
        if limit <= value {
            return Err(self.refusal(over));
        }
        self.put::<WIDTH>(value);
        Ok(value)
    }

    // The size of a buffer: a number that fits four bytes.
    #[inline(always)]
    pub fn size(&mut self) -> Result<(), Refusal>
        requires room { self.old.cursor.put + 4 ≤ length self.old.bytes.now }
        ensures wrote { Wrote size_field 4 self.old result self.new }
        ensures same_array { self.new.bytes.ghost_name ≡ self.old.bytes.ghost_name }
    {
        self.below::<4>(SIZE_END, Reason::NotInList)?;
        Ok(())
    }

    // The value of a wait or a signal: at least `least`.
    #[inline(always)]
    pub fn at_least(&mut self, least: u64) -> Result<(), Refusal>
        requires room { self.old.cursor.put + 8 ≤ length self.old.bytes.now }
        ensures wrote { Wrote (field 8 (at_least least)) 8 self.old result self.new }
        ensures same_array { self.new.bytes.ghost_name ≡ self.old.bytes.ghost_name }
    {
        if self.numbers.len() <= self.cursor.at {
            return Err(self.refusal(Reason::CutShort));
        }
        let value = self.numbers[self.cursor.at];
        if value < least {
            return Err(self.refusal(Reason::WaitForZero));
        }
        self.put::<8>(value);
        Ok(())
    }

    // The axis of a queue: a number that no earlier queue has.
    #[inline(always)]
    pub fn axis(&mut self) -> Result<(), Refusal>
        requires room { self.old.cursor.put + 8 ≤ length self.old.bytes.now }
        ensures wrote { Wrote axis_field 8 self.old result self.new }
        ensures same_array { self.new.bytes.ghost_name ≡ self.old.bytes.ghost_name }
    {
        let at = self.cursor.at;
        if self.numbers.len() <= at {
            return Err(self.refusal(Reason::CutShort));
        }
        let value = self.numbers[at];
        if plan_format::repeated(&self.numbers[..at], value) {
            return Err(self.refusal(Reason::AxisTwice));
        }
        self.put::<8>(value);
        Ok(())
    }
}
