// R74, what is printed for a read and a write, as text in lent room; the text's length is handed back.
#![tactic(auto)]

ghost use Rattle.std.specs.Prelude.{length, take};
ghost use Rattle.base_text.specs.Text.{Puts};
ghost use Rattle.print_stored.specs.Texts.{read_text, write_text};

use base_text::Text;
use plan_format::limits::PLAN_NUMBERS;

// The numbers of a plan, on one line.
pub fn read(plan: &[u8], out: &mut [u8]) -> usize
    ensures { Puts (read_text plan.now) out.old 0 out.new result }
{
    let mut numbers = [0u64; PLAN_NUMBERS];
    let length = match stored_reader::read_through(plan, &mut numbers) {
        Ok(length) => length as usize,
        Err(refusal) => {
            return base_text::refused(out, refusal.reason.number(), refusal.place);
        }
    };
    let many = length.min(numbers.len());
    let mut text = Text::new(out);
    text.line(&numbers[..many]);
    text.byte(b'\n');
    text.len()
}

// The stored plan of the first n numbers, or of all where there are fewer.
pub fn write(numbers: &[u64], n: usize, out: &mut [u8]) -> usize
    ensures { Puts (write_text (take n numbers.now) (length out.old)) out.old 0
        out.new result }
{
    match stored_write::write_plan(&numbers[..n.min(numbers.len())], out) {
        Ok(length) => length as usize,
        Err(refusal) => base_text::refused(out, refusal.reason.number(), refusal.place),
    }
}
