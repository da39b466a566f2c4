// R75, what is printed for an input of any length, which is known by its first bytes or its first numbers.
#![tactic(auto)]

ghost use Rattle.std.specs.Prelude.{◌≡◌, take};
ghost use Rattle.base_text.specs.Text.{Puts};
ghost use Rattle.plan_format.specs.Stored.{too_long};
ghost use Rattle.print_input.specs.Inputs.{Answered, AnsweredWhole, WrittenWhole, TracedWhole, too_long_text};

use base_text::Text;
use plan_format::limits::{MOST_INPUT, SECOND_LEAD};

// What is asked of a plan.
#[derive(Clone, Copy, Debug, PartialEq, Eq, Hash)]
pub enum Question {
    Check,
    Reuse(u32, u32),
    Suggest(u32, u32),
    Frontier(u32, u32),
    Read,
}

// The answer on a plan.
pub fn answered(question: Question, plan: &[u8], out: &mut [u8]) -> usize
    ensures { Answered question plan.now out.old out.new result }
{
    match question {
        Question::Check => print_check::check(plan, out),
        Question::Reuse(queue, buffer) => print_ask::reuse(plan, queue, buffer, out),
        Question::Suggest(queue, buffer) => print_suggest::suggest(plan, queue, buffer, out),
        Question::Frontier(operation, capacity) => print_ask::frontier(
            plan, operation, capacity, out,
        ),
        Question::Read => print_stored::read(plan, out),
    }
}

// Whether bytes are of the second form, and more than the program judges.
fn is_long(bytes: &[u8]) -> bool
    ensures { result ≡ too_long bytes.now }
{
    bytes.len() > MOST_INPUT && bytes[0] == SECOND_LEAD
}

// The line in place of an answer.
fn say_long(out: &mut [u8]) -> usize
    ensures { Puts too_long_text out.old 0 out.new result }
{
    let mut text = Text::new(out);
    text.words(b"too long\n");
    text.len()
}

// The answer on every input that begins as the first n bytes do.
pub fn on_first(question: Question, bytes: &[u8], n: usize, out: &mut [u8]) -> usize
    ensures { AnsweredWhole question (take n bytes.now) out.old out.new result }
{
    let begun = &bytes[..n.min(bytes.len())];
    if is_long(begun) {
        return say_long(out);
    }
    answered(question, begun, out)
}

// The stored plan of every list that begins as the first n numbers do.
pub fn written(numbers: &[u64], n: usize, out: &mut [u8]) -> usize
    ensures { WrittenWhole (take n numbers.now) out.old out.new result }
{
    print_stored::write(numbers, n, out)
}

// What is printed of every trace that begins as the first m bytes do, held against every plan that begins as the first
// n bytes do.
pub fn traced(plan: &[u8], n: usize, trace: &[u8], m: usize, out: &mut [u8]) -> usize
    ensures { TracedWhole (take n plan.now) (take m trace.now) out.old
        out.new result }
{
    let plan = &plan[..n.min(plan.len())];
    if is_long(plan) {
        return say_long(out);
    }
    let trace = &trace[..m.min(trace.len())];
    print_trace::trace(plan, trace, out)
}
