// What is printed for a recorded trace held against a plan, as text in lent room; the text's length is handed back.
#![tactic(auto)]

ghost use Rattle.std.specs.Prelude.{◌≡◌, length};
ghost use Rattle.plan_format.specs.Sizes.{state_size};
ghost use Rattle.base_text.specs.Text.{Puts, Adds, or_refused};
ghost use Rattle.print_trace.specs.Printed.{numbers_text, departs_text, followed_text, trace_text, TracePrinted};

use ask_trace::TraceTold;
use base_text::Text;
use plan_format::limits::{LIST_NUMBERS, MOST_QUEUES, STATE_SIZE, TABLE_NUMBERS};
use plan_trace::Followed;

// What was followed, and how far the plan had come.
pub fn trace(plan: &[u8], trace: &[u8], out: &mut [u8]) -> usize
    ensures { TracePrinted plan.now trace.now out.old out.new result }
{
    let mut table = [0u32; TABLE_NUMBERS];
    let mut list = [0u32; LIST_NUMBERS];
    let mut state = [0u64; STATE_SIZE];
    let told = ask_trace::trace_question(plan, trace, &mut table, &mut list, &mut state);
    answered(out, told, &state)
}

// The line of a refusal, or the three lines of an answer.
fn answered(out: &mut [u8], told: TraceTold, state: &[u64]) -> usize
    requires { length state.now ≡ state_size }
    ensures { Puts (or_refused told.counted.number told.counted.place
        (trace_text told.traced told.counted.counts.queues told.counted.counts.semaphores state.now))
        out.old 0 out.new result }
{
    let c = told.counted;
    if c.number != 0 {
        return base_text::refused(out, c.number, c.place);
    }
    let traced = told.traced;
    let mut text = Text::new(out);
    line(&mut text, traced.step, traced.followed);
    text.words(b"\nqueues");
    numbers(&mut text, &state[..MOST_QUEUES], c.counts.queues);
    text.words(b"\nsemaphores");
    numbers(&mut text, &state[MOST_QUEUES..], c.counts.semaphores);
    text.byte(b'\n');
    text.len()
}

// What was followed.
fn line(text: &mut Text, step: usize, f: Followed)
    ensures { Adds (followed_text step f) text.old text.new }
{
    match f {
        Followed::Full => text.words(b"trace full"),
        Followed::Unfinished => {
            text.words(b"trace unfinished");
            text.next(step as u64);
        }
        Followed::Unknown(i) => departs(text, step, b" unknown", i),
        Followed::Repeated(i) => departs(text, step, b" repeated", i),
        Followed::NotFirst(i) => departs(text, step, b" not-first", i),
        Followed::WaitNotMet(u) => {
            departs(text, step, b" wait-not-met", u.operation);
            text.next(u.wait as u64);
        }
    }
}

// The step that departs, the rule that it breaks, and its operation.
fn departs(text: &mut Text, step: usize, rule: &[u8], operation: usize)
    ensures { Adds (departs_text step rule.now operation) text.old text.new }
{
    text.words(b"trace departs");
    text.next(step as u64);
    text.words(rule);
    text.next(operation as u64);
}

// The first n numbers of a list, each after a blank; 0 past its end.
fn numbers(text: &mut Text, list: &[u64], n: usize)
    ensures { Adds (numbers_text list.now n) text.old text.new }
{
    for i in 0..n {
        text.next(base_slices::get_or(list, i, 0));
    }
}
