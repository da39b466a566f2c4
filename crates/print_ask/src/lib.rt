// R74, what is printed for a question on a plan, as text in lent room; the text's length is handed back.
#![tactic(auto)]

ghost use Rattle.std.specs.Prelude.{◌≡◌};
ghost use Rattle.base_lists.specs.Lists.{join_from};
ghost use Rattle.base_text.specs.Text.{Puts, Adds, or_refused};
ghost use Rattle.print_ask.specs.Questions.{verdict_name, verdict_text, whole_words, entry_of, entry_text};
ghost use Rattle.print_ask.specs.Questions.{frontier_text, ReusePrinted, FrontierPrinted};

use ask_frontier::Sent;
use base_text::Text;
use plan_format::Told;
use plan_format::limits::{LIST_NUMBERS, TABLE_NUMBERS};

// The verdict on a buffer for a queue.
pub fn reuse(plan: &[u8], queue: u32, buffer: u32, out: &mut [u8]) -> usize
    ensures { ReusePrinted plan.now queue buffer out.old out.new result }
{
    let mut table = [0u32; TABLE_NUMBERS];
    let mut list = [0u32; LIST_NUMBERS];
    let told = ask_reuse::reuse_question(plan, queue, buffer, &mut table, &mut list);
    judged(out, told)
}

// The line of a refusal or of a verdict.
fn judged(out: &mut [u8], told: Told) -> usize
    ensures { Puts (or_refused told.number told.place (verdict_text told.answer)) out.old 0
        out.new result }
{
    if told.number != 0 {
        return base_text::refused(out, told.number, told.place);
    }
    let mut text = Text::new(out);
    text.words(b"verdict");
    text.next(told.answer);
    text.words(verdict(told.answer));
    text.byte(b'\n');
    text.len()
}

// The name of a verdict's number, after a blank.
#[tactic(auto, unfolding(crate::specs::Questions::verdict_name))]
fn verdict(number: u64) -> &'static [u8]
    ensures { result.now ≡ verdict_name number }
{
    match number {
        0 => b" fresh",
        1 => b" reusable",
        2 => b" held",
        _ => b" not-ordered",
    }
}

// The frontier sent out for an operation.
pub fn frontier(plan: &[u8], operation: u32, capacity: u32, out: &mut [u8]) -> usize
    ensures { FrontierPrinted plan.now operation capacity out.old out.new result }
{
    let mut table = [0u32; TABLE_NUMBERS];
    let mut list = [0u32; LIST_NUMBERS];
    let sent = ask_frontier::frontier_of(plan, operation, capacity, &mut table, &mut list);
    entered(out, sent)
}

// The line of a refusal or of a frontier.
fn entered(out: &mut [u8], sent: Sent) -> usize
    ensures { Puts (or_refused sent.number sent.place (frontier_text sent.frontier))
        out.old 0 out.new result }
{
    if sent.number != 0 {
        return base_text::refused(out, sent.number, sent.place);
    }
    let f = sent.frontier;
    let mut text = Text::new(out);
    text.words(whole(f.tainted));
    entries(&mut text, &f.axes, &f.epochs, f.len);
    text.byte(b'\n');
    text.len()
}

// `frontier`, and whether it is whole.
#[tactic(auto, unfolding(crate::specs::Questions::whole_words))]
fn whole(tainted: bool) -> &'static [u8]
    ensures { result.now ≡ whole_words tainted }
{
    if tainted {
        b"frontier tainted"
    } else {
        b"frontier whole"
    }
}

// The first n entries, AXIS:EPOCH, each after a blank.
fn entries(text: &mut Text, axes: &[u64], epochs: &[u64], n: usize)
    ensures { Adds (join_from n 0 (entry_text axes.now epochs.now)) text.old text.new }
{
    for i in 0..n {
        entry(
            text,
            base_slices::get_or(axes, i, 0),
            base_slices::get_or(epochs, i, 0),
        );
    }
}

// AXIS:EPOCH after a blank.
fn entry(text: &mut Text, axis: u64, epoch: u64)
    ensures { Adds (entry_of axis epoch) text.old text.new }
{
    text.next(axis);
    text.byte(b':');
    text.number(epoch);
}
