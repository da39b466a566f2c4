// R91, what is printed for the question for a wait, as text in lent room; the text's length is handed back.
#![tactic(auto)]

ghost use Rattle.base_text.specs.Text.{Puts, Adds, or_refused};
ghost use Rattle.print_suggest.specs.Printed.{advice_words, advice_text, SuggestPrinted};

use ask_suggest::Suggested;
use base_text::Text;
use plan_format::limits::{LIST_NUMBERS, TABLE_NUMBERS};
use plan_suggest::Advice;

// The wait that would free a buffer for a queue.
pub fn suggest(plan: &[u8], queue: u32, buffer: u32, out: &mut [u8]) -> usize
    ensures { SuggestPrinted plan.now queue buffer out.old out.new result }
{
    let mut table = [0u32; TABLE_NUMBERS];
    let mut list = [0u32; LIST_NUMBERS];
    let s = ask_suggest::suggest_question(plan, queue, buffer, &mut table, &mut list);
    line(out, s)
}

// The line of a refusal or of an advice.
fn line(out: &mut [u8], s: Suggested) -> usize
    ensures { Puts (or_refused s.number s.place (advice_text s.advice)) out.old 0
        out.new result }
{
    if s.number != 0 {
        return base_text::refused(out, s.number, s.place);
    }
    let mut text = Text::new(out);
    advice(&mut text, s.advice);
    text.byte(b'\n');
    text.len()
}

// What is advised.
fn advice(text: &mut Text, a: Advice)
    ensures { Adds (advice_words a) text.old text.new }
{
    match a {
        Advice::NoneNeeded => text.words(b"wait none-needed"),
        Advice::Wait(semaphore, value) => {
            text.words(b"wait");
            text.next(semaphore as u64);
            text.next(value);
        }
        Advice::NoneWouldHelp => text.words(b"wait none-would-help"),
    }
}
