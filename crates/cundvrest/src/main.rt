// The program: arguments and standard input in, the answer's text out. All that is judged is judged by the libraries.
#![tactic(auto)]

mod arguments;
mod input;
mod numbers;
mod usage;

use arguments::Asked;
use plan_format::limits::{MOST_INPUT, PLAN_NUMBERS, TRACE_BYTES};
use print_input::Question;
use usage::Said;

// One byte more than is judged in the second form, one number more than the longest plan has, and one byte more than
// the longest trace: so many decide the answer to an input of any length.
const FIRST_BYTES: usize = MOST_INPUT + 1;

const FIRST_NUMBERS: usize = PLAN_NUMBERS + 1;

const FIRST_TRACE_BYTES: usize = TRACE_BYTES + 1;

// Room for every text that is printed.
const TEXT_ROOM: usize = 262144;

// The answer to a question on the plan of standard input.
#[inline(never)]
fn on_plan(rt: &HostRuntime, question: Question, out: &mut [u8]) -> Result<usize, Said> {
    let mut plan = [0u8; FIRST_BYTES];
    let kept = input::plan(rt, &mut plan)?;
    Ok(print_input::on_first(question, &plan, kept, out))
}

// A recorded trace held against the plan of standard input.
#[inline(never)]
fn on_trace(rt: &HostRuntime, out: &mut [u8]) -> Result<usize, Said> {
    let mut trace = [0u8; FIRST_TRACE_BYTES];
    let recorded = input::trace(rt, &mut trace)?;
    let mut plan = [0u8; FIRST_BYTES];
    let kept = input::plan(rt, &mut plan)?;
    Ok(print_input::traced(&plan, kept, &trace, recorded, out))
}

// The stored plan of the numbers of standard input.
#[inline(never)]
fn write(rt: &HostRuntime, out: &mut [u8]) -> Result<usize, Said> {
    let mut list = [0u64; FIRST_NUMBERS];
    let kept = numbers::from_input(rt, &mut list)?;
    Ok(print_input::written(&list, kept, out))
}

// The text of what is asked; or that a line on standard error says why there is none. What reads input is not inlined
// here: the stack has the arrays of what is asked, and no others beside them.
fn answer(rt: &HostRuntime, out: &mut [u8]) -> Result<usize, Said> {
    match arguments::read_words(rt)? {
        Asked::Plan(question) => on_plan(rt, question, out),
        Asked::Trace => on_trace(rt, out),
        Asked::Write => write(rt, out),
        Asked::Help => Ok(usage::help(out)),
    }
}

fn main(rt: HostRuntime) {
    let mut out = [0u8; TEXT_ROOM];
    let n = answer(&rt, &mut out).unwrap_or(0).min(TEXT_ROOM);
    if let Err(error) = rt.stdout().write_all(&out[..n]) {
        usage::fail(&rt, "standard output cannot be written", error);
    }
}
