// What there is to ask, and what is said of a question that is none: one line on standard error.
use base_text::Text;
use std::{fmt, io};

// That a line on standard error says why there is no answer.
#[derive(Clone, Copy, Debug, PartialEq, Eq, Hash)]
pub struct Said;

pub fn help(out: &mut [u8]) -> usize {
    let mut text = Text::new(out);
    text.words(
        b"cundvrest: a proved checker for queue plans

  cundvrest < PLAN                              check the plan: passed with its run and rows, or refused
  cundvrest reuse QUEUE BUFFER < PLAN           may this queue fill the buffer again once the plan has run?
  cundvrest suggest QUEUE BUFFER < PLAN         the wait to add to the plan so that it may
  cundvrest frontier OPERATION CAPACITY < PLAN  the frontier sent out for an operation
  cundvrest trace FILE < PLAN                   does a trace recorded in FILE follow the plan, and how far did it come?
  cundvrest read < PLAN                         the numbers of the plan, one for each stored field
  cundvrest write < NUMBERS > PLAN              the stored plan of such numbers
  cundvrest help                                this text

It prints one of these, numbers in decimal; N is the refusal and P its place.
  passed 0, then size QUEUES SEMAPHORES BUFFERS OPERATIONS, run, ready, and a row for each operation
  verdict N fresh|reusable|held|not-ordered     wait none-needed|SEMAPHORE VALUE|none-would-help
  trace full, unfinished STEPS or departs STEP RULE OPERATION, then queues and semaphores: how far each had come
  frontier whole|tainted AXIS:EPOCH ..          refused N P    too long, of 65,537 bytes or more that begin with 242
     1 cut short       2 count over its limit   3 bytes follow        4 not in its list      5 axis twice  16 wait for 0
     7 not higher      8 wait for no signal    10 stuck              17 signal out of turn  11 broken mark  22 bad trace
    12 no such queue  13 no such buffer        21 no such operation  15 capacity not 1..16  19 no signal frees it

Over files: check, explain, draw, text, store, rows (cundvrest check --help). Exit status of the launcher ./cundvrest:
  0 yes, go on    passed; fresh or reusable; no wait needed, or one to add; a frontier, numbers, a plan; a full trace
  1 no            refused; held or not-ordered; no wait would help; a trace that is unfinished or departs
  2 not judged    too long; or wrong words, input or output that fails: a line on standard error says what
",
    );
    text.len()
}

// A word in quotes, its first bytes only, with a question mark for each byte that does not print.
#[derive(Clone, Copy, Drop)]
struct Quoted<'a>(&'a [u8]);

impl fmt::Display for Quoted<'_> {
    fn fmt<W: fmt::Write>(&self, f: &mut fmt::Formatter<W>) -> fmt::Result {
        f.write_char('\'')?;
        for b in self.0.iter().take(40) {
            f.write_char(shown(*b))?;
        }
        f.write_str(if self.0.len() > 40 { "..'" } else { "'" })
    }
}

// A byte that prints, or a question mark.
fn shown(b: u8) -> char {
    match b {
        b' '..=b'~' => char::from(b),
        _ => '?',
    }
}

// A line after the program's name. Where standard error takes none, there is nowhere to say so.
pub fn say(rt: &HostRuntime, line: &str) -> Said {
    let _ = eprintln!(rt; "cundvrest: {line}");
    Said
}

// A line with a word in quotes.
pub fn complain(rt: &HostRuntime, before: &str, word: &[u8], after: &str) -> Said {
    let _ = eprintln!(rt; "cundvrest: {before}{}{after}", Quoted(word));
    Said
}

// A line on what is wrong with the numbers of standard input.
pub fn bad_number(rt: &HostRuntime, fault: impl fmt::Display + Drop) -> Said {
    let right = "decimal digits, at most 18446744073709551615, white space between";
    let _ = eprintln!(rt; "cundvrest: standard input: {fault}; right: {right}");
    Said
}

// A line on what has failed, with the system's words for why.
pub fn fail(rt: &HostRuntime, failed: &str, error: io::Error) -> Said {
    let _ = match format!(in rt.alloc(); "{error}") {
        Ok(text) => eprintln!(rt; "cundvrest: {failed}: {}", without_number(text.as_str())),
        Err(_) => eprintln!(rt; "cundvrest: {failed}: {error}"),
    };
    Said
}

// The text of an error without the number that stands in brackets after the system's words.
fn without_number(text: &str) -> &str {
    match text.split_once(" (os error ") {
        Some((words, _)) => words,
        None => text,
    }
}
