// The arguments: what is asked, or a line on standard error that says what is wrong and what would be right.
ghost use Rattle.std.specs.Prelude.{◌≤◌};

use crate::usage;
use crate::usage::Said;
use base_decimal::NoNumber;
use print_input::Question;
use std::env::FillError;
use std::rt::Env;

#[derive(Clone, Copy, Debug, PartialEq, Eq, Hash)]
pub enum Asked {
    Plan(Question),
    Trace,
    Write,
    Help,
}

pub fn read_words(rt: &HostRuntime) -> Result<Asked, Said> {
    let mut word = [0; 4096];
    match rt.arg(1, &mut word) {
        Ok(n) => command(rt, &word[..n]),
        Err(FillError::NotPresent) => Ok(Asked::Plan(Question::Check)),
        Err(FillError::TooLong) => Err(usage::say(
            rt,
            "the command is too long; right: see cundvrest help",
        )),
    }
}

fn command(rt: &HostRuntime, word: &[u8]) -> Result<Asked, Said> {
    match word {
        b"reuse" => {
            let (queue, buffer) = two(rt, b"reuse QUEUE BUFFER", "QUEUE ", "BUFFER ")?;
            Ok(Asked::Plan(Question::Reuse(queue, buffer)))
        }
        b"suggest" => {
            let (queue, buffer) = two(rt, b"suggest QUEUE BUFFER", "QUEUE ", "BUFFER ")?;
            Ok(Asked::Plan(Question::Suggest(queue, buffer)))
        }
        b"frontier" => {
            let (operation, capacity) = two(
                rt,
                b"frontier OPERATION CAPACITY",
                "OPERATION ",
                "CAPACITY ",
            )?;
            Ok(Asked::Plan(Question::Frontier(operation, capacity)))
        }
        b"trace" => {
            // the file's name is read where the file is opened
            words(rt, 2, b"trace FILE", ", the file of a recorded trace")?;
            Ok(Asked::Trace)
        }
        b"read" => alone(rt, Asked::Plan(Question::Read), word),
        b"write" => alone(rt, Asked::Write, word),
        b"help" => alone(rt, Asked::Help, word),
        _ => Err(no_command(rt, word)),
    }
}

fn no_command(rt: &HostRuntime, word: &[u8]) -> Said {
    usage::complain(
        rt,
        "no command ",
        word,
        "; right: none, reuse or suggest QUEUE BUFFER, frontier OPERATION CAPACITY, trace FILE, read, write or help",
    )
}

// Whether there is an argument at i.
fn is_given(rt: &HostRuntime, i: usize) -> bool {
    !matches!(rt.arg(i, &mut [0; 1]), Err(FillError::NotPresent))
}

// That there are n words, neither fewer nor more; what is right is quoted, and explained after that.
fn words(rt: &HostRuntime, n: usize, right: &[u8], after: &str) -> Result<(), Said>
    requires { n ≤ 3 }
{
    if !is_given(rt, n) {
        return Err(usage::complain(rt, "too few words; right: ", right, after));
    }
    if is_given(rt, n + 1) {
        return Err(usage::complain(rt, "too many words; right: ", right, after));
    }
    Ok(())
}

// A command that takes no further word.
fn alone(rt: &HostRuntime, asked: Asked, word: &[u8]) -> Result<Asked, Said> {
    words(rt, 1, word, " alone")?;
    Ok(asked)
}

// The two numbers of a command, each under its name.
fn two(rt: &HostRuntime, right: &[u8], first: &str, second: &str) -> Result<(u32, u32), Said> {
    words(rt, 3, right, ", two decimal numbers")?;
    let a = number(rt, 2, first)?;
    let b = number(rt, 3, second)?;
    Ok((a, b))
}

// The argument at i as a number of 32 bits.
fn number(rt: &HostRuntime, i: usize, name: &str) -> Result<u32, Said> {
    let mut word = [0; 4096];
    let Ok(n) = rt.arg(i, &mut word) else {
        return Err(usage::say(
            rt,
            "a number is too long; right: decimal digits, at most 4294967295",
        ));
    };
    read_number(rt, &word[..n], name)
}

fn read_number(rt: &HostRuntime, word: &[u8], name: &str) -> Result<u32, Said> {
    match base_decimal::of_word(word, 4294967295) {
        Ok(v) => Ok(v as u32),
        Err(NoNumber::TooLarge) => Err(usage::complain(
            rt,
            name,
            word,
            " is too large; right: decimal digits, at most 4294967295",
        )),
        Err(NoNumber::NotDecimal) => Err(usage::complain(
            rt,
            name,
            word,
            " is no number; right: decimal digits, at most 4294967295",
        )),
    }
}
