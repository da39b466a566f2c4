// Standard input, or the file of a trace, read to its end. A read that fails is no end: it is said on standard error,
// and nothing is judged.
ghost use Rattle.std.specs.Prelude.{◌≤◌, IfOk, length};

use crate::usage;
use crate::usage::Said;
use std::fs::File;
use std::io::{ErrorKind, Read};
use std::rt::Env;
use std::{io, str};

// One read, after the bytes that are kept; where the room is full, of bytes that are let go.
fn some(from: &mut impl Read, room: &mut [u8], kept: usize) -> io::Result<usize> {
    if kept < room.len() {
        return from.read(&mut room[kept..]);
    }
    from.read(&mut [0; 4096])
}

// The first bytes of the input, as many as there is room for, once all of it has been read: how many they are. Only an
// interruption is no failure, and `failed` says what is one. The turns are counted so that the loop is seen to end: no
// input uses them up.
fn all(rt: &HostRuntime, from: &mut impl Read, failed: &str, room: &mut [u8]) -> Result<usize, Said>
    ensures { IfOk result (λ kept. kept ≤ length room.new) }
{
    let mut kept = 0;
    for _ in 0..u64::MAX {
        match some(from, room, kept) {
            Ok(0) => break,
            Ok(n) => kept = room.len().min(kept.saturating_add(n)),
            Err(error) if error.kind() == ErrorKind::Interrupted => {}
            Err(error) => return Err(usage::fail(rt, failed, error)),
        }
    }
    Ok(kept)
}

// The first bytes of a plan.
pub fn plan(rt: &HostRuntime, room: &mut [u8]) -> Result<usize, Said>
    ensures { IfOk result (λ kept. kept ≤ length room.new) }
{
    all(rt, &mut rt.stdin(), "standard input cannot be read", room)
}

// The first bytes of a recorded trace, in the file that the second argument names.
pub fn trace(rt: &HostRuntime, room: &mut [u8]) -> Result<usize, Said>
    ensures { IfOk result (λ kept. kept ≤ length room.new) }
{
    let mut file = open_trace(rt)?;
    all(rt, &mut file, "the trace cannot be read", room)
}

fn open_trace(rt: &HostRuntime) -> Result<File, Said> {
    let mut path = [0; 4096];
    let Ok(n) = rt.arg(2, &mut path) else {
        return Err(usage::say(rt, "the name of the trace is too long"));
    };
    let Ok(name) = str::from_utf8(&path[..n]) else {
        return Err(usage::say(
            rt,
            "the trace cannot be opened: its name is no text in UTF-8",
        ));
    };
    match File::open(rt, name) {
        Ok(file) => Ok(file),
        Err(error) => Err(usage::fail(rt, "the trace cannot be opened", error)),
    }
}
