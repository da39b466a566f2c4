// Bad input for the reader: each line has the number, the place and the answer that it hands back.
#![tactic(auto)]

ghost use Rattle.std.specs.Prelude.{◌≡◌, ◌≤◌, length};

use plan_format::Refusal;
use std::io;

// The plan T3: three queues, two semaphores, one buffer, three operations, 38 numbers.
const T3: [u8; 96] =
    *b"\x03\x01\x00\x00\x00\x00\x00\x00\x00\x02\x00\x00\x00\x00\x00\x00\x00\x03\x00\x00\x00\x00\x00\x00\x00\x02\x00\x01\x01\x00\x10\x00\x00\x00\x03\x00\x00\x00\x01\x00\x01\x00\x00\x00\x00\x00\x00\x00\x01\x00\x00\x00\x01\x01\x00\x01\x00\x00\x00\x00\x00\x00\x00\x01\x01\x01\x00\x00\x00\x00\x00\x00\x00\x02\x00\x00\x00\x00\x00\x01\x02\x01\x01\x01\x00\x00\x00\x00\x00\x00\x00\x00\x01\x00\x00\x00";

// What the reader hands back, on a line.
fn show(rt: &impl Print, answer: Result<u64, Refusal>) -> io::Result<()> {
    match answer {
        Ok(length) => println!(rt; "0 0 {length}"),
        Err(e) => println!(rt; "{} {} 0", e.reason.number(), e.place),
    }
}

// A plan read into room enough.
fn read(rt: &impl Print, plan: &[u8]) -> io::Result<()> {
    let mut room = [0u64; 64];
    show(rt, stored_read::read_plan(plan, &mut room))
}

// T3 with one byte changed.
fn with_byte(at: usize, byte: u8) -> [u8; 96] {
    let mut plan = T3;
    if at < plan.len() {
        plan[at] = byte;
    }
    plan
}

// T3 with one byte changed, for each place and byte.
fn changed(rt: &impl Print, changes: &[(usize, u8)]) -> io::Result<()> {
    for &(at, byte) in changes {
        read(rt, &with_byte(at, byte))?;
    }
    Ok(())
}

// T3 with one byte changed, cut after `n` bytes.
fn changed_cut(rt: &impl Print, at: usize, byte: u8, n: usize) -> io::Result<()>
    requires { n ≤ 96 }
{
    read(rt, &with_byte(at, byte)[..n])
}

// T3 with the two bytes of a number changed.
fn changed_pair(rt: &impl Print, at: usize, bytes: [u8; 2]) -> io::Result<()> {
    let mut plan = T3;
    if at < 95 {
        plan[at..at + 2].copy_from_slice(&bytes);
    }
    read(rt, &plan)
}

// 96 zeros and a megabyte of them, behind a contract: callers are proved without a list of so many.
fn zeros() -> [u8; 1048672]
    ensures { length result ≡ 1048672 }
{
    [0; 1048672]
}

// T3 into the front of a plan that has room for it.
fn begin(plan: &mut [u8])
    ensures { length plan.new ≡ length plan.old }
{
    if plan.len() >= 96 {
        plan[..96].copy_from_slice(&T3);
    }
}

// T3 with zeros after it, a megabyte of them at most.
fn longer(rt: &impl Print, more: usize) -> io::Result<()>
    requires { more ≤ 1048576 }
{
    let mut long = zeros();
    begin(&mut long);
    read(rt, &long[..96 + more])
}

// T3 read into the first of 40 numbers, each 7, for each size of room: what is handed back, then the numbers.
fn into_rooms(rt: &impl Print, sizes: &[usize]) -> io::Result<()> {
    for &size in sizes {
        let mut room = [7u64; 40];
        let many = size.min(40);
        show(rt, stored_read::read_plan(&T3, &mut room[..many]))?;
        for &number in &room {
            print!(rt; " {number}")?;
        }
        println!(rt)?;
    }
    Ok(())
}

// T3 cut short.
fn cuts(rt: &impl Print) -> io::Result<()> {
    println!(rt; "cut short")?;
    for n in 0..97usize {
        read(rt, &T3[..n])?;
    }
    println!(rt; "cut inside a field whose part would be 5, 4")?;
    changed_cut(rt, 9, 1, 10)?;
    changed_cut(rt, 93, 1, 94)
}

fn counts(rt: &impl Print) -> io::Result<()> {
    println!(rt; "counts one over their limits")?;
    changed(rt, &[(0, 17), (25, 65)])?;
    changed_pair(rt, 28, [1, 1])?;
    changed_pair(rt, 34, [1, 4])?;
    changed(rt, &[(37, 4), (38, 3), (48, 5)])
}

fn positions(rt: &impl Print) -> io::Result<()> {
    println!(rt; "no such owner, queue, semaphore, buffer, kind")?;
    changed(rt, &[(27, 3), (36, 3), (39, 2), (82, 2)])?;
    changed_pair(rt, 93, [1, 0])?;
    changed_pair(rt, 93, [0, 1])?;
    changed(rt, &[(95, 2)])
}

fn values(rt: &impl Print) -> io::Result<()> {
    println!(rt; "an axis twice")?;
    changed(rt, &[(9, 1), (17, 1), (17, 2)])?;
    println!(rt;
        "waits for 0, one after the other; one cut short; one of no semaphore; after four waits; a signal of 0"
    )?;
    changed(rt, &[(55, 0), (83, 0)])?;
    changed_cut(rt, 55, 0, 62)?;
    changed_pair(rt, 54, [2, 0])?;
    changed(rt, &[(53, 4), (40, 0)])
}

fn ends(rt: &impl Print) -> io::Result<()> {
    println!(rt; "bytes after the last section")?;
    longer(rt, 1)?;
    longer(rt, 1048576)?;
    println!(rt; "room")?;
    into_rooms(rt, &[37, 38, 39, 0])
}

fn cases(rt: &impl Print) -> io::Result<()> {
    cuts(rt)?;
    counts(rt)?;
    positions(rt)?;
    values(rt)?;
    ends(rt)
}

// A write that fails is let go: where standard output takes none, there is nowhere to say so.
fn main(rt: HostRuntime) {
    let _ = cases(&rt);
}
