// Bad input for the writer: each line has the number, the place and the answer that it hands back.
#![tactic(auto)]

ghost use Rattle.std.specs.Prelude.{◌≤◌};

use plan_format::Refusal;
use std::io;

// The plan T3: three queues, two semaphores, one buffer, three operations, 96 bytes stored.
const T3: [u64; 38] = [
    3, 1, 2, 3, 2, 0, 1, 1, 16, 3, 0, 0, 1, 0, 1, 1, 0, 0, 1, 1, 0, 1, 1, 1, 1, 2, 0, 0, 0, 1, 2,
    1, 1, 1, 0, 1, 0, 0,
];

// What the writer hands back, on a line.
fn show(rt: &impl Print, answer: Result<u64, Refusal>) -> io::Result<()> {
    match answer {
        Ok(length) => println!(rt; "0 0 {length}"),
        Err(e) => println!(rt; "{} {} 0", e.reason.number(), e.place),
    }
}

// A list of numbers written into room enough.
fn write(rt: &impl Print, numbers: &[u64]) -> io::Result<()> {
    let mut room = [0u8; 128];
    show(rt, stored_write::write_plan(numbers, &mut room))
}

// T3 with one number changed, for each place and number.
fn changed(rt: &impl Print, changes: &[(usize, u64)]) -> io::Result<()> {
    for &(at, number) in changes {
        let mut numbers = T3;
        if at < numbers.len() {
            numbers[at] = number;
        }
        write(rt, &numbers)?;
    }
    Ok(())
}

// T3 and zeros after it, so many numbers in all, a megabyte of them at most.
fn longer<const NUMBERS: usize>(rt: &impl Print) -> io::Result<()>
    requires { (38 ≤ NUMBERS) × (NUMBERS ≤ 131110) }
{
    let mut long = [0u64; NUMBERS];
    long[..38].copy_from_slice(&T3);
    write(rt, &long)
}

// T3 written into the first bytes of 98, each 7, for each size of room: what is handed back, then the bytes.
fn into_rooms(rt: &impl Print, sizes: &[usize]) -> io::Result<()> {
    for &size in sizes {
        let mut room = [7u8; 98];
        let many = size.min(98);
        show(rt, stored_write::write_plan(&T3, &mut room[..many]))?;
        for &byte in &room {
            print!(rt; " {byte}")?;
        }
        println!(rt)?;
    }
    Ok(())
}

fn cases(rt: &impl Print) -> io::Result<()> {
    println!(rt; "cut short")?;
    for n in 0..39usize {
        write(rt, &T3[..n])?;
    }
    println!(rt; "counts one over their limits")?;
    changed(
        rt,
        &[
            (0, 17),
            (4, 1025),
            (7, 257),
            (9, 1025),
            (11, 4),
            (12, 3),
            (15, 5),
        ],
    )?;
    println!(rt; "no such owner, queue, semaphore, buffer, kind")?;
    changed(rt, &[(6, 3), (10, 3), (13, 2), (32, 2), (36, 1), (37, 2)])?;
    println!(rt; "numbers that look good in their low bytes")?;
    changed(
        rt,
        &[(0, 259), (6, 257), (7, 65537), (10, 256), (36, 65536)],
    )?;
    println!(rt; "an axis twice")?;
    changed(rt, &[(2, 1), (3, 1), (3, 2)])?;
    println!(rt; "waits for 0, one after the other; a signal of 0")?;
    changed(rt, &[(21, 0), (33, 0), (14, 0)])?;
    println!(rt; "numbers after the last field")?;
    longer::<39>(rt)?;
    longer::<40>(rt)?;
    longer::<131110>(rt)?;
    println!(rt; "sizes of buffers")?;
    changed(rt, &[(8, 4294967295), (8, 4294967296), (8, u64::MAX)])?;
    println!(rt; "room")?;
    into_rooms(rt, &[0, 95, 96, 97])
}

// A write that fails is let go: where standard output takes none, there is nowhere to say so.
fn main(rt: HostRuntime) {
    let _ = cases(&rt);
}
