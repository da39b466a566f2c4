// Frontiers through their form, the lookup of an axis and the changes in place, and two lent rows: what is answered,
// and what is stored then.
#![tactic(auto)]

ghost use Rattle.frontier.specs.Frontiers.{merge, raise};
ghost use Rattle.frontier_in_place.specs.InPlace.{Changed};

use frontier::{Frontier, Merged};
use std::io;

// The slots with an epoch, each as axis:epoch.
fn entries(rt: &impl Print, frontier: &Frontier) -> io::Result<()> {
    for (axis, epoch) in frontier.axes.iter().zip(&frontier.epochs) {
        if *epoch != 0 {
            print!(rt; " {axis}:{epoch}")?;
        }
    }
    println!(rt)
}

// The number of a change in place, and the frontier that is stored then: its length and its entries.
fn show(rt: &impl Print, m: Merged) -> io::Result<()> {
    let f = m.frontier;
    let form = if f.tainted { " tainted" } else { "" };
    print!(rt; " {}{form} {}", m.number, f.len)?;
    entries(rt, &f)
}

// One axis of a stored frontier raised in place.
fn raised(mut f: Frontier, axis: u64, epoch: u64, capacity: u32) -> Merged
    ensures { Changed f (raise f axis epoch capacity) result.number result.frontier }
{
    let number = frontier_in_place::raise_in_place(&mut f, axis, epoch, capacity);
    Merged {
        frontier: f,
        number,
    }
}

// Another frontier merged into a stored one in place.
fn merged(mut f: Frontier, other: Frontier, capacity: u32) -> Merged
    ensures { Changed f (merge f other capacity) result.number result.frontier }
{
    let number = frontier_in_place::merge_in_place(&mut f, other, capacity);
    Merged {
        frontier: f,
        number,
    }
}

// A frontier of two slots; its length need not be two.
fn two(axis: u64, epoch: u64, later: u64, last: u64, len: usize) -> Frontier {
    let mut f = Frontier::empty();
    f.axes[0] = axis;
    f.epochs[0] = epoch;
    f.axes[1] = later;
    f.epochs[1] = last;
    f.len = len;
    f
}

fn say(rt: &impl Print, answer: Option<u64>) -> io::Result<()> {
    match answer {
        Some(epoch) => print!(rt; " {epoch}"),
        None => print!(rt; " absent"),
    }
}

// Whether a frontier is well formed, and what it then says of axes 0 to 4.
fn ask(rt: &impl Print, f: Frontier) -> io::Result<()> {
    if f.well_formed() {
        for axis in 0..5 {
            say(rt, f.lookup(axis))?;
        }
    } else {
        print!(rt; " badly formed")?;
    }
    println!(rt)
}

fn forms(rt: &impl Print) -> io::Result<()> {
    println!(rt; "form and lookup")?;
    ask(rt, Frontier::empty())?;
    ask(rt, two(1, 5, 3, 2, 2))?;
    ask(rt, two(0, 5, 0, 0, 1))?;
    ask(rt, two(3, 2, 1, 5, 2))?;
    ask(rt, two(3, 2, 3, 5, 2))?;
    ask(rt, two(1, 0, 3, 2, 2))?;
    ask(rt, two(1, 5, 3, 2, 1))?;
    ask(rt, two(1, 5, 3, 2, 3))?;
    ask(rt, two(1, 5, 3, 2, 17))?;
    say(rt, two(1, 5, 3, 2, 17).lookup(1))?;
    println!(rt)
}

// The slot of an axis among the first `len` of axes 1 to 17, and how many slots were read.
fn search(rt: &impl Print, len: usize, axis: u64) -> io::Result<()> {
    let axes = [1u64, 2, 3, 4, 5, 6, 7, 8, 9, 10, 11, 12, 13, 14, 15, 16, 17];
    let found = axis_search::search(&axes, len, axis);
    if let Some(at) = found.at {
        println!(rt; " {at} {}", found.read)
    } else {
        println!(rt; " none {}", found.read)
    }
}

// No slot, the first that is read, both ends, an axis below all, one above all, and more slots than are searched.
fn searches(rt: &impl Print) -> io::Result<()> {
    println!(rt; "search by halving")?;
    for &(len, axis) in &[
        (0usize, 1u64),
        (16, 9),
        (16, 1),
        (16, 16),
        (16, 0),
        (16, 17),
        (17, 9),
    ] {
        search(rt, len, axis)?;
    }
    Ok(())
}

// Raises of a listed axis, of one that is not, and refusals; a cut loses the entry with the smaller epoch.
fn raises(rt: &impl Print) -> io::Result<()> {
    println!(rt; "raise in place")?;
    let f = two(1, 5, 3, 2, 2);
    show(rt, raised(f, 3, 7, 16))?;
    show(rt, raised(f, 1, 4, 16))?;
    show(rt, raised(f, 1, 0, 2))?;
    show(rt, raised(f, 2, 9, 16))?;
    show(rt, raised(f, 2, 0, 16))?;
    show(rt, raised(f, 2, 9, 2))?;
    show(rt, raised(f, 3, 7, 1))?;
    show(rt, raised(f, 1, 0, 1))?;
    show(rt, raised(f, 3, 7, 0))?;
    show(rt, raised(f, 3, 7, 17))?;
    show(rt, raised(two(3, 2, 1, 5, 2), 3, 7, 16))
}

// T12, the same without a cut, and refusals.
fn merges(rt: &impl Print) -> io::Result<()> {
    println!(rt; "merge in place")?;
    let f = two(1, 5, 2, 3, 2);
    let g = two(2, 7, 3, 4, 2);
    show(rt, merged(f, g, 2))?;
    show(rt, merged(f, g, 16))?;
    show(rt, merged(f, g, 0))?;
    show(rt, merged(f, two(2, 7, 2, 4, 2), 16))?;
    show(rt, merged(two(1, 5, 2, 0, 2), g, 16))
}

fn row(rt: &impl Print, row: &[u32]) -> io::Result<()> {
    for number in row {
        print!(rt; " {number}")?;
    }
    println!(rt)
}

// The row that reaches the other.
fn rows(rt: &impl Print) -> io::Result<()> {
    println!(rt; "rows")?;
    let high = [3u32, 2, 4];
    let low = [1u32, 2, 4];
    let other = [1u32, 3, 4];
    row(rt, frontier_rows::reaching(&high, &low))?;
    row(rt, frontier_rows::reaching(&low, &high))?;
    row(rt, frontier_rows::reaching(&high, &high))?;
    row(rt, frontier_rows::reaching(&high, &other))?;
    row(rt, frontier_rows::reaching(&high[..2], &low))?;
    row(rt, frontier_rows::reaching(&low, &high[..2]))
}

fn cases(rt: &impl Print) -> io::Result<()> {
    forms(rt)?;
    searches(rt)?;
    raises(rt)?;
    merges(rt)?;
    rows(rt)
}

// A write that fails is let go: where standard output takes none, there is nowhere to say so.
fn main(rt: HostRuntime) {
    let _ = cases(&rt);
}
