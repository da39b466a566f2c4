// What is kept of too many entries: those that exceed a bound.
ghost use Rattle.std.specs.Prelude.{◌≡◌, true, cond, ◌+◌, ◌≤◌, ◌<◌, length, take};
ghost use Rattle.base_lists.specs.Lists.{filter};
ghost use Rattle.frontier_slots.specs.Entries.{most_entries, most_of_two, rising_from, exceeds, exceeding, cut};
ghost use Rattle.frontier_slots.specs.Slots.{slots};
ghost use Rattle.frontier.specs.Walks.{AllRoom, Cleared, Copied};

use crate::Frontier;
use crate::lent::Room;
use frontier_slots::{Entry, exceeds};

// The first sixteen slots. A loop copies them: with `copy_from_slice` a merge takes a seventh more instructions.
pub fn first_slots(row: &Room) -> [u64; Frontier::SLOTS]
    requires { length row.now ≡ most_of_two }
    ensures { result ≡ take most_entries row.now }
{
    let mut first = [0u64; Frontier::SLOTS];
    for i in 0..Frontier::SLOTS {
        first[i] = row[i];
    }
    first
}

// How many entries exceed one. No branch goes by an entry: each adds 0 or 1.
fn count_above<'a>(axes: &'a [u64], epochs: &'a [u64], len: usize, bound: Entry) -> usize
    requires { (len ≤ length axes.now) × (len ≤ length epochs.now) }
    ensures { result ≡ exceeding bound (slots axes.now epochs.now len 0) }
{
    let mut n: usize = 0;
    for i in 0..len {
        let axis = axes[i];
        let epoch = epochs[i];
        n += exceeds(Entry { axis, epoch }, bound) as usize;
    }
    n
}

// The smaller of two entries.
fn lesser(best: Entry, entry: Entry) -> Entry
    ensures { result ≡ cond (exceeds best entry) entry best }
{
    if exceeds(best, entry) {
        return entry;
    }
    best
}

// The least entry: all others exceed it.
fn least<'a>(axes: &'a [u64], epochs: &'a [u64], len: usize) -> Entry
    requires len_in_bounds { (len ≤ length axes.now) × (len ≤ length epochs.now) ×
        (rising_from 0 (slots axes.now epochs.now len 0) ≡ true) }
    requires len_nonzero { 0 < len }
    ensures { exceeding result (slots axes.now epochs.now len 0) + 1 ≡ len }
{
    let mut best = Entry {
        axis: axes[0],
        epoch: epochs[0],
    };
    for i in 1..len {
        let axis = axes[i];
        let epoch = epochs[i];
        best = lesser(best, Entry { axis, epoch });
    }
    best
}

// The bound that the entries kept at a capacity exceed: the greatest that is cut. If more than one is, it is counted
// how many exceed each entry between the greatest known to be cut and the least known to be kept.
// The rows are parameters of their own: of one behind a struct's field a proof does not know that each number fits 64
// bits, which the first `kept` goes by.
pub fn bound_of<'a>(axes: &'a [u64], epochs: &'a [u64], len: usize, capacity: usize) -> Entry
    requires len_in_bounds { (len ≤ length axes.now) × (len ≤ length epochs.now) ×
        (rising_from 0 (slots axes.now epochs.now len 0) ≡ true) }
    requires le_capacity { (1 ≤ capacity) × (capacity < len) }
    ensures { cut capacity (slots axes.now epochs.now len 0) ≡
        filter (λ x. exceeds x result) (slots axes.now epochs.now len 0) }
{
    if len - 1 == capacity {
        return least(axes, epochs, len);
    }
    let mut lost = Entry { axis: 0, epoch: 0 };
    let mut kept = Entry {
        axis: u64::MAX,
        epoch: u64::MAX,
    };
    for i in 0..len {
        let axis = axes[i];
        let epoch = epochs[i];
        let entry = Entry { axis, epoch };
        if !exceeds(entry, lost) {
            continue;
        }
        if !exceeds(kept, entry) {
            continue;
        }
        if count_above(axes, epochs, len, entry) < capacity {
            kept = entry;
            continue;
        }
        lost = entry;
    }
    lost
}

// The place after one more that is kept, or the same.
fn after(n: usize, kept: bool) -> usize
    requires { n < most_of_two }
    ensures { result ≡ cond kept (n + 1) n }
{
    if kept {
        return n + 1;
    }
    n
}

// The entries above the bound, moved to the front; how many they are. No branch goes by an entry: each is stored where
// the next that is kept belongs.
pub fn trim(axes: &mut [u64], epochs: &mut [u64], len: usize, bound: Entry) -> usize
    requires { (len ≤ most_of_two) × AllRoom axes.old epochs.old }
    ensures { AllRoom axes.new epochs.new ×
        (slots axes.new epochs.new result 0 ≡
        filter (λ x. exceeds x bound) (slots axes.old epochs.old len 0)) }
{
    let mut n: usize = 0;
    for i in 0..len {
        let axis = axes[i];
        let epoch = epochs[i];
        axes[n] = axis;
        epochs[n] = epoch;
        n = after(n, exceeds(Entry { axis, epoch }, bound));
    }
    n
}

// Zero from a place on.
fn clear(row: &mut [u64], from: usize)
    requires { length row.old ≡ most_of_two }
    ensures { Cleared from row.old row.new }
{
    for i in from..Frontier::BOTH {
        row[i] = 0;
    }
}

// Both rows of the room.
pub fn clear_both(axes: &mut Room, epochs: &mut Room, from: usize)
    ensures { Cleared from axes.old axes.new × Cleared from epochs.old epochs.new }
{
    clear(axes, from);
    clear(epochs, from);
}

// Sixteen slots in front of the room.
pub fn copy(from: &[u64], row: &mut [u64])
    requires { (length from.now ≡ most_entries) × (length row.old ≡ most_of_two) }
    ensures { Copied from.now row.new }
{
    row[..Frontier::SLOTS].copy_from_slice(from);
}
