// R59, R60 and R62, the slots of a frontier where they are lent: their form, the lookup of an axis, and which of two
// entries is kept.
#![tactic(auto)]

ghost use Rattle.std.specs.Prelude.{◌≡◌, ◌≤◌, ◌<◌};
ghost use Rattle.frontier_slots.specs.Entries.{most_entries, rising_from, exceeds};
ghost use Rattle.frontier_slots.specs.Slots.{slots, AllSlots, placed, all_zero, slots_formed, found_by_halving};

use axis_search::SLOTS;

// An axis and its epoch. Of two entries the one with the larger epoch is above the other, at equal epochs the one with
// the larger axis.
#[derive(Clone, Copy, Debug, PartialEq, Eq, PartialOrd, Ord, Hash)]
pub struct Entry {
    pub epoch: u64,
    pub axis: u64,
}

// What a lookup says of an axis: the slot that the search for it found, if any, and the epoch that is listed there.
#[derive(Clone, Copy, Debug, PartialEq, Eq, Hash)]
pub struct Found {
    pub at: Option<usize>,
    pub epoch: Option<u64>,
}

// Slot i has an epoch above 0, and its axis is above that of the slot before.
#[tactic(auto, using(crate::proofs::Steps::placed_by))]
fn in_place<'a>(axes: &'a [u64], epochs: &'a [u64], i: usize) -> bool
    requires { (i < most_entries) × AllSlots axes.now epochs.now }
    ensures { result ≡ placed axes.now epochs.now i }
{
    epochs[i] != 0 && (i == 0 || axes[i - 1] < axes[i])
}

// The axes rise and the epochs are above 0.
#[tactic(auto, using(crate::proofs::Steps::rising_steps))]
fn rising<'a>(axes: &'a [u64], epochs: &'a [u64], len: usize) -> bool
    requires { (len ≤ most_entries) × AllSlots axes.now epochs.now }
    ensures { result ≡ rising_from 0 (slots axes.now epochs.now len 0) }
{
    for i in 0..len {
        if !in_place(axes, epochs, i) {
            return false;
        }
    }
    true
}

// Every number is zero.
fn are_zero(row: &[u64]) -> bool
    ensures { result ≡ all_zero row.now }
{
    row.iter().all(|&x| x == 0)
}

// R59, form: the slots are those of a frontier that is not refused by 14. They are sixteen, for one thing.
#[tactic(auto, unfolding(crate::specs::Slots::slots_formed, crate::specs::Slots::row_formed))]
pub fn formed<'a>(axes: &'a [u64], epochs: &'a [u64], len: usize) -> bool
    ensures { result ≡ slots_formed axes.now epochs.now len }
{
    len <= SLOTS
        && axes.len() == SLOTS
        && epochs.len() == SLOTS
        && rising(axes, epochs, len)
        && are_zero(&axes[len..])
        && are_zero(&epochs[len..])
}

// R60: the lookup of an axis by halving: listed with its epoch, or absent.
#[tactic(auto, unfolding(crate::specs::Slots::found_by_halving, crate::specs::Slots::lookup_at))]
pub fn lookup_by_halving<'a>(axes: &'a [u64], epochs: &'a [u64], len: usize, axis: u64) -> Found
    ensures { result ≡ found_by_halving axes.now epochs.now len axis }
{
    let at = axis_search::search(axes, len, axis).at;
    let Some(slot) = at else {
        return Found { at, epoch: None };
    };
    Found {
        at,
        epoch: epochs.get(slot).copied(),
    }
}

// R62: an entry exceeds a bound: by its epoch, at equal epochs by its axis.
#[tactic(auto, unfolding(crate::specs::Entries::exceeds))]
pub fn exceeds(entry: Entry, bound: Entry) -> bool
    ensures { result ≡ exceeds entry bound }
{
    bound < entry
}
