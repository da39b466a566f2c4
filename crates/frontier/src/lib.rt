// R59 to R68, sparse frontiers: vector clocks of at most sixteen entries, with lookup, merge, raise and dominance.
#![tactic(auto)]

mod cuts;
mod form;
pub mod lent;
mod search;
mod side;
mod unions;

ghost use Rattle.std.specs.Prelude.{◌≡◌, false, []};
ghost use Rattle.frontier.specs.Frontiers.{well_formed, pack, merge, raise, dominance};
ghost use Rattle.frontier.specs.Frontiers.{number_of_unfit, verdict};
ghost use Rattle.frontier.specs.Meaning.{Looked, MergeRight, RaiseRight, DominanceMeans};
ghost use Rattle.frontier.specs.Walks.{left_number};

use cuts::{clear_both, first_slots};
use form::{left, number};
use frontier_slots::formed;
use side::{Formed, Slots};

// Slot i holds the entry (axes[i], epochs[i]) for i below len; the slots past len are zero. A tainted frontier may have
// lost entries.
#[derive(Clone, Copy, Debug, PartialEq, Eq, Hash)]
pub struct Frontier {
    pub axes: [u64; Frontier::SLOTS],
    pub epochs: [u64; Frontier::SLOTS],
    pub len: usize,
    pub tainted: bool,
}

// A merge's number and frontier: empty and untainted where the number is a refusal's. The frontier comes first, so
// that it is copied in whole words.
#[derive(Clone, Copy, Debug, PartialEq, Eq, Hash)]
pub struct Merged {
    pub frontier: Frontier,
    pub number: u32,
}

// Why frontiers are refused. Its value is the number of the refusal.
#[derive(Clone, Copy, Debug, PartialEq, Eq, Hash)]
pub enum Unfit {
    Form = 14,
    Capacity = 15,
}

impl Unfit {
    // The number of the refusal.
    pub fn number(self) -> u32
        ensures { result ≡ number_of_unfit self }
    {
        self as u32
    }
}

// Whether one frontier dominates another.
#[derive(Clone, Copy, Debug, PartialEq, Eq, Hash)]
pub enum Dominance {
    Yes,
    No,
    Unknown,
}

impl Frontier {
    // The slots of a frontier.
    pub const SLOTS: usize = axis_search::SLOTS;

    // The smallest and the largest capacity.
    pub const LEAST: u32 = 1;

    pub const MOST: u32 = Self::SLOTS as u32;

    // The most entries of a union: all of two frontiers.
    pub const BOTH: usize = 2 * Self::SLOTS;

    // The empty untainted frontier.
    #[tactic(auto, unfolding(crate::specs::Frontiers::pack))]
    pub fn empty() -> Self
        ensures { result ≡ pack [] false }
    {
        Self {
            axes: [0; Self::SLOTS],
            epochs: [0; Self::SLOTS],
            len: 0,
            tainted: false,
        }
    }

    // R59, form: whether the frontier is not refused by 14.
    pub fn well_formed(self) -> bool
        ensures { result ≡ well_formed self }
    {
        formed(&self.axes, &self.epochs, self.len)
    }

    // R60: what the frontier says of an axis, its epoch where it is listed.
    pub fn lookup(self, axis: u64) -> Option<u64>
        ensures { Looked self axis result }
    {
        lent::lookup(&self.axes, &self.epochs, self.len, axis)
    }

    // R61 to R63: the larger epoch of each axis, cut to the capacity.
    pub fn merge(self, other: Self, capacity: u32) -> Merged
        ensures answers { result ≡ merge self other capacity }
        ensures right { MergeRight self other capacity result }
    {
        let mut axes = [0u64; Self::BOTH];
        let mut epochs = [0u64; Self::BOTH];
        let r = lent::merge(
            &self.axes,
            &self.epochs,
            self.len,
            self.tainted,
            &other.axes,
            &other.epochs,
            other.len,
            other.tainted,
            capacity,
            &mut axes,
            &mut epochs,
        );
        let left = left(r);
        let frontier = Self {
            axes: first_slots(&axes),
            epochs: first_slots(&epochs),
            len: left.len,
            tainted: left.tainted,
        };
        Merged {
            number: number(r),
            frontier,
        }
    }

    // R64: one axis raised to an epoch. Where it is listed and the capacity holds every entry, that is the larger epoch
    // stored in this copy; else it is a union with one entry.
    pub fn raise(mut self, axis: u64, epoch: u64, capacity: u32) -> Merged
        ensures answers { result ≡ raise self axis epoch capacity }
        ensures right { RaiseRight self axis epoch capacity result }
    {
        let len = self.len;
        let slots = Slots {
            axes: &self.axes,
            epochs: &self.epochs,
            len,
            tainted: self.tainted,
        };
        if let Err(unfit) = slots.judged(capacity) {
            return Merged {
                number: unfit.number(),
                frontier: Self::empty(),
            };
        }
        if len <= capacity as usize {
            if let Some(at) = axis_search::search(&self.axes, len, axis).at {
                self.epochs[at] = self.epochs[at].max(epoch);
                return Merged {
                    number: 0,
                    frontier: self,
                };
            }
        }
        with_one(self, axis, epoch, capacity)
    }

    // R68: whether every entry of the other is reached, as far as the taints let it be known.
    pub fn dominates(self, other: Self) -> Result<Dominance, Unfit>
        ensures answers { verdict result ≡ dominance self other }
        ensures means { DominanceMeans self other (verdict result) }
    {
        lent::dominates(
            &self.axes,
            &self.epochs,
            self.len,
            self.tainted,
            &other.axes,
            &other.epochs,
            other.len,
            other.tainted,
        )
    }
}

// The union of a frontier with one entry, cut to a capacity.
fn with_one(f: Frontier, axis: u64, epoch: u64, capacity: u32) -> Merged
    requires { left_number f capacity ≡ 0 }
    ensures { result ≡ raise f axis epoch capacity }
{
    let mut axes = [0u64; Frontier::BOTH];
    let mut epochs = [0u64; Frontier::BOTH];
    let x = Formed {
        axes: &f.axes,
        epochs: &f.epochs,
        len: f.len,
        tainted: f.tainted,
    };
    let r = x.join_one(axis, epoch, capacity as usize, &mut axes, &mut epochs);
    clear_both(&mut axes, &mut epochs, r.len);
    let frontier = Frontier {
        axes: first_slots(&axes),
        epochs: first_slots(&epochs),
        len: r.len,
        tainted: r.tainted,
    };
    Merged {
        number: 0,
        frontier,
    }
}
