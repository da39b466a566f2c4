// Frontiers where they are lent, each by its slots, length and taint: nothing is copied to be judged, and what comes of
// a merge is left in lent room.
ghost use Rattle.std.specs.Prelude.{◌≡◌, false};
ghost use Rattle.frontier.specs.Frontiers.{merge, raise, dominance, verdict};
ghost use Rattle.frontier.specs.Meaning.{Looked, MergeRight, RaiseRight, DominanceMeans};
ghost use Rattle.frontier.specs.Walks.{of_slots, laid, filled, Fills};

use crate::cuts::clear_both;
use crate::form::left;
use crate::side::Slots;
use crate::{Dominance, Frontier, Unfit};
use frontier_slots::lookup_by_halving;

// Room for the axes or the epochs of a union.
pub type Room = [u64; Frontier::BOTH];

// The length and taint of the frontier that a merge leaves in front of the room.
#[derive(Clone, Copy, Debug, PartialEq, Eq, Hash)]
pub struct Filled {
    pub len: usize,
    pub tainted: bool,
}

// R60: what lent slots say of an axis, its epoch where it is listed.
pub fn lookup<'a>(axes: &'a [u64], epochs: &'a [u64], len: usize, axis: u64) -> Option<u64>
    ensures { Looked (of_slots axes.now epochs.now len false) axis result }
{
    lookup_by_halving(axes, epochs, len, axis).epoch
}

// R61 to R63: the larger epoch of each axis of x and y, cut to the capacity.
pub fn merge<'a>(
    xa: &'a [u64],
    xe: &'a [u64],
    xn: usize,
    xt: bool,
    ya: &'a [u64],
    ye: &'a [u64],
    yn: usize,
    yt: bool,
    capacity: u32,
    axes: &mut Room,
    epochs: &mut Room,
) -> Result<Filled, Unfit>
    ensures answers { Fills (merge (of_slots xa.now xe.now xn xt)
        (of_slots ya.now ye.now yn yt) capacity) (laid result) axes.new epochs.new }
    ensures right { MergeRight (of_slots xa.now xe.now xn xt)
        (of_slots ya.now ye.now yn yt) capacity
        (filled (laid result) axes.new epochs.new) }
{
    let x = Slots {
        axes: xa,
        epochs: xe,
        len: xn,
        tainted: xt,
    };
    let y = Slots {
        axes: ya,
        epochs: ye,
        len: yn,
        tainted: yt,
    };
    let r = x.merged(y, capacity, axes, epochs);
    let len = left(r).len;
    clear_both(axes, epochs, len);
    r
}

// R64: one axis of x raised to an epoch.
pub fn raise<'a>(
    xa: &'a [u64],
    xe: &'a [u64],
    xn: usize,
    xt: bool,
    axis: u64,
    epoch: u64,
    capacity: u32,
    axes: &mut Room,
    epochs: &mut Room,
) -> Result<Filled, Unfit>
    ensures answers { Fills (raise (of_slots xa.now xe.now xn xt) axis epoch capacity) (laid result)
        axes.new epochs.new }
    ensures right { RaiseRight (of_slots xa.now xe.now xn xt) axis epoch capacity
        (filled (laid result) axes.new epochs.new) }
{
    let x = Slots {
        axes: xa,
        epochs: xe,
        len: xn,
        tainted: xt,
    };
    let r = x.raised(axis, epoch, capacity, axes, epochs);
    let len = left(r).len;
    clear_both(axes, epochs, len);
    r
}

// R68: whether x reaches every entry of y, as far as the taints let it be known.
pub fn dominates<'a>(
    xa: &'a [u64],
    xe: &'a [u64],
    xn: usize,
    xt: bool,
    ya: &'a [u64],
    ye: &'a [u64],
    yn: usize,
    yt: bool,
) -> Result<Dominance, Unfit>
    ensures answers { verdict result ≡ dominance (of_slots xa.now xe.now xn xt)
        (of_slots ya.now ye.now yn yt) }
    ensures means { DominanceMeans (of_slots xa.now xe.now xn xt)
        (of_slots ya.now ye.now yn yt) (verdict result) }
{
    let x = Slots {
        axes: xa,
        epochs: xe,
        len: xn,
        tainted: xt,
    };
    let y = Slots {
        axes: ya,
        epochs: ye,
        len: yn,
        tainted: yt,
    };
    x.dominates(y)
}
