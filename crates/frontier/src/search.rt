// The lookup of an axis among lent slots, and what of one frontier another reaches.
ghost use Rattle.std.specs.Prelude.{◌≡◌, ◌&&◌, cond, ◌≤◌, ◌<◌, ltb, eqb, get_or};
ghost use Rattle.frontier.specs.Frontiers.{reached, answer, dominance, verdict};
ghost use Rattle.frontier.specs.Sides.{shown, all_of, onward};
ghost use Rattle.frontier.specs.Walks.{skip_below, SlotFrom};

use crate::side::{Formed, Slots};
use crate::{Dominance, Unfit};

// All reached is yes, unless the other lost entries; not all reached is no, unless this one did.
#[tactic(auto, unfolding(crate::specs::Frontiers::answer))]
fn answer_of(reached: bool, tainted: bool, other: bool) -> Dominance
    ensures { verdict (Ok result) ≡ answer reached tainted other }
{
    match (reached, tainted, other) {
        (true, _, false) => Dominance::Yes,
        (false, false, _) => Dominance::No,
        _ => Dominance::Unknown,
    }
}

impl<'a> Formed<'a> {
    // The first slot from `from` on whose axis is not below the one sought, or the length.
    #[inline(always)]
    fn seek(self, from: usize, axis: u64) -> usize
        requires { from ≤ self.len }
        ensures { (result ≤ self.entry.len) × (result < self.entry.len → axis ≤ get_or self.entry.axes.now result 0) ×
            (onward self.entry result ≡ skip_below axis (onward self.entry from)) }
    {
        for i in from..self.len {
            if axis <= self.axes[i] {
                return i;
            }
        }
        self.len
    }

    // A slot, if it is of the axis.
    #[inline(always)]
    fn slot_at(self, at: usize, axis: u64) -> Option<usize>
        ensures { result ≡
            cond (ltb at self.entry.len && eqb (get_or self.entry.axes.now at 0) axis) (Some at) None }
    {
        if at < self.len && self.axes[at] == axis {
            return Some(at);
        }
        None
    }

    // The slot of an axis among those from `from` on, or none. Slot `from` is looked at before the search, since a walk
    // over two frontiers mostly finds the axis there.
    #[inline(always)]
    pub fn slot_from(self, from: usize, axis: u64) -> Option<usize>
        requires { from ≤ self.len }
        ensures { SlotFrom self.entry.axes.now self.entry.epochs.now self.entry.len from axis result }
    {
        if from < self.len && self.axes[from] < axis {
            return self.slot_at(self.seek(from + 1, axis), axis);
        }
        self.slot_at(from, axis)
    }

    // Every entry of the other side is reached. An axis that is absent here is not.
    fn reaches(self, other: Formed<'_>) -> bool
        ensures { result ≡ reached (all_of self.entry) (all_of other.entry) }
    {
        let mut i: usize = 0;
        for j in 0..other.len {
            let Some(at) = self.slot_from(i, other.axes[j]) else {
                return false;
            };
            if self.epochs[at] < other.epochs[j] {
                return false;
            }
            i = at + 1;
        }
        true
    }
}

impl<'a> Slots<'a> {
    // Whether these slots dominate others: refused if these are not well-formed, then if the others are not; else by
    // what is reached and the taints.
    pub fn dominates(self, other: Slots<'_>) -> Result<Dominance, Unfit>
        ensures { verdict result ≡ dominance (shown self.entry) (shown other.entry) }
    {
        let x = self.formed()?;
        let y = other.formed()?;
        Ok(answer_of(x.reaches(y), x.tainted, y.tainted))
    }
}
