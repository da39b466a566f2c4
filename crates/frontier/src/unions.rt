// The union of two frontiers, by their lent slots.
ghost use Rattle.std.specs.Prelude.{◌≡◌, true, ◌∷◌, ◌+◌, ◌≤◌, ◌<◌};
ghost use Rattle.frontier_slots.specs.Entries.{most_entries, most_of_two, union};
ghost use Rattle.frontier_slots.specs.Slots.{slots};
ghost use Rattle.frontier.specs.Frontiers.{handed, joined, one_entry, merge, raise};
ghost use Rattle.frontier.specs.Sides.{shown, all_of, onward};
ghost use Rattle.frontier.specs.Walks.{leads, AllRoom, laid, LeftInRoom};

use crate::cuts::{bound_of, copy, trim};
use crate::lent::Filled;
use crate::side::{Formed, Slots};
use crate::{Frontier, Unfit};

// The next entry of a union, and where each side goes on.
#[derive(Clone, Copy, Debug, PartialEq, Eq, Hash)]
pub struct Step {
    pub axis: u64,
    pub epoch: u64,
    pub left: usize,
    pub right: usize,
}

impl<'a> Formed<'a> {
    // The next axis of the union of this side from slot i and the other from slot j is of this side: the other has
    // none, or none that is smaller.
    #[inline(always)]
    fn leads_at(self, i: usize, other: Formed<'_>, j: usize) -> bool
        ensures { result ≡ leads (onward self.entry i) (onward other.entry j) }
    {
        if self.len <= i {
            return false;
        }
        if other.len <= j {
            return true;
        }
        self.axes[i] <= other.axes[j]
    }

    // The entry in slot i of this side, which leads: with the larger epoch if the other lists its axis, with its own if
    // it is absent there.
    #[inline(always)]
    fn leading(self, i: usize, other: Formed<'_>, j: usize) -> Step
        requires inside { (i < self.len) × (j ≤ other.len) }
        requires first { leads (onward self i) (onward other j) ≡ true }
        ensures bounds { (result.left ≤ self.entry.len) × (result.right ≤ other.entry.len) ×
            (i + j < result.left + result.right) }
        ensures union_goes_on { union (onward self.entry i) (onward other.entry j) ≡
            record { axis = result.axis; epoch = result.epoch }
            ∷ union (onward self.entry result.left) (onward other.entry result.right) }
    {
        let axis = self.axes[i];
        let epoch = self.epochs[i];
        let Some(at) = other.slot_from(j, axis) else {
            return Step {
                axis,
                epoch,
                left: i + 1,
                right: j,
            };
        };
        Step {
            axis,
            epoch: epoch.max(other.epochs[at]),
            left: i + 1,
            right: j + 1,
        }
    }

    // The next entry of the union of this side from slot i and the other from slot j: the smaller axis, with the larger
    // epoch where both list it.
    #[inline(always)]
    fn next(self, i: usize, other: Formed<'_>, j: usize) -> Step
        requires { (i ≤ self.len) × (j ≤ other.len) × (i + j < self.len + other.len) }
        ensures bounds { (result.left ≤ self.entry.len) × (result.right ≤ other.entry.len) ×
            (i + j < result.left + result.right) }
        ensures union_goes_on { union (onward self.entry i) (onward other.entry j) ≡
            record { axis = result.axis; epoch = result.epoch }
            ∷ union (onward self.entry result.left) (onward other.entry result.right) }
    {
        if self.leads_at(i, other, j) {
            return self.leading(i, other, j);
        }
        let s = other.leading(j, self, i);
        Step {
            axis: s.axis,
            epoch: s.epoch,
            left: s.right,
            right: s.left,
        }
    }

    // The union of two sides in front of the room; how many entries it has. The loop goes by a slot of each side: no
    // one sequence is walked.
    fn unite(self, other: Formed<'_>, axes: &mut [u64], epochs: &mut [u64]) -> usize
        requires { AllRoom axes.old epochs.old }
        ensures { (result ≤ most_of_two) × AllRoom axes.new epochs.new ×
            (slots axes.new epochs.new result 0 ≡ union (all_of self.entry) (all_of other.entry)) }
    {
        let mut n: usize = 0;
        let mut i: usize = 0;
        let mut j: usize = 0;
        while i + j < self.len + other.len {
            let s = self.next(i, other, j);
            axes[n] = s.axis;
            epochs[n] = s.epoch;
            n += 1;
            i = s.left;
            j = s.right;
        }
        n
    }

    // The union of two sides, cut to a capacity, in front of the room: tainted if something is cut, or if `tainted`
    // says so.
    fn join(
        self,
        other: Formed<'_>,
        capacity: usize,
        tainted: bool,
        axes: &mut [u64],
        epochs: &mut [u64],
    ) -> Filled
        requires le_capacity { (1 ≤ capacity) × (capacity ≤ most_entries) }
        requires all_room { AllRoom axes.old epochs.old }
        ensures { LeftInRoom (handed (joined (all_of self.entry) (all_of other.entry) tainted capacity))
            (laid (Ok result)) axes.new epochs.new }
    {
        let n = self.unite(other, axes, epochs);
        if n <= capacity {
            return Filled { len: n, tainted };
        }
        let bound = bound_of(axes, epochs, n, capacity);
        let len = trim(axes, epochs, n, bound);
        Filled { len, tainted: true }
    }

    // The union with one entry, cut to a capacity, in front of the room. An entry of epoch 0 is none.
    pub fn join_one(
        self,
        axis: u64,
        epoch: u64,
        capacity: usize,
        axes: &mut [u64],
        epochs: &mut [u64],
    ) -> Filled
        requires le_capacity { (1 ≤ capacity) × (capacity ≤ most_entries) }
        requires all_room { AllRoom axes.old epochs.old }
        ensures { LeftInRoom (handed (joined (all_of self.entry) (one_entry axis epoch) self.entry.tainted capacity))
            (laid (Ok result)) axes.new epochs.new }
    {
        let mut ya = [0u64; Frontier::SLOTS];
        let mut ye = [0u64; Frontier::SLOTS];
        ya[0] = axis;
        ye[0] = epoch;
        let one = Formed {
            axes: &ya,
            epochs: &ye,
            len: (epoch != 0) as usize,
            tainted: false,
        };
        self.join(one, capacity, self.tainted, axes, epochs)
    }
}

impl<'a> Slots<'a> {
    // The merge of these slots and others in front of the room: the capacity is judged, then these, then the others;
    // else their union, cut to the capacity.
    pub fn merged(
        self,
        other: Slots<'_>,
        capacity: u32,
        axes: &mut [u64],
        epochs: &mut [u64],
    ) -> Result<Filled, Unfit>
        requires { AllRoom axes.old epochs.old }
        ensures { LeftInRoom (merge (shown self.entry) (shown other.entry) capacity) (laid result)
            axes.new epochs.new }
    {
        let x = self.judged(capacity)?;
        let y = other.formed()?;
        let tainted = x.tainted | y.tainted;
        Ok(x.join(y, capacity as usize, tainted, axes, epochs))
    }

    // The raise of an axis in front of the room. Where the axis is listed and the capacity holds every entry, that is
    // these slots with the larger epoch in one of them; else it is a union with one entry.
    pub fn raised(
        self,
        axis: u64,
        epoch: u64,
        capacity: u32,
        axes: &mut [u64],
        epochs: &mut [u64],
    ) -> Result<Filled, Unfit>
        requires { AllRoom axes.old epochs.old }
        ensures { LeftInRoom (raise (shown self.entry) axis epoch capacity) (laid result) axes.new epochs.new }
    {
        let x = self.judged(capacity)?;
        if x.len <= capacity as usize {
            if let Some(at) = axis_search::search(x.axes, x.len, axis).at {
                copy(x.axes, axes);
                copy(x.epochs, epochs);
                epochs[at] = x.epochs[at].max(epoch);
                return Ok(Filled {
                    len: x.len,
                    tainted: x.tainted,
                });
            }
        }
        Ok(x.join_one(axis, epoch, capacity as usize, axes, epochs))
    }
}
