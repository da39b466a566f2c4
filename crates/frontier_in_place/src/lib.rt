// R65, frontiers changed in place: the raise and the merge of a stored frontier that is lent. The work is done by
// value, and what comes of it is stored.
#![tactic(auto)]

ghost use Rattle.std.specs.Prelude.{◌≡◌};
ghost use Rattle.frontier.specs.Frontiers.{merge, raise};
ghost use Rattle.frontier_in_place.specs.InPlace.{Changed};

use frontier::{Frontier, Merged};

// What a raise or a merge handed back is stored, unless it is a refusal; the number.
#[tactic(auto, unfolding(crate::specs::InPlace::stored_after))]
fn store(f: &mut Frontier, new: Merged) -> u32
    ensures { Changed f.old new result f.new }
{
    if new.number == 0 {
        *f = new.frontier;
    }
    new.number
}

// One axis of a stored frontier raised to an epoch. A refusal leaves the frontier as it is.
pub fn raise_in_place(f: &mut Frontier, axis: u64, epoch: u64, capacity: u32) -> u32
    ensures { Changed f.old (raise f.old axis epoch capacity) result f.new }
{
    let new = f.raise(axis, epoch, capacity);
    store(f, new)
}

// Another frontier merged into a stored one. A refusal leaves the frontier as it is.
pub fn merge_in_place(f: &mut Frontier, other: Frontier, capacity: u32) -> u32
    ensures { Changed f.old (merge f.old other capacity) result f.new }
{
    let new = f.merge(other, capacity);
    store(f, new)
}
