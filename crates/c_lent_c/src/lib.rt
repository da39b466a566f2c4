// The C interface on frontiers, declared in include/cundvrest.h: each function is that of c_lent, for C to call.
#![tactic(auto)]

ghost use Rattle.std.specs.Prelude.{◌≡◌, true, ◌||◌};
ghost use Rattle.frontier.specs.Frontiers.{capable, merge, raise, dominance, looked_up};
ghost use Rattle.frontier.specs.Meaning.{Looked, MergeRight, RaiseRight, DominanceMeans};
ghost use Rattle.c_told.specs.Told.{told_of};
ghost use Rattle.c_lent.specs.Lent.{oversized, frontier_of, MergeSays, merged_of, OversizedRefused};
ghost use Rattle.c_lent.specs.Lent.{dominance_told, dominance_of, LookupSays, lookup_of};

use c_lent::NUMBERS;

// The larger epoch of each axis, cut to the capacity.
#[unsafe(no_mangle)]
pub extern "C" fn cundvrest_merge<'a>(
    left: &'a [u64; NUMBERS],
    right: &'a [u64; NUMBERS],
    capacity: u32,
    merged: &mut [u64; NUMBERS],
    told: &mut [u64; 3],
)
    ensures says { MergeSays
        (merge (frontier_of left.now) (frontier_of right.now) capacity) told.new
        merged.new }
    ensures right { MergeRight (frontier_of left.now) (frontier_of right.now) capacity
        (merged_of told.new merged.new) }
    ensures oversized_sides { OversizedRefused (oversized left.now || oversized right.now)
        (capable capacity) told.new }
{
    c_lent::cundvrest_merge(left, right, capacity, merged, told);
}

// One axis raised to an epoch.
#[unsafe(no_mangle)]
pub extern "C" fn cundvrest_raise(
    old: &[u64; NUMBERS],
    axis: u64,
    epoch: u64,
    capacity: u32,
    raised: &mut [u64; NUMBERS],
    told: &mut [u64; 3],
)
    ensures says { MergeSays (raise (frontier_of old.now) axis epoch capacity) told.new
        raised.new }
    ensures right { RaiseRight (frontier_of old.now) axis epoch capacity
        (merged_of told.new raised.new) }
    ensures oversized_side { OversizedRefused (oversized old.now) (capable capacity)
        told.new }
{
    c_lent::cundvrest_raise(old, axis, epoch, capacity, raised, told);
}

// Whether the left frontier dominates the right one; the answer is the value of no, yes or unknown.
#[unsafe(no_mangle)]
pub extern "C" fn cundvrest_dominates<'a>(
    left: &'a [u64; NUMBERS],
    right: &'a [u64; NUMBERS],
    told: &mut [u64; 3],
)
    ensures says { told_of told.new ≡
        dominance_told (dominance (frontier_of left.now) (frontier_of right.now)) }
    ensures means { DominanceMeans (frontier_of left.now) (frontier_of right.now)
        (dominance_of (told_of told.new)) }
    ensures oversized_sides { OversizedRefused
        (oversized left.now || oversized right.now) true told.new }
{
    c_lent::cundvrest_dominates(left, right, told);
}

// What a frontier says of an axis: the answer is 1 if it is listed, with its epoch in a number of its own, and 0 if it
// is absent.
#[unsafe(no_mangle)]
pub extern "C" fn cundvrest_lookup(
    frontier: &[u64; NUMBERS],
    axis: u64,
    epoch: &mut [u64; 1],
    told: &mut [u64; 3],
)
    ensures says { LookupSays (looked_up (frontier_of frontier.now) axis) told.new
        epoch.new }
    ensures means { Looked (frontier_of frontier.now) axis
        (lookup_of told.new epoch.new) }
{
    c_lent::cundvrest_lookup(frontier, axis, epoch, told);
}
