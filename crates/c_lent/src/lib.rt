// R78, the functions of the C interface on frontiers: the numbers of a frontier that a caller lends, read and stored.
#![tactic(auto)]

ghost use Rattle.std.specs.Prelude.{◌≡◌, true, cond, ◌||◌, ◌+◌, ◌≤◌, ltb, length, get_or};
ghost use Rattle.std.proofs.lemmas.List.Edits.{sets};
ghost use Rattle.frontier_slots.specs.Entries.{most_entries};
ghost use Rattle.frontier.specs.Frontiers.{capable, merge, raise, dominance, looked_up, verdict};
ghost use Rattle.frontier.specs.Meaning.{Looked, MergeRight, RaiseRight, DominanceMeans};
ghost use Rattle.frontier_slots.specs.Slots.{AllSlots};
ghost use Rattle.frontier.specs.Walks.{of_slots, laid};
ghost use Rattle.c_told.specs.Told.{told_of};
ghost use Rattle.c_lent.specs.Lent.{length_at, taint_at, frontier_numbers, over_long, frontier_of};
ghost use Rattle.c_lent.specs.Lent.{list_of, oversized, Handed, MergeStored, MergeSays, merged_of};
ghost use Rattle.c_lent.specs.Lent.{OversizedRefused, dominance_told, dominance_of, LookupSays, lookup_of};

use frontier::lent::Filled;
use frontier::{Dominance, Frontier, Unfit, lent};
use plan_format::Told;

// Where the numbers of a frontier are: the axes come first, then the epochs, the length and the taint.
const EPOCHS: usize = Frontier::SLOTS;

const LENGTH: usize = EPOCHS + Frontier::SLOTS;

const TAINT: usize = LENGTH + 1;

// How many they are.
pub const NUMBERS: usize = TAINT + 1;

// A length that no well-formed frontier has.
const OVER_LONG: usize = Frontier::SLOTS + 1;

// The number and the value of an answer of dominance.
#[tactic(auto, unfolding(frontier::specs::Frontiers::number_of))]
fn dominance(r: Result<Dominance, Unfit>) -> Told
    ensures { result ≡ dominance_told (verdict r) }
{
    match r {
        Ok(Dominance::No) => plan_format::answered(0),
        Ok(Dominance::Yes) => plan_format::answered(1),
        Ok(Dominance::Unknown) => plan_format::answered(2),
        Err(unfit) => plan_format::refused(unfit.number(), 0),
    }
}

// The length, or one that is over long where the taint is above 1.
fn length_of(numbers: &[u64]) -> usize
    requires { length numbers.now ≡ frontier_numbers }
    ensures { result ≡ cond (ltb 1 (get_or numbers.now taint_at 0)) over_long
        (get_or numbers.now length_at 0) }
{
    if 1 < numbers[TAINT] {
        return OVER_LONG;
    }
    numbers[LENGTH] as usize
}

// The axes or the epochs over the numbers from `at` on.
fn put_row(row: &[u64], at: usize, numbers: &mut [u64])
    requires { (length row.now ≡ most_entries) × (at + most_entries ≤ length numbers.old) }
    ensures { numbers.new ≡ sets numbers.old at row.now }
{
    numbers[at..at + Frontier::SLOTS].copy_from_slice(row);
}

// The numbers of a frontier, by its slots, length and taint.
fn put<'a>(axes: &'a [u64], epochs: &'a [u64], len: usize, tainted: bool, numbers: &mut [u64])
    requires { AllSlots axes.now epochs.now × (length numbers.old ≡ frontier_numbers) }
    ensures { numbers.new ≡
        list_of (of_slots axes.now epochs.now len tainted) }
{
    put_row(axes, 0, numbers);
    put_row(epochs, EPOCHS, numbers);
    numbers[LENGTH] = len as u64;
    numbers[TAINT] = tainted as u64;
}

// What a merge leaves in front of the room; its number, or 0.
fn put_left<'a>(
    r: Result<Filled, Unfit>,
    axes: &'a [u64],
    epochs: &'a [u64],
    numbers: &mut [u64],
) -> u32
    requires { AllSlots axes.now epochs.now × (length numbers.old ≡ frontier_numbers) }
    ensures number { result ≡ (laid r).number }
    ensures stored { numbers.new ≡
        list_of (of_slots axes.now epochs.now (laid r).len (laid r).tainted) }
{
    match r {
        Ok(left) => {
            put(axes, epochs, left.len, left.tainted, numbers);
            0
        }
        Err(unfit) => {
            put(axes, epochs, 0, false, numbers);
            unfit.number()
        }
    }
}

// A frontier beside its number and place, with nothing to answer.
pub fn hand(number: u32, place: u64, f: Frontier, numbers: &mut [u64; NUMBERS], told: &mut [u64; 3])
    ensures { Handed number place f told.new numbers.new }
{
    put(&f.axes, &f.epochs, f.len, f.tainted, numbers);
    c_told::tell(
        Told {
            number,
            place,
            answer: 0,
        },
        told,
    );
}

// The merge of two lent frontiers; its number.
fn merge_numbers<'a>(left: &'a [u64], right: &'a [u64], capacity: u32, merged: &mut [u64]) -> u32
    requires { (length left.now ≡ frontier_numbers) × (length right.now ≡ frontier_numbers) ×
        (length merged.old ≡ frontier_numbers) }
    ensures { MergeStored
        (merge (frontier_of left.now) (frontier_of right.now) capacity) result
        merged.new }
{
    let mut axes = [0u64; Frontier::BOTH];
    let mut epochs = [0u64; Frontier::BOTH];
    let xn = length_of(left);
    let yn = length_of(right);
    let r = lent::merge(
        &left[..EPOCHS],
        &left[EPOCHS..LENGTH],
        xn,
        left[TAINT] != 0,
        &right[..EPOCHS],
        &right[EPOCHS..LENGTH],
        yn,
        right[TAINT] != 0,
        capacity,
        &mut axes,
        &mut epochs,
    );
    put_left(
        r,
        &axes[..Frontier::SLOTS],
        &epochs[..Frontier::SLOTS],
        merged,
    )
}

// The larger epoch of each axis, cut to the capacity.
pub fn cundvrest_merge<'a>(
    left: &'a [u64; NUMBERS],
    right: &'a [u64; NUMBERS],
    capacity: u32,
    merged: &mut [u64; NUMBERS],
    told: &mut [u64; 3],
)
    ensures says { MergeSays
        (merge (frontier_of left.now) (frontier_of right.now) capacity) told.new
        merged.new }
    ensures right { MergeRight (frontier_of left.now) (frontier_of right.now) capacity
        (merged_of told.new merged.new) }
    ensures oversized_sides { OversizedRefused (oversized left.now || oversized right.now)
        (capable capacity) told.new }
{
    let number = merge_numbers(left, right, capacity, merged);
    c_told::tell(plan_format::forwarded(number, 0), told);
}

// The raise of an axis of a lent frontier; its number.
fn raise_numbers(old: &[u64], axis: u64, epoch: u64, capacity: u32, raised: &mut [u64]) -> u32
    requires { (length old.now ≡ frontier_numbers) × (length raised.old ≡ frontier_numbers) }
    ensures { MergeStored (raise (frontier_of old.now) axis epoch capacity) result
        raised.new }
{
    let mut axes = [0u64; Frontier::BOTH];
    let mut epochs = [0u64; Frontier::BOTH];
    let xn = length_of(old);
    let r = lent::raise(
        &old[..EPOCHS],
        &old[EPOCHS..LENGTH],
        xn,
        old[TAINT] != 0,
        axis,
        epoch,
        capacity,
        &mut axes,
        &mut epochs,
    );
    put_left(
        r,
        &axes[..Frontier::SLOTS],
        &epochs[..Frontier::SLOTS],
        raised,
    )
}

// One axis raised to an epoch.
pub fn cundvrest_raise(
    old: &[u64; NUMBERS],
    axis: u64,
    epoch: u64,
    capacity: u32,
    raised: &mut [u64; NUMBERS],
    told: &mut [u64; 3],
)
    ensures says { MergeSays (raise (frontier_of old.now) axis epoch capacity) told.new
        raised.new }
    ensures right { RaiseRight (frontier_of old.now) axis epoch capacity
        (merged_of told.new raised.new) }
    ensures oversized_side { OversizedRefused (oversized old.now) (capable capacity)
        told.new }
{
    let number = raise_numbers(old, axis, epoch, capacity, raised);
    c_told::tell(plan_format::forwarded(number, 0), told);
}

// Whether the left of two lent frontiers dominates the right one.
fn dominates_numbers<'a>(left: &'a [u64], right: &'a [u64]) -> Result<Dominance, Unfit>
    requires { (length left.now ≡ frontier_numbers) × (length right.now ≡ frontier_numbers) }
    ensures { verdict result ≡ dominance (frontier_of left.now) (frontier_of right.now) }
{
    let xn = length_of(left);
    let yn = length_of(right);
    lent::dominates(
        &left[..EPOCHS],
        &left[EPOCHS..LENGTH],
        xn,
        left[TAINT] != 0,
        &right[..EPOCHS],
        &right[EPOCHS..LENGTH],
        yn,
        right[TAINT] != 0,
    )
}

// Whether the left frontier dominates the right one; the answer is the value of no, yes or unknown.
pub fn cundvrest_dominates<'a>(
    left: &'a [u64; NUMBERS],
    right: &'a [u64; NUMBERS],
    told: &mut [u64; 3],
)
    ensures says { told_of told.new ≡
        dominance_told (dominance (frontier_of left.now) (frontier_of right.now)) }
    ensures means { DominanceMeans (frontier_of left.now) (frontier_of right.now)
        (dominance_of (told_of told.new)) }
    ensures oversized_sides { OversizedRefused
        (oversized left.now || oversized right.now) true told.new }
{
    let r = dominates_numbers(left, right);
    c_told::tell(dominance(r), told);
}

// What a lent frontier says of an axis.
fn lookup_numbers(numbers: &[u64], axis: u64) -> Option<u64>
    requires { length numbers.now ≡ frontier_numbers }
    ensures { result ≡ looked_up (frontier_of numbers.now) axis }
{
    let len = length_of(numbers);
    lent::lookup(&numbers[..EPOCHS], &numbers[EPOCHS..LENGTH], len, axis)
}

// What a frontier says of an axis: the answer is 1 if it is listed, with its epoch in a number of its own, and 0 if it
// is absent.
pub fn cundvrest_lookup(
    frontier: &[u64; NUMBERS],
    axis: u64,
    epoch: &mut [u64; 1],
    told: &mut [u64; 3],
)
    ensures says { LookupSays (looked_up (frontier_of frontier.now) axis) told.new
        epoch.new }
    ensures means { Looked (frontier_of frontier.now) axis
        (lookup_of told.new epoch.new) }
{
    let Some(listed) = lookup_numbers(frontier, axis) else {
        *epoch = [0];
        c_told::tell(plan_format::answered(0), told);
        return;
    };
    *epoch = [listed];
    c_told::tell(plan_format::answered(1), told);
}
