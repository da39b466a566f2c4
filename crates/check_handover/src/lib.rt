// R93 and R94, refusal 17: signals out of turn. There is none where only owners signal, as the pass for 7 tells. Else
// one loop goes over the signals in plan order, with the last signaller of each semaphore; its row and that of the
// signal's operation tell whether it is the same or before.
#![tactic(auto)]

ghost use Rattle.std.specs.Prelude.{◌≡◌, ℕ, ◌≤◌, ◌<◌, IfSome, unwrap_or, replicate};
ghost use Rattle.base_lists.specs.Lists.{place_or};
ghost use Rattle.plan_format.specs.Sizes.{most_semaphores, most_operations, no_operation};
ghost use Rattle.plan_format.specs.Plan.{Plan};
ghost use Rattle.plan_order.specs.Handovers.{disordered as out_of_turn};
ghost use Rattle.check_handover.specs.Given.{HandoversGiven};
ghost use Rattle.check_handover.specs.Walk.{unturned as is_unturned, turns_found};
ghost use Rattle.check_handover.specs.Walk.{first_unturned};

use check_columns::{QueueColumn, Rows};
use plan_format::limits::{
    FIRST_SEMAPHORES, MOST_OPERATIONS, MOST_SEMAPHORES, NO_OPERATION, NO_OPERATION_STORED,
    ROW_WIDTH,
};

const MOST: u16 = MOST_OPERATIONS as u16;

// None where only owners are said to signal, and no row is looked at. Else the operation of the first signal that is
// neither in nor after the operation of the signal before it on its semaphore, if there is one. Of the signals only
// those count that both columns hold. By the columns of a plan, where what is said of owners is so, it is the lowest
// operation with a signal out of turn, and below n. The last signallers have places for 64 semaphores, or for all that
// a plan can have where it has more; past them operation 0 counts as the last one.
#[tactic(auto, using(crate::proofs::Found::owners_is, crate::proofs::Found::walk_few, crate::proofs::Found::walk_many))]
pub fn disordered(
    n: u16,
    semaphores: usize,
    signals: usize,
    owned: bool,
    queue: &QueueColumn,
    ssem: &[u16],
    sop: &[u16],
    rows: &Rows,
) -> Option<usize>
    ensures exact { (m : ℕ) → unwrap_or result m ≡ first_unturned queue.now rows.now ssem.now
        sop.now owned m semaphores signals }
    ensures found { unwrap_or result n ≡ first_unturned queue.now rows.now ssem.now
        sop.now owned n semaphores signals }
    ensures below { (p : Plan) → HandoversGiven p n semaphores signals owned queue.now
        ssem.now sop.now rows.now → IfSome result (λ i. i < n) }
    ensures of_plans { (p : Plan) → HandoversGiven p n semaphores signals owned queue.now
        ssem.now sop.now rows.now → unwrap_or result n ≡ place_or n (out_of_turn p) }
{
    if owned {
        return None;
    }
    if semaphores <= FIRST_SEMAPHORES {
        return walk::<FIRST_SEMAPHORES>(signals, queue, ssem, sop, rows);
    }
    walk::<MOST_SEMAPHORES>(signals, queue, ssem, sop, rows)
}

// The first signal out of turn, with a place for each of some semaphores.
#[tactic(auto, unfolding(crate::specs::Walk::turns_found), using(crate::proofs::Turns::turns_left))]
fn walk<const SEMAPHORES: usize>(
    signals: usize,
    queue: &QueueColumn,
    ssem: &[u16],
    sop: &[u16],
    rows: &Rows,
) -> Option<usize>
    requires { SEMAPHORES ≤ most_semaphores }
    ensures { (n : ℕ) → unwrap_or result n ≡ turns_found queue.now rows.now ssem.now sop.now n signals
        (replicate SEMAPHORES no_operation) }
{
    let many = signals.min(ssem.len().min(sop.len()));
    let mut last = [NO_OPERATION_STORED; SEMAPHORES];
    for k in 0..many {
        let s = usize::from(ssem[k]);
        let i = sop[k] % MOST;
        let g = base_slices::get_or(&last, s, 0);
        if unturned(queue, rows, usize::from(g), usize::from(i)) {
            return Some(usize::from(i));
        }
        base_slices::put(&mut last, s, i);
    }
    None
}

// Whether g is neither i nor before i, by their rows in the column of g's queue; 1,024 stands for none.
#[tactic(auto, using(crate::proofs::Turns::unturned_some, crate::proofs::Turns::unturned_none))]
fn unturned(queue: &QueueColumn, rows: &Rows, g: usize, i: usize) -> bool
    requires { (i < most_operations) × (g < 65536) }
    ensures { result ≡ is_unturned queue.now rows.now g i }
{
    let q = usize::from(base_slices::get_or(queue, g, 0)) % ROW_WIDTH;
    let own = base_slices::get_or(rows, ROW_WIDTH * g + q, 0);
    g < NO_OPERATION && base_slices::get_or(rows, ROW_WIDTH * i + q, 0) < own
}
