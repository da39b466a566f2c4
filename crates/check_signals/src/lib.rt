// R44, refusal 7: each signal is above the last of its semaphore, whichever queue signals. In the same loop: whether
// only owners signal, which spares the pass for 17 its look at the rows.
#![tactic(auto)]

ghost use Rattle.std.specs.Prelude.{◌≡◌, ◌&&◌, cond, eqb, get_or};
ghost use Rattle.plan_format.specs.Plan.{Plan};
ghost use Rattle.plan_format.specs.Stored.{Tells};
ghost use Rattle.plan_format.specs.Told.{told_as};
ghost use Rattle.check_signals.specs.Walks.{SignalsGiven, Judged, signals_found, lasts_found, cleared, held_in};
ghost use Rattle.check_signals.specs.Owners.{by_owners};

use check_columns::QueueColumn;
use plan_format::{Reason, Refusal};

// `SignalNotHigher` at the operation of the first signal that is not above the last of its semaphore; or whether each
// signal is by the queue that owns its semaphore. In `last`, of the plan's own semaphores, the last values of the
// signals before it. By the columns of a plan the refusal is the plan's, and where there is none the last values are
// the highest, and the answer is whether only owners signal. Of more signals than the columns hold those that they
// hold are judged; a signal of a semaphore that the plan lacks is judged by what is lent in its place. No branch
// depends on who signals.
pub fn judge(
    semaphores: usize,
    signals: usize,
    owner: &[u64],
    queue: &QueueColumn,
    ssem: &[u16],
    sval: &[u64],
    sop: &[u16],
    last: &mut [u64],
) -> Result<bool, Refusal>
    ensures told { Tells
        (signals_found semaphores signals ssem.now sval.now sop.now
        last.old)
        (cond (by_owners signals owner.now queue.now ssem.now sval.now
        sop.now) 1 0) (told_as (λ b. cond b 1 0) result) }
    ensures lasts { last.new ≡
        lasts_found semaphores signals ssem.now sval.now sop.now
        last.old }
    ensures of_plans { (p : Plan) →
        SignalsGiven p semaphores signals owner.now queue.now ssem.now
        sval.now sop.now last.old → Judged p (told_as (λ b. cond b 1 0) result) last.new }
{
    clear(semaphores, last);
    let many = held(signals, ssem.len(), sval.len(), sop.len());
    let mut all = true;
    for k in 0..many {
        let s = usize::from(ssem[k]);
        let i = usize::from(sop[k]);
        let own = owned(owner, queue, s, i);
        all = both(all, own);
        let value = sval[k];
        if value <= base_slices::get_or(last, s, 0) {
            return Err(Reason::SignalNotHigher.at(i));
        }
        base_slices::put(last, s, value);
    }
    Ok(all)
}

// Whether semaphore s is owned by the queue of operation i.
fn owned(owner: &[u64], queue: &QueueColumn, s: usize, i: usize) -> bool
    ensures { result ≡ eqb (get_or owner.now s 0) (get_or queue.now i 0) }
{
    let by = base_slices::get_or(queue, i, 0);
    base_slices::get_or(owner, s, 0) == u64::from(by)
}

// Both are known, so this makes no branch; with `&` in the loop in its place a signal took 1.16 of the time.
fn both(a: bool, b: bool) -> bool
    ensures { result ≡ (a && b) }
{
    a && b
}

// How many of the signals the columns hold.
#[tactic(auto, unfolding(crate::specs::Walks::held_in))]
fn held(signals: usize, ssem: usize, sval: usize, sop: usize) -> usize
    ensures { result ≡ held_in signals ssem sval sop }
{
    signals.min(ssem.min(sval.min(sop)))
}

// Zeros in the places of so many semaphores.
fn clear(semaphores: usize, last: &mut [u64])
    ensures { last.new ≡ cleared semaphores last.old }
{
    let own = semaphores.min(last.len());
    last[..own].fill(0);
}
