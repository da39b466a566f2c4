// R54 to R56, the check of a plan that is shown by columns: judged by signals, waits and room, run, and judged by its
// order.
#![tactic(auto)]

mod decide;
mod leave;

ghost use Rattle.std.specs.Prelude.{◌≡◌, ◌≤◌, cond, length, replicate};
ghost use Rattle.plan_format.specs.Sizes.{most_semaphores};
ghost use Rattle.plan_format.specs.Plan.{Plan};
ghost use Rattle.plan_format.specs.Refusal.{or_refusal};
ghost use Rattle.plan_format.specs.Sound.{rules_refusal};
ghost use Rattle.plan_format.specs.Stored.{Tells};
ghost use Rattle.plan_format.specs.Told.{told_as};
ghost use Rattle.plan_order.specs.Check.{room_refusal, PlanCheckSays};
ghost use Rattle.check_columns.specs.Columns.{columns, SourceColumn};
ghost use Rattle.check_signals.specs.Owners.{by_owners};
ghost use Rattle.check_passes.specs.Answering.{zeros, rules_by, SourcesBy, order_columns};
ghost use Rattle.check_passes.specs.Answering.{AnswersBy};
ghost use Rattle.check_passes.specs.Given.{CheckGiven, RulesGiven, Ruled};

use check_columns::{QueueColumn, WaitColumn};
use plan_format::Refusal;
use plan_format::limits::{FIRST_SEMAPHORES, MOST_SEMAPHORES};

// Refusals 7, 8 and 9, then the order: the answer, what is left in table and list, and the operation that each wait
// rests on, in place of its semaphore. Where the columns show no plan within the limits, it is unspecified which
// operations run, in which order, and what their rows are.
pub fn judge_columns(
    n: u16,
    semaphores: usize,
    signals: usize,
    marks: usize,
    owner: &[u64],
    queue: &QueueColumn,
    wait: &mut WaitColumn,
    wval: &[u64],
    ssem: &[u16],
    sval: &[u64],
    sop: &[u16],
    mark: &[u16],
    mop: &[u16],
    table: &mut [u32],
    list: &mut [u32],
) -> Result<(), Refusal>
    ensures answers { AnswersBy (or_refusal
        (rules_by n semaphores signals wait.old wval.now ssem.now sval.now
        sop.now) (room_refusal n (length table.old) (length list.old))) n
        (order_columns semaphores signals marks
        (by_owners signals owner.now queue.now ssem.now sval.now
        sop.now) queue.now ssem.now sop.now mark.now
        mop.now) (told_as (λ _. 0) result) table.old table.new list.old list.new }
    ensures sources { SourcesBy n semaphores signals wait.old wval.now
        ssem.now sval.now sop.now wait.new }
    ensures of_plans { (p : Plan) → CheckGiven p n semaphores signals marks owner.now
        (columns queue.now wait.old wval.now ssem.now sval.now
        sop.now mark.now mop.now) →
        PlanCheckSays p (told_as (λ _. 0) result) table.old table.new list.old list.new ×
        ((rules_refusal p).number ≡ 0 → SourceColumn p wait.new) }
{
    let owned = rules(
        n, semaphores, signals, owner, queue, wait, wval, ssem, sval, sop,
    )?;
    let order = decide::Order {
        n,
        semaphores,
        signals,
        marks,
        owned,
        queue,
        ssem,
        sop,
        mark,
        mop,
    };
    decide::check_order(&order, wait, table, list)
}

// 7, else 8; else whether only owners signal, and, in place of the semaphore of each wait, the operation that it rests
// on.
fn rules(
    n: u16,
    semaphores: usize,
    signals: usize,
    owner: &[u64],
    queue: &QueueColumn,
    wait: &mut WaitColumn,
    wval: &[u64],
    ssem: &[u16],
    sval: &[u64],
    sop: &[u16],
) -> Result<bool, Refusal>
    ensures told { Tells (rules_by n semaphores signals wait.old wval.now
        ssem.now sval.now sop.now)
        (cond (by_owners signals owner.now queue.now ssem.now sval.now
        sop.now) 1 0) (told_as (λ b. cond b 1 0) result) }
    ensures sources { SourcesBy n semaphores signals wait.old wval.now
        ssem.now sval.now sop.now wait.new }
    ensures of_plans { (p : Plan) →
        RulesGiven p n semaphores signals owner.now queue.now wait.old
        wval.now ssem.now sval.now sop.now →
        Ruled p (told_as (λ b. cond b 1 0) result) wait.new }
{
    if semaphores <= FIRST_SEMAPHORES {
        ruled::<FIRST_SEMAPHORES>(
            n, semaphores, signals, owner, queue, wait, wval, ssem, sval, sop,
        )
    } else {
        ruled::<MOST_SEMAPHORES>(
            n, semaphores, signals, owner, queue, wait, wval, ssem, sval, sop,
        )
    }
}

// The same, with a place for the last value of each of some semaphores.
fn ruled<const SEMAPHORES: usize>(
    n: u16,
    semaphores: usize,
    signals: usize,
    owner: &[u64],
    queue: &QueueColumn,
    wait: &mut WaitColumn,
    wval: &[u64],
    ssem: &[u16],
    sval: &[u64],
    sop: &[u16],
) -> Result<bool, Refusal>
    requires few { SEMAPHORES ≤ most_semaphores }
    requires enough { replicate SEMAPHORES 0 ≡ zeros semaphores }
    ensures told { Tells (rules_by n semaphores signals wait.old wval.now
        ssem.now sval.now sop.now)
        (cond (by_owners signals owner.now queue.now ssem.now sval.now
        sop.now) 1 0) (told_as (λ b. cond b 1 0) result) }
    ensures sources { SourcesBy n semaphores signals wait.old wval.now
        ssem.now sval.now sop.now wait.new }
    ensures of_plans { (p : Plan) →
        RulesGiven p n semaphores signals owner.now queue.now wait.old
        wval.now ssem.now sval.now sop.now →
        Ruled p (told_as (λ b. cond b 1 0) result) wait.new }
{
    let mut last = [0u64; SEMAPHORES];
    let owned = check_signals::judge(
        semaphores, signals, owner, queue, ssem, sval, sop, &mut last,
    )?;
    check_waits::resolve(n, semaphores, signals, ssem, sval, sop, wait, wval, &last)?;
    Ok(owned)
}
