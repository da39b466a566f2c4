// R87 to R90, the question for a wait that would free a buffer: by the columns of a plan and the rows that its check
// leaves in the table.
#![tactic(auto)]

ghost use Rattle.std.specs.Prelude.{◌≡◌, MatchOption};
ghost use Rattle.std.proofs.Math.Option.{none, some};
ghost use Rattle.plan_format.specs.Plan.{Plan};
ghost use Rattle.plan_suggest.specs.Promise.{SuggestRight};
ghost use Rattle.check_plan.specs.Opening.{lent_of};
ghost use Rattle.plan_suggest.specs.declared.Advice.TheVariants.{NoneNeeded};
ghost use Rattle.ask_suggest.specs.SuggestPass.{told, suggested, suggested_of, SuggestGiven, first_after};
ghost use Rattle.ask_suggest.specs.SuggestPass.{at_signal, AdviceGiven};

use base_slices::get_or;
use check_plan::{Opened, PlanColumns};
use plan_format::limits::{MOST_OPERATIONS, ROW_WIDTH};
use plan_order::Verdict;
use plan_suggest::Advice;

// An advice; or a refusal and its place, and no advice.
#[derive(Clone, Copy, Debug, PartialEq, Eq, Hash)]
pub struct Suggested {
    pub number: u32,
    pub place: u64,
    pub advice: Advice,
}

// The wait that would free a buffer for a queue: none needed, one to add, or none that would help; or the refusal of
// the plan, of the queue, of the buffer, or that no signal of the plan frees it.
pub fn suggest_question(
    plan: &[u8],
    queue: u32,
    buffer: u32,
    table: &mut [u32],
    list: &mut [u32],
) -> Suggested
    ensures { SuggestRight plan.now queue buffer (told result) result.advice table.old
        table.new list.old list.new }
{
    let mut columns = PlanColumns::cleared();
    let o = columns.open(plan, table, list);
    asked(o, queue as usize, buffer as usize, &columns, table)
}

// The question on an opened plan, by its counts, its columns and its rows in the table.
fn asked(o: Opened, q: usize, b: usize, columns: &PlanColumns, table: &[u32]) -> Suggested
    ensures { AdviceGiven q b o (lent_of columns.now) table.now result }
{
    if let Err(e) = o.counted.outcome {
        return refused(e.reason.number(), e.place);
    }
    answer(o, q, b, columns, table)
}

// The same of a plan that passes.
fn answer(o: Opened, q: usize, b: usize, columns: &PlanColumns, table: &[u32]) -> Suggested
    ensures { (p : Plan) →
        SuggestGiven p o columns.now.queue columns.now.signal_semaphore columns.now.signal_value
        columns.now.signal_operation columns.now.mark columns.now.mark_operation table.now →
        result ≡ suggested_of p q b }
{
    let c = o.counted.counts;
    if c.queues <= q {
        return refused(12, q as u64);
    }
    if c.buffers <= b {
        return refused(13, b as u64);
    }
    let j = ask_reuse::judge(
        q,
        b,
        c.operations,
        o.marks,
        &columns.queue,
        &columns.mark,
        &columns.mark_operation,
        table,
    );
    let v = j.verdict;
    match v {
        Verdict::Fresh => advised(Advice::NoneNeeded),
        Verdict::Reusable => advised(Advice::NoneNeeded),
        Verdict::Held => advised(Advice::NoneWouldHelp),
        Verdict::NotOrdered => by_signals(b, j.operation.unwrap_or(0), o.signals, columns, table),
    }
}

// Under verdict 3: the wait for the first signal of the operation of the last free, or of one after it; 19 where there
// is none.
fn by_signals(b: usize, i: usize, signals: usize, columns: &PlanColumns, table: &[u32]) -> Suggested
    ensures { result ≡ at_signal columns.now.signal_semaphore columns.now.signal_value b
        (first_after columns.now.queue table.now columns.now.signal_operation i signals) }
{
    let Some(k) = freeing(i, signals, columns, table) else {
        return refused(19, b as u64);
    };
    let semaphore = usize::from(get_or(&columns.signal_semaphore, k, 0));
    advised(Advice::Wait(semaphore, get_or(&columns.signal_value, k, 0)))
}

// The first signal of operation i or of one after it, by the column of i's queue in their rows.
fn freeing(i: usize, signals: usize, columns: &PlanColumns, table: &[u32]) -> Option<usize>
    ensures { MatchOption result
        (first_after columns.now.queue table.now columns.now.signal_operation i signals ≡ none)
        (λ k. first_after columns.now.queue table.now columns.now.signal_operation i signals ≡ some k) }
{
    let free = i % MOST_OPERATIONS;
    let q = usize::from(get_or(&columns.queue, free, 0)) % ROW_WIDTH;
    let own = get_or(table, ROW_WIDTH * free + q, 0);
    for k in 0..signals {
        let j = usize::from(get_or(&columns.signal_operation, k, 0)) % MOST_OPERATIONS;
        let other = get_or(table, ROW_WIDTH * j + q, 0);
        if own <= other {
            return Some(k);
        }
    }
    None
}

// A refusal at a place, with nothing advised.
fn refused(number: u32, place: u64) -> Suggested
    ensures { result ≡ suggested number place NoneNeeded }
{
    Suggested {
        number,
        place,
        advice: Advice::NoneNeeded,
    }
}

// An advice, with no refusal.
fn advised(advice: Advice) -> Suggested
    ensures { result ≡ suggested 0 0 advice }
{
    Suggested {
        number: 0,
        place: 0,
        advice,
    }
}
