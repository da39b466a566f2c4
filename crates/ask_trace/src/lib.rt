// The question on a recorded trace: what of it follows the plan, and how far the plan had come.
#![tactic(auto)]

mod state;
mod steps;

ghost use Rattle.std.specs.Prelude.{◌≡◌, length};
ghost use Rattle.plan_format.specs.Stored.{Tells};
ghost use Rattle.plan_trace.specs.State.{nothing_traced};
ghost use Rattle.plan_trace.specs.Promise.{TraceRight};
ghost use Rattle.check_plan.specs.Counting.{outcome_told, SizesTold};
ghost use Rattle.ask_trace.specs.Answer.{told, first_refusal, answer_by, state_by, counted_as};

use check_plan::{Opened, PlanColumns, PlanCounts};
use plan_format::limits::{MOST_QUEUES, STATE_SIZE};
use plan_format::{Refusal, Told};
use plan_trace::{Followed, Traced};

// The counts of a plan beside 0 and 0, or beside the number of a refusal and its place.
#[derive(Clone, Copy, Debug, PartialEq, Eq, Hash)]
pub struct Counted {
    pub number: u32,
    pub place: u64,
    pub counts: PlanCounts,
}

// What was traced, beside the counts of the plan; or a refusal and its place, and nothing traced.
#[derive(Clone, Copy, Debug, PartialEq, Eq, Hash)]
pub struct TraceTold {
    pub counted: Counted,
    pub traced: Traced,
}

// Holds a trace against a plan: what was followed, and the state before the step that departs or at the end. The
// check's refusals come first, then too little room for the state, then a badly formed trace.
pub fn trace_question(
    plan: &[u8],
    trace: &[u8],
    table: &mut [u32],
    list: &mut [u32],
    state: &mut [u64],
) -> TraceTold
    ensures right { TraceRight plan.now trace.now (told result) result.traced
        table.old table.new list.old list.new state.old
        state.new }
    ensures sizes { SizesTold plan.now result.counted.counts }
{
    let mut columns = PlanColumns::cleared();
    let o = columns.open(plan, table, list);
    answer(o, trace, &columns, table, state)
}

// The question on an opened plan, by its counts, its columns and its rows in the table.
fn answer(
    o: Opened,
    trace: &[u8],
    columns: &PlanColumns,
    table: &[u32],
    state: &mut [u64],
) -> TraceTold
    ensures handed { result ≡ answer_by o columns.now.queue columns.now.source table.now
        trace.now (length state.old) }
    ensures left { state.new ≡
        state_by o columns.now.queue columns.now.source columns.now.signal_semaphore
        columns.now.signal_value columns.now.signal_operation
        table.now trace.now state.old }
{
    let f = refusal(o.counted.outcome, state.len(), trace);
    let counted = with_number(o.counted.counts, f.number, f.place);
    if f.number != 0 {
        return TraceTold {
            counted,
            traced: nothing(),
        };
    }
    let traced = steps::walk(o.counted.counts.operations, columns, table, trace);
    let counts = traced.state;
    state::tell(o.signals, columns, table, &counts, state);
    TraceTold { counted, traced }
}

// The check's refusal, or that of the room, or that of the trace.
fn refusal(check: Result<(), Refusal>, room: usize, trace: &[u8]) -> Told
    ensures { Tells (first_refusal (outcome_told check) trace.now room) 0 result }
{
    if let Err(e) = check {
        return plan_format::forwarded(e.reason.number(), e.place);
    }
    if room < STATE_SIZE {
        return plan_format::refused(9, STATE_SIZE);
    }
    if steps::formed(trace) {
        return plan_format::answered(0);
    }
    plan_format::refused(22, 0)
}

// The counts beside a number and its place.
fn with_number(counts: PlanCounts, number: u32, place: u64) -> Counted
    ensures { result ≡ counted_as counts number place }
{
    Counted {
        number,
        place,
        counts,
    }
}

// What is traced where a refusal is given.
fn nothing() -> Traced
    ensures { result ≡ nothing_traced }
{
    Traced {
        step: 0,
        state: [0u64; MOST_QUEUES],
        followed: Followed::Full,
    }
}
