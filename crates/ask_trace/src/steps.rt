// A trace walked over the columns of a plan and its rows: each step is judged by the counts of the queues. An
// operation's own entry of its row is its epoch: the operation has run if that is at most its queue's count, and at one
// more it is next.
ghost use Rattle.std.specs.Prelude.{◌≡◌, cond, ◌<◌, ◌≤◌, take, drop, MatchOption};
ghost use Rattle.std.proofs.Math.Option.{none, some};
ghost use Rattle.plan_format.specs.Sizes.{most_queues, step_bytes, most_steps, trace_bytes};
ghost use Rattle.plan_format.specs.Grammar.{value};
ghost use Rattle.plan_trace.specs.Trace.{trace_formed, trace_steps, departs as is_departure, at_end};
ghost use Rattle.plan_trace.specs.State.{no_counts};
ghost use Rattle.ask_trace.specs.Walk.{place_of, own_entry, ran_at, wait_unmet_at, first_unmet, judged_shown};
ghost use Rattle.ask_trace.specs.Walk.{walk_from};

use base_slices::get_or;
use check_plan::PlanColumns;
use plan_format::limits::{
    MOST_OPERATIONS, MOST_QUEUES, MOST_WAITS, NO_OPERATION, ROW_WIDTH, STEP_BYTES,
};
use plan_trace::{Followed, QueueCounts, Traced, Unmet};

// The walk from the first step on, over a plan of n operations. After n steps that depart nowhere, the next one
// departs.
pub(crate) fn walk(n: usize, columns: &PlanColumns, table: &[u32], trace: &[u8]) -> Traced
    ensures { result ≡ walk_from n columns.now.queue columns.now.source table.now no_counts 0
        (trace_steps trace.now) }
{
    let mut counts = [0u64; MOST_QUEUES];
    let many = word(trace, 0);
    for k in 0..many {
        let j = word(trace, STEP_BYTES + STEP_BYTES * k);
        let f = judge(n, columns, table, &counts, j);
        if departs(f) {
            return Traced {
                step: k,
                state: counts,
                followed: f,
            };
        }
        counts[place(columns, j)] = own(columns, table, j);
    }
    Traced {
        step: many,
        state: counts,
        followed: end(n, many),
    }
}

// Which rule the step breaks; Unfinished if none.
fn judge(n: usize, columns: &PlanColumns, table: &[u32], counts: &QueueCounts, j: usize) -> Followed
    ensures { result ≡ judged_shown n columns.now.queue columns.now.source table.now
        counts.now j }
{
    if n <= j {
        return Followed::Unknown(j);
    }
    let entry = own(columns, table, j);
    let count = counts[place(columns, j)];
    if entry <= count {
        return Followed::Repeated(j);
    }
    if 1 < entry - count {
        return Followed::NotFirst(j);
    }
    match unmet(columns, table, counts, j) {
        Some(k) => Followed::WaitNotMet(Unmet {
            operation: j,
            wait: k,
        }),
        None => Followed::Unfinished,
    }
}

// The first of an operation's waits that is not met.
fn unmet(columns: &PlanColumns, table: &[u32], counts: &QueueCounts, j: usize) -> Option<usize>
    ensures { MatchOption result
        (first_unmet columns.now.queue columns.now.source table.now counts.now j ≡ none)
        (λ k. first_unmet columns.now.queue columns.now.source table.now counts.now j ≡ some k) }
{
    let first = MOST_WAITS * (j % MOST_OPERATIONS);
    for k in 0..MOST_WAITS {
        if holds(columns, table, counts, first + k) {
            return Some(k);
        }
    }
    None
}

// Whether the wait at a place rests on an operation that has not run. One comparison of numbers says so, since a wait
// that rests on none has a number past every operation: no branch depends on whether there is a wait.
fn holds(columns: &PlanColumns, table: &[u32], counts: &QueueCounts, at: usize) -> bool
    ensures { result ≡ wait_unmet_at columns.now.queue columns.now.source table.now
        counts.now at }
{
    let i = usize::from(get_or(&columns.source, at, 0));
    let ran = has_run(columns, table, counts, i);
    i / NO_OPERATION < unless(ran)
}

// One, unless so.
fn unless(so: bool) -> usize
    ensures { result ≡ cond so 0 1 }
{
    if so { 0 } else { 1 }
}

// Whether an operation has run: its own entry is at most its queue's count.
#[tactic(auto, unfolding(crate::specs::Walk::ran_at, crate::specs::Walk::count_of))]
pub(crate) fn has_run(columns: &PlanColumns, table: &[u32], counts: &QueueCounts, i: usize) -> bool
    ensures { result ≡ ran_at columns.now.queue table.now counts.now i }
{
    own(columns, table, i) <= counts[place(columns, i)]
}

// The queue of an operation.
#[tactic(auto, unfolding(crate::specs::Walk::place_of))]
fn place(columns: &PlanColumns, j: usize) -> usize
    ensures { (result ≡ place_of columns.now.queue j) × (result < most_queues) }
{
    usize::from(get_or(&columns.queue, j % MOST_OPERATIONS, 0)) % MOST_QUEUES
}

// The own entry of an operation's row.
#[tactic(auto, unfolding(crate::specs::Walk::own_entry))]
fn own(columns: &PlanColumns, table: &[u32], j: usize) -> u64
    ensures { result ≡ own_entry columns.now.queue table.now j }
{
    let at = ROW_WIDTH * (j % MOST_OPERATIONS) + place(columns, j);
    u64::from(get_or(table, at, 0))
}

// Whether the case names a broken rule.
#[tactic(auto, unfolding(plan_trace::specs::Trace::departs))]
fn departs(f: Followed) -> bool
    ensures { result ≡ is_departure f }
{
    !matches!(f, Followed::Full | Followed::Unfinished)
}

// A trace that is a run is full if it has as many steps as the plan has operations.
fn end(n: usize, k: usize) -> Followed
    ensures { result ≡ at_end n k }
{
    if k == n {
        Followed::Full
    } else {
        Followed::Unfinished
    }
}

// Whether a trace has a count, and as many steps as it says.
pub(crate) fn formed(trace: &[u8]) -> bool
    ensures { result ≡ trace_formed trace.now }
{
    STEP_BYTES <= trace.len() && trace.len() == STEP_BYTES + STEP_BYTES * word(trace, 0)
}

// The number in two bytes from a place on; bytes past the end count as 0.
#[tactic(auto, using(crate::proofs::Turns::word_is))]
fn word(bytes: &[u8], at: usize) -> usize
    requires { at ≤ trace_bytes }
    ensures { (result ≡ value (take step_bytes (drop at bytes.now))) × (result ≤ most_steps) }
{
    usize::from(get_or(bytes, at, 0)) + 256 * usize::from(get_or(bytes, at + 1, 0))
}
