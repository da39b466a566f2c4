// The state after a part of a run: the counts of the queues, then one pass over the signals of what has run.
ghost use Rattle.std.specs.Prelude.{◌≡◌, ◌≤◌, ◌++◌, length, drop, replicate};
ghost use Rattle.base_lists.specs.Lists.{in_front};
ghost use Rattle.plan_format.specs.Sizes.{most_queues, most_semaphores, state_size};
ghost use Rattle.ask_trace.specs.Raising.{begun, higher as higher_to, raised_by, raised_from};

use crate::steps;
use base_slices::{get_or, put};
use check_plan::PlanColumns;
use plan_format::limits::{MOST_QUEUES, MOST_SEMAPHORES};
use plan_trace::QueueCounts;

// The counts, then the highest value signalled on each semaphore, over the front of a list.
pub(crate) fn tell(
    signals: usize,
    columns: &PlanColumns,
    table: &[u32],
    counts: &QueueCounts,
    state: &mut [u64],
)
    requires { state_size ≤ length state.old }
    ensures { state.new ≡
        raised_from columns.now.queue table.now counts.now columns.now.signal_semaphore
        columns.now.signal_value columns.now.signal_operation signals 0
        (in_front (begun counts.now) state.old) }
{
    begin(counts, state);
    for k in 0..signals {
        raise(columns, table, counts, k, state);
    }
}

// The counts of the queues, then zeros.
fn begin(counts: &QueueCounts, state: &mut [u64])
    requires { state_size ≤ length state.old }
    ensures { state.new ≡ counts.now ++
        (replicate most_semaphores 0 ++ drop most_semaphores (drop most_queues state.old)) }
{
    let (queues, rest) = state.split_at_mut(MOST_QUEUES);
    queues.copy_from_slice(counts);
    clear(rest, MOST_SEMAPHORES);
}

// Zeros in front.
fn clear(rest: &mut [u64], many: usize)
    requires { many ≤ length rest.old }
    ensures { rest.new ≡ replicate many 0 ++ drop many rest.old }
{
    rest[..many].fill(0);
}

// Raises a semaphore by the k-th signal, if its operation has run.
#[tactic(auto, unfolding(crate::specs::Raising::raised_by))]
fn raise(columns: &PlanColumns, table: &[u32], counts: &QueueCounts, k: usize, state: &mut [u64])
    ensures { state.new ≡
        raised_by columns.now.queue table.now counts.now columns.now.signal_semaphore
        columns.now.signal_value columns.now.signal_operation k state.old }
{
    let i = usize::from(get_or(&columns.signal_operation, k, 0));
    let s = usize::from(get_or(&columns.signal_semaphore, k, 0)) % MOST_SEMAPHORES;
    let v = get_or(&columns.signal_value, k, 0);
    if steps::has_run(columns, table, counts, i) {
        higher(state, MOST_QUEUES + s, v);
    }
}

// Raises a number to another.
#[tactic(auto, unfolding(crate::specs::Raising::higher))]
fn higher(state: &mut [u64], at: usize, v: u64)
    ensures { state.new ≡ higher_to state.old at v }
{
    put(state, at, get_or(state, at, 0).max(v));
}
