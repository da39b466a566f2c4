// R69 and R70: the frontier sent out for an operation.
#![tactic(auto)]

ghost use Rattle.std.specs.Prelude.{◌≡◌, false, [], ◌*◌, ◌≤◌};
ghost use Rattle.frontier_slots.specs.Entries.{most_entries};
ghost use Rattle.frontier.specs.Frontiers.{pack, gathered};
ghost use Rattle.plan_format.specs.Sizes.{most_queues, row_width};
ghost use Rattle.plan_format.specs.Plan.{Plan};
ghost use Rattle.ask_frontier.specs.Sent.{cut_to};
ghost use Rattle.ask_frontier.specs.SentMeaning.{FrontierRight};
ghost use Rattle.ask_frontier.specs.SentWalk.{SentGiven, SentTells, FrontierGiven, row_in};

use base_slices::get_or;
use check_plan::{Counted, PlanColumns, PlanCounts};
use frontier::Frontier;
use plan_format::limits::{HeadNumbers, MOST_QUEUES, ROW_WIDTH};

// A frontier; or a refusal and its place, beside the empty untainted frontier.
#[derive(Clone, Copy)]
pub struct Sent {
    pub number: u32,
    pub place: u64,
    pub frontier: Frontier,
}

// The frontier of an operation's row, cut to a capacity; or the check's refusal, else 21, else 15.
pub fn frontier_of(
    plan: &[u8],
    operation: u32,
    capacity: u32,
    table: &mut [u32],
    list: &mut [u32],
) -> Sent
    ensures { FrontierRight plan.now operation capacity result table.old table.new
        list.old list.new }
{
    let mut columns = PlanColumns::cleared();
    let o = columns.open(plan, table, list);
    asked(o.counted, &columns, table, operation, capacity)
}

// The question on an opened plan, by its counts, its axes and its rows in the table.
fn asked(c: Counted, columns: &PlanColumns, table: &[u32], operation: u32, capacity: u32) -> Sent
    ensures { FrontierGiven operation capacity c columns.now.head table.now result }
{
    if let Err(e) = c.outcome {
        return refused(e.reason.number(), e.place);
    }
    answer(c.counts, &columns.head, table, operation, capacity)
}

// The same of a plan that passes.
fn answer(c: PlanCounts, head: &HeadNumbers, table: &[u32], operation: u32, capacity: u32) -> Sent
    ensures { (p : Plan) → SentGiven p c head.now table.now →
        SentTells p operation capacity result }
{
    let j = operation as usize;
    if c.operations <= j {
        return refused(21, operation as u64);
    }
    if capacity < Frontier::LEAST {
        return refused(15, 0);
    }
    if Frontier::MOST < capacity {
        return refused(15, 0);
    }
    let frontier = send(head, table, c.queues.min(MOST_QUEUES), operation, capacity);
    Sent {
        number: 0,
        place: 0,
        frontier,
    }
}

// A refusal hands back the empty untainted frontier.
fn refused(number: u32, place: u64) -> Sent
    ensures { result ≡ record { number = number; place = place; frontier = pack [] false } }
{
    Sent {
        number,
        place,
        frontier: Frontier::empty(),
    }
}

// R69, R70: the row of an operation in the table, under the axes, cut by a merge.
fn send(head: &HeadNumbers, table: &[u32], queues: usize, operation: u32, capacity: u32) -> Frontier
    requires { (queues ≤ most_queues) × (1 ≤ capacity) × (capacity ≤ most_entries) }
    ensures { result ≡ cut_to capacity (gathered (row_in head.now table.now (row_width * operation) queues 0)) }
{
    let whole = gather(head, table, queues, operation);
    whole.merge(Frontier::empty(), capacity).frontier
}

// One axis raised after the other: no capacity cuts sixteen.
fn gather(head: &HeadNumbers, table: &[u32], queues: usize, operation: u32) -> Frontier
    requires { queues ≤ most_queues }
    ensures { result ≡ pack (gathered (row_in head.now table.now (row_width * operation) queues 0)) false }
{
    let first = ROW_WIDTH * operation as usize;
    let mut f = Frontier::empty();
    for q in 0..queues {
        let epoch = u64::from(get_or(table, first + q, 0));
        f = f.raise(head[1 + q], epoch, Frontier::MOST).frontier;
    }
    f
}
