// R27 to R29 and R20: the standard run and the frontier rows, in one pass.
#![tactic(auto)]

mod merge;
mod queues;
mod steps;

ghost use Rattle.std.specs.Prelude.{◌*◌, ◌≤◌, length};
ghost use Rattle.plan_format.specs.Plan.{Plan};
ghost use Rattle.check_run.specs.Run.{RunGiven, Cleared, Bounded, Ran};

use check_columns::{QueueColumn, Rows, WaitColumn};
use plan_format::limits::{
    MOST_OPERATIONS, MOST_QUEUES, NO_OPERATION, NO_OPERATION_STORED, ROW_WIDTH,
};

// A place for each operation, and one for none.
const SLOTS: usize = NO_OPERATION + 1;

// The word with a bit for every queue.
const ALL_QUEUES: u16 = u16::MAX;

// A row with a one in the middle: the part of it that begins at width - q has the one in column q.
const UNIT: usize = 2 * ROW_WIDTH;

// The standard run into `list`, with the number ready before each step from place n on, and the row of each operation
// that ran into `rows`, which are all zero before; how many operations ran. Where the columns show no plan, it is
// unspecified which operations below n run, in which order, and what their rows are; where n is above 1,024 nothing is
// done.
pub fn run(
    n: u16,
    queue: &QueueColumn,
    source: &WaitColumn,
    rows: &mut Rows,
    list: &mut [u32],
) -> usize
    ensures bounds { Bounded n result rows.old rows.new list.old
        list.new }
    ensures of_plans { (p : Plan) → RunGiven p n queue.now source.now →
        Cleared rows.old → 2 * n ≤ length list.old →
        Ran p n result rows.new list.old list.new }
{
    let many = usize::from(n);
    if MOST_OPERATIONS < many {
        return 0;
    }
    let mut head = [NO_OPERATION_STORED; MOST_QUEUES];
    let mut next = [NO_OPERATION_STORED; MOST_OPERATIONS];
    let mut ran = [0u16; SLOTS];
    let mut waiter = [0u16; SLOTS];
    ran[NO_OPERATION] = 1;
    queues::chain(n, queue, &mut head, &mut next);
    let ready = queues::wake(ALL_QUEUES, 0, &head, source, &ran, &mut waiter);
    steps::all(
        many,
        ready,
        source,
        &next,
        &mut head,
        &mut ran,
        &mut waiter,
        rows,
        list,
    )
}
