// A plan with none of refusals 1 to 8 and 16: the room, its standard run with the rows, and refusals 9, 10, 17 and 11.
ghost use Rattle.std.specs.Prelude.{length};
ghost use Rattle.plan_format.specs.Plan.{Plan};
ghost use Rattle.plan_format.specs.Stored.{Tells};
ghost use Rattle.plan_format.specs.Told.{told_as};
ghost use Rattle.plan_order.specs.Check.{room_refusal, order_refusal, PlanCheckSays};
ghost use Rattle.check_passes.specs.Answering.{order_columns, order_by, AnswersBy};
ghost use Rattle.check_passes.specs.Given.{OrderGiven, JudgeGiven};

use check_columns::{QueueColumn, Rows, WaitColumn};
use plan_format::limits::{MOST_OPERATIONS, ROW_PLACES, ROW_WIDTH};
use plan_format::{Reason, Refusal};

const MOST: u16 = MOST_OPERATIONS as u16;

// What the passes over the order read beside the rows: how many operations, semaphores, signals and marks there are,
// whether each signal is by the queue that owns its semaphore, the queue of each operation, the semaphore and the
// operation of each signal, the code and the operation of each mark.
#[derive(Clone, Copy, Debug, PartialEq, Eq)]
pub struct Order<'a> {
    pub n: u16,
    pub semaphores: usize,
    pub signals: usize,
    pub marks: usize,
    pub owned: bool,
    pub queue: &'a QueueColumn,
    pub ssem: &'a [u16],
    pub sop: &'a [u16],
    pub mark: &'a [u16],
    pub mop: &'a [u16],
}

// The check of a plan with none of refusals 1 to 8 and 16, whose waits are resolved: 9, else the run and what it shows.
pub fn check_order(
    order: &Order,
    source: &WaitColumn,
    table: &mut [u32],
    list: &mut [u32],
) -> Result<(), Refusal>
    ensures answers { AnswersBy
        (room_refusal order.now.n (length table.old) (length list.old)) order.now.n
        (order_columns order.now.semaphores order.now.signals order.now.marks
        order.now.owned order.now.queue.now order.now.ssem.now order.now.sop.now order.now.mark.now
        order.now.mop.now) (told_as (λ _. 0) result) table.old table.new
        list.old list.new }
    ensures of_plans { (p : Plan) → OrderGiven p order.now.n source.now
        (order_columns order.now.semaphores order.now.signals order.now.marks
        order.now.owned order.now.queue.now order.now.ssem.now order.now.sop.now order.now.mark.now
        order.now.mop.now) →
        PlanCheckSays p (told_as (λ _. 0) result) table.old table.new list.old list.new }
{
    let n = order.n;
    room(n, table.len(), list.len())?;
    // no plan has more than 1,024 operations
    if MOST < n {
        return Ok(());
    }
    let mut rows = [0u16; ROW_PLACES];
    let ran = check_run::run(n, order.queue, source, &mut rows, list);
    let told = judge(order, ran, &rows);
    crate::leave::results(told.is_ok(), n, &rows, table, list);
    told
}

// 9 with the length needed where the table, or else the list, is too short for n operations.
fn room(n: u16, table: usize, list: usize) -> Result<(), Refusal>
    ensures { Tells (room_refusal n table list) 0 (told_as (λ _. 0) result) }
{
    let many = usize::from(n);
    if table < ROW_WIDTH * many {
        return Err(Reason::RoomTooShort.at(ROW_WIDTH * many));
    }
    if list < 2 * many {
        return Err(Reason::RoomTooShort.at(2 * many));
    }
    Ok(())
}

// 10 at the lowest operation that is in no run, 17 at the lowest with a signal out of turn, 11 at the lowest with a
// broken mark, or none.
fn judge(order: &Order, ran: usize, rows: &Rows) -> Result<(), Refusal>
    ensures told { Tells (order_by order.now.n
        (order_columns order.now.semaphores order.now.signals order.now.marks
        order.now.owned order.now.queue.now order.now.ssem.now order.now.sop.now order.now.mark.now
        order.now.mop.now) ran rows.now) 0 (told_as (λ _. 0) result) }
    ensures of_plans { (p : Plan) → JudgeGiven p order.now.n ran
        (order_columns order.now.semaphores order.now.signals order.now.marks
        order.now.owned order.now.queue.now order.now.ssem.now order.now.sop.now order.now.mark.now
        order.now.mop.now) rows.now →
        Tells (order_refusal p) 0 (told_as (λ _. 0) result) }
{
    let n = order.n;
    let many = usize::from(n);
    if ran < many {
        let i = check_stuck::stuck(n, order.queue, rows).unwrap_or(many);
        return Err(Reason::Stuck.at(i));
    }
    // columns that show no plan can name an operation past n, which is none
    if let Some(unturned) = check_handover::disordered(
        n,
        order.semaphores,
        order.signals,
        order.owned,
        order.queue,
        order.ssem,
        order.sop,
        rows,
    )
        && unturned < many
    {
        return Err(Reason::OutOfTurn.at(unturned));
    }
    if let Some(i) = check_marks::broken(n, order.marks, order.queue, order.mark, order.mop, rows)
        && i < many
    {
        return Err(Reason::BrokenMark.at(i));
    }
    Ok(())
}
