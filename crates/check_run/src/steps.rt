// Steps of the standard run: the next operation of the lowest ready queue runs, and its row is merged.
ghost use Rattle.std.specs.Prelude.{◌≡◌, List, ℕ, ◌+◌, ◌*◌, ◌<◌, ◌≤◌, length, get_or};
ghost use Rattle.plan_format.specs.Sizes.{most_queues, most_operations, most_waits, no_operation};
ghost use Rattle.plan_format.specs.Plan.{Plan};
ghost use Rattle.check_run.specs.Merge.{Merged};
ghost use Rattle.check_run.specs.Run.{RunGiven, Cleared, Bounded, Ran};
ghost use Rattle.check_run.specs.State.{Tables, Prepared, slot_of, Stepped, Going, Bounds};

use crate::{SLOTS, UNIT, merge, queues};
use check_columns::{QueueColumn, Rows, WaitColumn};
use plan_format::limits::{MOST_QUEUES, MOST_WAITS, NO_OPERATION_STORED, ROW_WIDTH};

// An operation number; past 1,024 it reads as 1,024, whose row is zero.
fn slot(a: &[u16], i: usize) -> usize
    ensures { result ≡ slot_of (get_or a.now i 0) }
{
    usize::from(base_slices::get_or(a, i, 0).min(NO_OPERATION_STORED))
}

// The row of operation j of queue q, from those of the queue's last operation and of its sources.
fn fill(
    j: usize,
    q: usize,
    source: &WaitColumn,
    prev: &[u16; MOST_QUEUES],
    unit: &[u16; UNIT],
    rows: &mut Rows,
)
    requires { (j ≤ no_operation) × (q < most_queues) }
    ensures { Merged rows.old unit.now j q (slot_of (get_or prev.now q 0))
        (slot_of (get_or source.now (most_waits * j) 0))
        (slot_of (get_or source.now (most_waits * j + 1) 0))
        (slot_of (get_or source.now (most_waits * j + 2) 0)) rows.new }
{
    let last = slot(prev, q);
    let a = slot(source, MOST_WAITS * j);
    let b = slot(source, MOST_WAITS * j + 1);
    let c = slot(source, MOST_WAITS * j + 2);
    let row = merge::merge(rows, unit, q, last, a, b, c);
    merge::lay(rows, j, row);
}

// Operation j, the next of queue q, runs.
fn step(
    j: usize,
    q: usize,
    source: &WaitColumn,
    next: &QueueColumn,
    unit: &[u16; UNIT],
    head: &mut [u16; MOST_QUEUES],
    prev: &mut [u16; MOST_QUEUES],
    ran: &mut [u16; SLOTS],
    rows: &mut Rows,
)
    requires { (j ≤ no_operation) × (q < most_queues) }
    ensures { Stepped j q source.now next.now unit.now head.old
        prev.old ran.old
        rows.old head.new prev.new ran.new rows.new }
{
    fill(j, q, source, prev, unit, rows);
    base_slices::put(ran, j, 1);
    base_slices::put(prev, q, j as u16);
    let after = base_slices::get_or(next, j, 0);
    base_slices::put(head, q, after);
}

// Step i of the run: the next operation of the lowest ready queue. The queues that are ready afterwards.
pub fn turn(
    i: usize,
    n: usize,
    ready: u16,
    source: &WaitColumn,
    next: &QueueColumn,
    unit: &[u16; UNIT],
    head: &mut [u16; MOST_QUEUES],
    prev: &mut [u16; MOST_QUEUES],
    ran: &mut [u16; SLOTS],
    waiter: &mut [u16; SLOTS],
    rows: &mut Rows,
    list: &mut [u32],
) -> u16
    requires { (0 < ready) × (i < n) × (n ≤ most_operations) }
    ensures bounds { (queue first_rows first : List ℕ) →
        Tables queue n next.now unit.now →
        Bounds queue n i head.old ready first_rows rows.old first list.old →
        Bounds queue n (i + 1) head.new result first_rows rows.new first list.new }
    ensures of_plans { (p : Plan) (queue first : List ℕ) → RunGiven p n queue source.now →
        Tables queue n next.now unit.now →
        2 * n ≤ length first →
        Going p n i source.now head.old prev.old ran.old
        waiter.old ready rows.old first list.old →
        Going p n (i + 1) source.now head.new prev.new ran.new
        waiter.new result rows.new first list.new }
{
    let q = queues::lowest(ready);
    let j = slot(head, q);
    base_slices::put(list, i + n, ready.count_ones());
    base_slices::put(list, i, j as u32);
    step(j, q, source, next, unit, head, prev, ran, rows);
    let own = 1u16 << q;
    let mask = base_slices::get_or(waiter, j, 0) | own;
    queues::wake(mask, ready - own, head, source, ran, waiter)
}

// The steps of the run from the first, as long as a queue is ready; how many there are.
pub fn all(
    n: usize,
    ready: u16,
    source: &WaitColumn,
    next: &QueueColumn,
    head: &mut [u16; MOST_QUEUES],
    ran: &mut [u16; SLOTS],
    waiter: &mut [u16; SLOTS],
    rows: &mut Rows,
    list: &mut [u32],
) -> usize
    requires { n ≤ most_operations }
    ensures bounds { (queue : List ℕ) →
        Prepared queue n source.now head.old next.now ran.old
        waiter.old ready →
        Bounded n result rows.old rows.new list.old list.new }
    ensures of_plans { (p : Plan) (queue : List ℕ) → RunGiven p n queue source.now →
        Cleared rows.old → 2 * n ≤ length list.old →
        Prepared queue n source.now head.old next.now ran.old
        waiter.old ready →
        Ran p n result rows.new list.old list.new }
{
    let mut prev = [NO_OPERATION_STORED; MOST_QUEUES];
    let mut unit = [0u16; UNIT];
    unit[ROW_WIDTH] = 1;
    let mut word = ready;
    for i in 0..n {
        if word == 0 {
            return i;
        }
        word = turn(
            i, n, word, source, next, &unit, head, &mut prev, ran, waiter, rows, list,
        );
    }
    n
}
