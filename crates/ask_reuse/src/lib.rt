// R57 and R58, the reuse question: the verdict by the columns of a plan and the rows that its check leaves in the
// table.
#![tactic(auto)]

ghost use Rattle.std.specs.Prelude.{◌≡◌, ℕ, ◌<◌, length, MatchOption};
ghost use Rattle.std.proofs.Math.Option.{none, some};
ghost use Rattle.std.proofs.Math.Option.{Option as MathOption};
ghost use Rattle.plan_format.specs.Sizes.{most_operations};
ghost use Rattle.plan_format.specs.Plan.{Plan};
ghost use Rattle.plan_format.specs.Stored.{Tells};
ghost use Rattle.plan_order.specs.Reuse.{verdict as verdict_of, number_of, question_refusal};
ghost use Rattle.ask_reuse.specs.Reuse.{ReuseAsked};
ghost use Rattle.ask_reuse.specs.ReusePass.{QuestionGiven, last_shown, last_marked, seen as is_seen};
ghost use Rattle.check_plan.specs.Opening.{lent_of};
ghost use Rattle.ask_reuse.specs.ReusePass.{AnswerGiven, verdict_after, judged_at, judged_by, VerdictGiven};
ghost use Rattle.ask_reuse.specs.ReusePass.{JudgedRight};

use base_slices::get_or;
use check_columns::{MARK_CODES, MarkColumn, QueueColumn};
use check_plan::{Opened, PlanColumns, PlanCounts};
use plan_format::Told;
use plan_format::limits::{MOST_OPERATIONS, ROW_WIDTH};
use plan_order::Verdict;

// The verdict on a buffer, and the operation of its last mark.
#[derive(Clone, Copy, Debug, PartialEq, Eq, Hash)]
pub struct Judged {
    pub verdict: Verdict,
    pub operation: Option<usize>,
}

// The reuse question: a verdict as the answer; or the refusal of the plan, of the queue or of the buffer.
pub fn reuse_question(
    plan: &[u8],
    queue: u32,
    buffer: u32,
    table: &mut [u32],
    list: &mut [u32],
) -> Told
    ensures { ReuseAsked plan.now queue buffer result table.old table.new
        list.old list.new }
{
    let mut columns = PlanColumns::cleared();
    let o = columns.open(plan, table, list);
    asked(o, queue as usize, buffer as usize, &columns, table)
}

// The question on an opened plan, by its counts, its columns and its rows in the table.
fn asked(o: Opened, q: usize, b: usize, columns: &PlanColumns, table: &[u32]) -> Told
    ensures { AnswerGiven q b o (lent_of columns.now) table.now result }
{
    if let Err(e) = o.counted.outcome {
        return plan_format::forwarded(e.reason.number(), e.place);
    }
    answer(o.counted.counts, o.marks, q, b, columns, table)
}

// The question on a plan that passes, by its counts, its columns and its rows in the table.
fn answer(
    c: PlanCounts,
    marks: usize,
    q: usize,
    b: usize,
    columns: &PlanColumns,
    table: &[u32],
) -> Told
    ensures { (p : Plan) →
        QuestionGiven p c marks columns.now.queue columns.now.mark columns.now.mark_operation table.now →
        Tells (question_refusal p q b) (number_of (verdict_of p q b)) result }
{
    if c.queues <= q {
        return plan_format::refused(12, q);
    }
    if c.buffers <= b {
        return plan_format::refused(13, b);
    }
    let j = judge(
        q,
        b,
        c.operations,
        marks,
        &columns.queue,
        &columns.mark,
        &columns.mark_operation,
        table,
    );
    plan_format::answered(number_of(j.verdict))
}

// The verdict on a buffer for a queue, by the columns of a plan of n operations and its rows in the table.
pub fn judge(
    q: usize,
    b: usize,
    n: usize,
    marks: usize,
    queue: &QueueColumn,
    mark: &MarkColumn,
    mop: &MarkColumn,
    table: &[u32],
) -> Judged
    ensures found { result ≡ judged_by queue.now mark.now mop.now
        table.now q b n marks }
    ensures of_plans { (p : Plan) → b < length p.sizes →
        VerdictGiven p n marks queue.now mark.now mop.now table.now →
        JudgedRight p q b result }
{
    let last = last_on(n, queue, q);
    by_last_mark(b, last, marks, queue, mark, mop, table)
}

// The queue's last operation.
fn last_on(n: usize, queue: &[u16], q: usize) -> Option<usize>
    ensures { MatchOption result (last_shown queue.now q n ≡ none) (λ i. last_shown queue.now q n ≡ some i) }
{
    for i in (0..n).rev() {
        if usize::from(get_or(queue, i, 0)) == q {
            return Some(i);
        }
    }
    None
}

// R58: the verdict by the last mark on a buffer, looked for from the end: in a plan without broken marks a queue that
// sees the last free sees every operation with a mark.
fn by_last_mark(
    b: usize,
    last: Option<usize>,
    marks: usize,
    queue: &[u16],
    mark: &[u16],
    mop: &[u16],
    table: &[u32],
) -> Judged
    ensures { (o : MathOption ℕ) → MatchOption last (o ≡ none) (λ i. o ≡ some i) →
        result ≡ judged_at (is_seen queue.now table.now o) mark.now mop.now (last_marked mark.now b marks) }
{
    for k in (0..marks).rev() {
        let m = usize::from(get_or(mark, k, 0)) % MARK_CODES;
        if m / 2 == b {
            let i = usize::from(get_or(mop, k, 0)) % MOST_OPERATIONS;
            return Judged {
                verdict: after(m % 2 == 1, seen(queue, table, last, i)),
                operation: Some(i),
            };
        }
    }
    Judged {
        verdict: Verdict::Fresh,
        operation: None,
    }
}

// The verdict by the last mark: whether it frees, and whether its operation is seen.
#[tactic(auto, unfolding(crate::specs::ReusePass::verdict_after))]
fn after(frees: bool, placed: bool) -> Verdict
    ensures { result ≡ verdict_after frees placed }
{
    match (frees, placed) {
        (true, true) => Verdict::Reusable,
        (true, false) => Verdict::NotOrdered,
        (false, _) => Verdict::Held,
    }
}

// R58: whether i is seen by the queue with this last operation, by the column of i's queue in their rows.
fn seen(queue: &[u16], table: &[u32], last: Option<usize>, i: usize) -> bool
    requires { i < most_operations }
    ensures { (o : MathOption ℕ) → MatchOption last (o ≡ none) (λ i. o ≡ some i) →
        result ≡ is_seen queue.now table.now o i }
{
    let Some(last) = last else {
        return false;
    };
    if MOST_OPERATIONS <= last {
        return false;
    }
    let q = usize::from(get_or(queue, i, 0)) % ROW_WIDTH;
    get_or(table, ROW_WIDTH * i + q, 0) <= get_or(table, ROW_WIDTH * last + q, 0)
}

// R58: the number of a verdict.
#[tactic(auto, unfolding(plan_order::specs::Reuse::number_of))]
fn number_of(v: Verdict) -> u64
    ensures { result ≡ number_of v }
{
    v as u64
}
