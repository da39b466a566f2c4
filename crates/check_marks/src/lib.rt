// R35 and R48, broken marks: those of which keeping asks what "before" does not force. Two passes over the marks: a use
// against the next free of its buffer, a mark against the last free before it. Each has a table by buffer: where the
// row of its free begins, or the free's own place in that row; and the zero row, after the last, for none. What is done
// for a mark does not branch on it.
#![tactic(auto)]

ghost use Rattle.std.specs.Prelude.{◌≡◌, cond, List, ℕ, ◌+◌, ◌*◌, ◌%◌, ◌<◌, ◌≤◌, eqb, length, IfSome, unwrap_or};
ghost use Rattle.plan_format.specs.Sizes.{most_operations, row_width, no_operation};
ghost use Rattle.plan_format.specs.Plan.{Plan};
ghost use Rattle.plan_order.specs.Holdings.{broken as broken_mark};
ghost use Rattle.base_lists.specs.Lists.{place_or};
ghost use Rattle.check_marks.specs.Given.{MarksGiven};
ghost use Rattle.check_columns.specs.Shown.{shown_from};
ghost use Rattle.check_marks.specs.Passes.{none_noted, OwnPlace, late as is_late, early as is_early};
ghost use Rattle.check_marks.specs.Passes.{first_late, first_early, first_broken};

use check_columns::{MARK_CODES, QueueColumn, Rows};
use plan_format::limits::{MOST_BUFFERS, MOST_OPERATIONS, NO_OPERATION, ROW_WIDTH};

// Where the zero row begins.
const NO_ROW: u16 = (ROW_WIDTH * NO_OPERATION) as u16;

// The lower of what the two passes find by the marks that the columns hold, if they find something. By the columns of a
// plan it is the lowest operation with a broken mark, and below n. The passes give n for none, which is above every
// operation of a plan, so that the lower of their answers is the least number; n itself is never handed back.
pub fn broken(
    n: u16,
    marks: usize,
    queue: &QueueColumn,
    mark: &[u16],
    mop: &[u16],
    rows: &Rows,
) -> Option<usize>
    ensures found { unwrap_or result n ≡ first_broken queue.now rows.now n marks mark.now
        mop.now }
    ensures apart { IfSome result (λ i. i ≡ n → ⊥) }
    ensures below { (p : Plan) →
        MarksGiven p n marks queue.now mark.now mop.now rows.now →
        IfSome result (λ i. i < n) }
    ensures of_plans { (p : Plan) →
        MarksGiven p n marks queue.now mark.now mop.now rows.now →
        unwrap_or result n ≡ place_or n (broken_mark p) }
{
    let none = usize::from(n);
    let many = marks.min(mark.len().min(mop.len()));
    let late = uses(none, many, queue, mark, mop, rows);
    let early = reuses(none, many, queue, mark, mop, rows);
    let lowest = late.min(early);
    (lowest != none).then_some(lowest)
}

// The lowest operation with a use that isn't forced to come no later than the free of its holding; n where there is
// none.
fn uses(
    n: usize,
    marks: usize,
    queue: &QueueColumn,
    mark: &[u16],
    mop: &[u16],
    rows: &Rows,
) -> usize
    requires { (marks ≤ length mark.now) × (marks ≤ length mop.now) }
    ensures { result ≡ first_late queue.now rows.now n
        (shown_from mark.now mop.now marks 0) }
{
    let mut frees = [NO_ROW; MOST_BUFFERS];
    let mut lowest = n;
    for k in (0..marks).rev() {
        let m = usize::from(mark[k]) % MARK_CODES;
        let i = usize::from(mop[k]) % MOST_OPERATIONS;
        let free = frees[m / 2];
        lowest = pick((m % 2 == 0) & late(queue, rows, i, free), i, lowest);
        frees[m / 2] = noted(m, (ROW_WIDTH * i) as u16, free);
    }
    lowest
}

// The lowest operation with a mark that isn't forced to come after the free before its holding; n where there is none.
fn reuses(
    n: usize,
    marks: usize,
    queue: &QueueColumn,
    mark: &[u16],
    mop: &[u16],
    rows: &Rows,
) -> usize
    requires { (marks ≤ length mark.now) × (marks ≤ length mop.now) }
    ensures { result ≡ first_early queue.now rows.now n none_noted
        (shown_from mark.now mop.now marks 0) }
{
    let mut frees = [NO_ROW; MOST_BUFFERS];
    for k in 0..marks {
        let m = usize::from(mark[k]) % MARK_CODES;
        let i = usize::from(mop[k]) % MOST_OPERATIONS;
        let own = own_place(queue, i);
        let free = frees[m / 2];
        if early(rows, free, i, own) {
            return i;
        }
        frees[m / 2] = noted(m, own, free);
    }
    n
}

// Whether a use by i isn't forced to come no later than a free, whose row begins at `free`.
fn late(queue: &QueueColumn, rows: &Rows, i: usize, free: u16) -> bool
    requires { (i < most_operations) × (free ≤ row_width * no_operation) }
    ensures { (g : ℕ) → free ≡ row_width * g → result ≡ is_late queue.now rows.now i g }
{
    let q = usize::from(queue[i]) % ROW_WIDTH;
    let own = rows[ROW_WIDTH * i + q];
    let other = rows[usize::from(free) + q];
    (free < NO_ROW) & (other < own)
}

// Whether a mark by i isn't forced to come after a free; `free` and `own` are their own places. Neither side of the `|`
// is true of a mark that isn't broken, so that a jump on either is easy to foretell.
fn early(rows: &Rows, free: u16, i: usize, own: u16) -> bool
    requires { (free < row_width * (no_operation + 1)) × (i < most_operations) }
    ensures { (queue : List ℕ) (g : ℕ) → OwnPlace queue g free → OwnPlace queue i own →
        result ≡ is_early queue rows.now g i }
{
    let freed = rows[usize::from(free)];
    let marked = rows[ROW_WIDTH * i + usize::from(free) % ROW_WIDTH];
    (free == own) | ((free < NO_ROW) & (marked < freed))
}

// An operation's own place in the rows.
fn own_place(queue: &QueueColumn, i: usize) -> u16
    requires { i < most_operations }
    ensures { OwnPlace queue.now i result × (result < row_width * no_operation) }
{
    (ROW_WIDTH * i + usize::from(queue[i]) % ROW_WIDTH) as u16
}

// What the table has for the buffer of a mark after it: the mark's place where it is a free, else what it had.
fn noted(m: usize, place: u16, free: u16) -> u16
    ensures { result ≡ cond (eqb (m % 2) 1) place free }
{
    if m % 2 == 1 { place } else { free }
}

// One of two.
fn pick(first: bool, a: usize, b: usize) -> usize
    ensures { result ≡ cond first a b }
{
    if first { a } else { b }
}
