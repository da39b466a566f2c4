// Rows merged: the largest of four rows in each column, one more in the own column.
ghost use Rattle.std.specs.Prelude.{◌≡◌, ℕ, ◌+◌, ◌-◌, ◌*◌, ◌%◌, ◌≤◌, ◌<◌, max, get_or};
ghost use Rattle.plan_format.specs.Sizes.{row_width, no_operation};
ghost use Rattle.check_run.specs.Merge.{largest, Laid};

use crate::UNIT;
use check_columns::Rows;
use plan_format::limits::ROW_WIDTH;

// The lower sixteen bits of the sum.
fn sum(a: u16, b: u16) -> u16
    ensures { result ≡ (a + b) % 65536 }
{
    a.wrapping_add(b)
}

// The larger of two rows in a column.
fn higher(rows: &Rows, a: usize, b: usize, k: usize) -> u16
    requires { (a ≤ no_operation) × (b ≤ no_operation) × (k < row_width) }
    ensures { result ≡ max (get_or rows.now (row_width * a + k) 0)
        (get_or rows.now (row_width * b + k) 0) }
{
    rows[ROW_WIDTH * a + k].max(rows[ROW_WIDTH * b + k])
}

// The largest of four rows in each column, and what `unit` has for it, shifted to column q.
pub fn merge(
    rows: &Rows,
    unit: &[u16; UNIT],
    q: usize,
    a: usize,
    b: usize,
    c: usize,
    d: usize,
) -> [u16; ROW_WIDTH]
    requires { (q < row_width) × (a ≤ no_operation) × (b ≤ no_operation) × (c ≤ no_operation) × (d ≤ no_operation) }
    ensures { (k : ℕ) → k < row_width →
        get_or result k 0 ≡
        (largest rows.now a b c d k + get_or unit.now (row_width - q + k) 0) % 65536 }
{
    let mut row = [0u16; ROW_WIDTH];
    // The part is taken once: with an index for each column the compiler takes the last one apart.
    let own = &unit[ROW_WIDTH - q..];
    for k in 0..ROW_WIDTH {
        let ab = higher(rows, a, b, k);
        let cd = higher(rows, c, d, k);
        row[k] = sum(ab.max(cd), own[k]);
    }
    row
}

// A row written at operation j. It is made as a value first: merged in place it would be made number by number.
pub fn lay(rows: &mut Rows, j: usize, row: [u16; ROW_WIDTH])
    requires { j ≤ no_operation }
    ensures { Laid rows.old j row row_width rows.new }
{
    for k in 0..ROW_WIDTH {
        rows[ROW_WIDTH * j + k] = row[k];
    }
}
