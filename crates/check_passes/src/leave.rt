// What the check leaves in the lent table and list.
ghost use Rattle.std.specs.Prelude.{◌≡◌, ◌≤◌, length, take};
ghost use Rattle.base_lists.specs.Lists.{in_front};
ghost use Rattle.check_passes.specs.Leaving.{ResultsRoom, ResultsLeft};

use check_columns::Rows;
use plan_format::limits::ROW_WIDTH;

// Zeros over both on a refusal; else the rows in the table, the run being in the list already.
pub fn results(passed: bool, n: u16, from: &Rows, table: &mut [u32], list: &mut [u32])
    requires { ResultsRoom n table.old list.old }
    ensures { ResultsLeft passed n from.now table.old table.new
        list.old list.new }
{
    let many = usize::from(n);
    if passed {
        rows(from, table, ROW_WIDTH * many);
    } else {
        table[..ROW_WIDTH * many].fill(0);
        list[..2 * many].fill(0);
    }
}

// The first n numbers of the rows over the first n of the table.
fn rows(from: &[u16], table: &mut [u32], n: usize)
    requires { (n ≤ length from.now) × (n ≤ length table.old) }
    ensures { table.new ≡ in_front (take n from.now) table.old }
{
    for i in 0..n {
        table[i] = u32::from(from[i]);
    }
}
