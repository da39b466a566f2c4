// R47, refusal 10: the operation at which a run is stuck, by the rows that the run leaves.
#![tactic(auto)]

ghost use Rattle.std.specs.Prelude.{◌≡◌, ◌<◌, IfSome, unwrap_or};
ghost use Rattle.base_lists.specs.Lists.{place_or};
ghost use Rattle.plan_format.specs.Plan.{Plan, count};
ghost use Rattle.plan_format.specs.Sound.{Sound};
ghost use Rattle.plan_order.specs.Runs.{standard, missing};
ghost use Rattle.check_columns.specs.Columns.{QueueColumn};
ghost use Rattle.check_run.specs.Run.{RowsOf};
ghost use Rattle.check_stuck.specs.Zeros.{first_zero};

use check_columns::{QueueColumn, Rows};
use plan_format::limits::ROW_WIDTH;

// The lowest operation whose row is zero at its own queue, if there is one. By the rows of a plan's standard run it is
// the lowest that did not run.
#[tactic(auto, using(crate::proofs::Missing::zero_at, crate::proofs::Missing::no_zero, crate::proofs::Missing::missed))]
pub fn stuck(n: u16, queue: &QueueColumn, rows: &Rows) -> Option<usize>
    ensures found { unwrap_or result n ≡ first_zero n queue.now rows.now }
    ensures below { IfSome result (λ i. i < n) }
    ensures of_plans { (p : Plan) → Sound p → count p ≡ n → QueueColumn p queue.now →
        RowsOf p (standard p) rows.now →
        unwrap_or result n ≡ place_or n (missing p) }
{
    for i in 0..usize::from(n) {
        let q = usize::from(base_slices::get_or(queue, i, 0)) % ROW_WIDTH;
        if base_slices::get_or(rows, ROW_WIDTH * i + q, 0) == 0 {
            return Some(i);
        }
    }
    None
}
