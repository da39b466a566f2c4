// R72, what is printed for a check, as text in lent room; the text's length is handed back.
#![tactic(auto)]

ghost use Rattle.std.specs.Prelude.{◌+◌, ◌*◌, ◌<◌, ◌≤◌, ◌++◌, length, take, drop};
ghost use Rattle.base_lists.specs.Lists.{join_from};
ghost use Rattle.plan_format.specs.Sizes.{most_queues, most_operations, table_numbers, list_numbers};
ghost use Rattle.base_text.specs.Text.{Puts, Adds, blanked, or_refused};
ghost use Rattle.print_check.specs.CheckText.{sizes_text, runs_text, row_text, passed_text, RowsInside};
ghost use Rattle.print_check.specs.CheckText.{told_of, CheckPrinted};

use base_text::Text;
use check_plan::{Counted, PlanCounts};
use plan_format::limits::{LIST_NUMBERS, ROW_WIDTH, TABLE_NUMBERS};

// The check of a plan.
pub fn check(plan: &[u8], out: &mut [u8]) -> usize
    ensures { CheckPrinted plan.now out.old out.new result }
{
    let mut table = [0u32; TABLE_NUMBERS];
    let mut list = [0u32; LIST_NUMBERS];
    let counted = check_plan::check_counted(plan, &mut table, &mut list);
    checked(out, counted, &table, &list)
}

// The line of a refusal, or the text of a pass.
fn checked(out: &mut [u8], counted: Counted, table: &[u32], list: &[u32]) -> usize
    requires { RowsInside counted.counts.operations counted.counts.queues table.now × (list_numbers ≤ length list.now) }
    ensures { Puts
        (or_refused (told_of counted).number (told_of counted).place
        (passed_text counted.counts table.now list.now))
        out.old 0 out.new result }
{
    if let Err(e) = counted.outcome {
        return base_text::refused(out, e.reason.number(), e.place);
    }
    let counts = counted.counts;
    let mut text = Text::new(out);
    sizes(&mut text, counts);
    runs(&mut text, counts.operations, list);
    for i in 0..counts.operations {
        row(&mut text, i, counts.queues, table);
    }
    text.len()
}

// `passed 0`, and the line of the four counts without its end.
fn sizes(text: &mut Text, counts: PlanCounts)
    ensures { Adds (sizes_text counts) text.old text.new }
{
    text.words(b"passed 0\nsize ");
    text.line(&[
        counts.queues as u64,
        counts.semaphores as u64,
        counts.buffers as u64,
        counts.operations as u64,
    ]);
}

// The lines of the run and of the ready numbers, each after the end of the line before.
fn runs(text: &mut Text, n: usize, list: &[u32])
    requires { (n ≤ most_operations) × (2 * n ≤ length list.now) }
    ensures { Adds (runs_text n list.now) text.old text.new }
{
    text.words(b"\nrun");
    text.list(&list[..n]);
    text.words(b"\nready");
    text.list(&list[n..n + n]);
    text.byte(b'\n');
}

// The line of operation i: its position, and its row after a colon, one column for each queue.
fn row(text: &mut Text, i: usize, queues: usize, table: &[u32])
    requires { (i < most_operations) × (queues ≤ most_queues) × (table_numbers ≤ length table.now) }
    ensures { Adds (row_text queues table.now i) text.old text.new }
{
    let start = ROW_WIDTH * i;
    text.number(i as u64);
    text.byte(b':');
    text.list(&table[start..start + queues]);
    text.byte(b'\n');
}
