// A stored plan read straight into its columns: each operation into a window of numbers, and from there after the
// operations before it.
ghost use Rattle.std.specs.Prelude.{◌≡◌, List, ℕ, ◌+◌, ◌≤◌, take, drop, IfOk};
ghost use Rattle.plan_format.specs.Sizes.{most_operations};
ghost use Rattle.plan_format.specs.Stored.{plan_in};
ghost use Rattle.check_columns.specs.Columns.{columns};
ghost use Rattle.check_columns.specs.Shown.{PlacesFor};
ghost use Rattle.check_load.specs.Loading.{HeadKnown, load_told, Loads, Keeps};

use check_columns::{QueueColumn, WaitColumn};
use check_load::Loaded;
use plan_format::limits::WINDOW;
use plan_format::{Reason, Refusal};
use stored_numbers::Head;

// Fills the columns of a plan whose head is read. Past the plan's own places each column stays. On a refusal, the
// places of as many operations as the head tells, three signals and seven marks to each, are unspecified.
pub fn columns(
    plan: &[u8],
    h: Head,
    queue: &mut QueueColumn,
    wsem: &mut WaitColumn,
    wval: &mut [u64],
    ssem: &mut [u16],
    sval: &mut [u64],
    sop: &mut [u16],
    mark: &mut [u16],
    mop: &mut [u16],
) -> Result<Loaded, Refusal>
    requires { (h.operations ≤ most_operations) ×
        PlacesFor h.operations (columns queue.old wsem.old wval.old ssem.old sval.old sop.old
        mark.old mop.old) }
    ensures { (nums : List ℕ) → HeadKnown plan.now h nums →
        Loads plan.now (load_told result) nums (columns queue.new wsem.new wval.new
        ssem.new sval.new sop.new mark.new mop.new) ×
        IfOk result (λ _. (plan_in plan.now).owners ≡ take h.semaphores (drop (2 + h.queues) nums))
        × Keeps h.operations (load_told result)
        (columns queue.old wsem.old wval.old ssem.old sval.old
        sop.old mark.old mop.old)
        (columns queue.new wsem.new wval.new ssem.new sval.new
        sop.new mark.new mop.new) }
{
    let many = h.operations as u16;
    let mut window = [0u64; WINDOW];
    let mut at = h.at;
    let mut signals: u16 = 0;
    let mut marks: u16 = 0;
    for i in 0..many {
        let end = stored_numbers::read_operation(
            plan,
            at,
            h.wide,
            h.queues,
            h.semaphores,
            h.buffers,
            &mut window,
        )?;
        let all = check_columns::add(
            &window, i, signals, marks, queue, wsem, wval, ssem, sval, sop, mark, mop,
        );
        at = end.at;
        signals = all.signals as u16;
        marks = all.marks as u16;
    }
    if at < plan.len() {
        return Err(Reason::BytesFollow.at(at));
    }
    Ok(Loaded {
        queues: h.queues,
        semaphores: h.semaphores,
        buffers: h.buffers,
        operations: many,
        signals,
        marks,
    })
}
