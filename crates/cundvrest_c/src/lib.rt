// The C interface on plans, declared in include/cundvrest.h: each function lends what it is lent to a proved function
// and stores what comes back.
#![tactic(auto)]

ghost use Rattle.std.specs.Prelude.{◌≡◌};
ghost use Rattle.plan_format.specs.Meaning.{ReadMeans, WriteMeans};
ghost use Rattle.plan_format.specs.Stored.{ReadSays, WriteSays};
ghost use Rattle.plan_order.specs.Promise.{Checked};
ghost use Rattle.check_plan.specs.Counting.{outcome_told};
ghost use Rattle.ask_reuse.specs.Reuse.{ReuseAsked};
ghost use Rattle.ask_frontier.specs.SentMeaning.{FrontierRight};
ghost use Rattle.c_told.specs.Told.{told_of};
ghost use Rattle.cundvrest_c.specs.Sent.{SentSays, sent_of};

use plan_format::{Refusal, Told};

// The numbers of a stored plan in front of the room; the answer is how many there are.
#[unsafe(no_mangle)]
pub extern "C" fn cundvrest_read(plan: &[u8], room: &mut [u64], told: &mut [u64; 3])
    ensures says { ReadSays plan.now (told_of told.new) room.old room.new }
    ensures means { ReadMeans plan.now (told_of told.new) room.old room.new }
{
    c_told::tell(
        plan_format::as_told(stored_read::read_plan(plan, room)),
        told,
    );
}

// The bytes of a list of numbers in front of the room; the answer is how many there are.
#[unsafe(no_mangle)]
pub extern "C" fn cundvrest_write(numbers: &[u64], room: &mut [u8], told: &mut [u64; 3])
    ensures says { WriteSays numbers.now (told_of told.new) room.old room.new }
    ensures means { WriteMeans numbers.now (told_of told.new) room.old room.new }
{
    c_told::tell(
        plan_format::as_told(stored_write::write_plan(numbers, room)),
        told,
    );
}

// The check of a stored plan: the rows and the run in table and list.
#[unsafe(no_mangle)]
pub extern "C" fn cundvrest_check(
    plan: &[u8],
    table: &mut [u32],
    list: &mut [u32],
    told: &mut [u64; 3],
)
    ensures { Checked plan.now (told_of told.new) table.old table.new
        list.old list.new }
{
    c_told::tell(passed(check_plan::check_plan(plan, table, list)), told);
}

// What a check tells: 0 and 0, or the number of its refusal and the place.
fn passed(outcome: Result<(), Refusal>) -> Told
    ensures { result ≡ outcome_told outcome }
{
    match outcome {
        Ok(()) => plan_format::answered(0),
        Err(e) => plan_format::forwarded(e.reason.number(), e.place),
    }
}

// The reuse question: whether a queue may take a buffer anew; the answer is the verdict.
#[unsafe(no_mangle)]
pub extern "C" fn cundvrest_reuse(
    plan: &[u8],
    queue: u32,
    buffer: u32,
    table: &mut [u32],
    list: &mut [u32],
    told: &mut [u64; 3],
)
    ensures { ReuseAsked plan.now queue buffer (told_of told.new) table.old
        table.new list.old list.new }
{
    c_told::tell(
        ask_reuse::reuse_question(plan, queue, buffer, table, list),
        told,
    );
}

// The frontier sent out for an operation, cut to the capacity.
#[unsafe(no_mangle)]
pub extern "C" fn cundvrest_frontier(
    plan: &[u8],
    operation: u32,
    capacity: u32,
    table: &mut [u32],
    list: &mut [u32],
    frontier: &mut [u64; c_lent::NUMBERS],
    told: &mut [u64; 3],
)
    ensures right { FrontierRight plan.now operation capacity
        (sent_of told.new frontier.new) table.old table.new list.old
        list.new }
    ensures says { SentSays (sent_of told.new frontier.new) told.new
        frontier.new }
{
    let r = ask_frontier::frontier_of(plan, operation, capacity, table, list);
    c_lent::hand(r.number, r.place, r.frontier, frontier, told);
}
