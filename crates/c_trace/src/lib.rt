// The C interface of the question on a recorded trace, declared in include/cundvrest.h: it lends what it is lent to the
// proved function and stores what comes back.
#![tactic(auto)]

ghost use Rattle.std.specs.Prelude.{◌≡◌};
ghost use Rattle.plan_trace.specs.Numbers.{found_numbers};
ghost use Rattle.c_trace.specs.Handed.{TraceHanded};

use plan_format::Told;
use plan_trace::{Traced, numbers};

// How many numbers say what was found.
pub const FOUND: usize = 6;

// Holds a recorded trace against a plan: the answer is the number of what was followed.
#[unsafe(no_mangle)]
pub extern "C" fn cundvrest_trace(
    plan: &[u8],
    trace: &[u8],
    table: &mut [u32],
    list: &mut [u32],
    state: &mut [u64],
    found: &mut [u64; FOUND],
    told: &mut [u64; 3],
)
    ensures { TraceHanded plan.now trace.now told.new found.new
        table.old table.new list.old list.new state.old
        state.new }
{
    let r = ask_trace::trace_question(plan, trace, table, list, state);
    let traced = r.traced;
    let followed = traced.followed;
    put(traced, found);
    c_told::tell(
        Told {
            number: r.counted.number,
            place: r.counted.place,
            answer: numbers::number_of(followed),
        },
        told,
    );
}

// The step, the operation and the wait; the other numbers are 0.
fn put(x: Traced, found: &mut [u64; FOUND])
    ensures { found.new ≡ found_numbers x }
{
    let followed = x.followed;
    let operation = numbers::operation_of(followed);
    let wait = numbers::wait_of(followed);
    *found = [x.step as u64, operation as u64, wait as u64, 0, 0, 0];
}
