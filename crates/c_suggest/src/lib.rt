// The C interface of the question for a wait, declared in include/cundvrest.h: it lends what it is lent to the proved
// function and stores what comes back.
#![tactic(auto)]

ghost use Rattle.c_suggest.specs.Handed.{SuggestHanded};

use plan_format::Told;
use plan_suggest::numbers;

// The wait that would free a buffer for a queue: the answer is the number of the advice.
#[unsafe(no_mangle)]
pub extern "C" fn cundvrest_suggest(
    plan: &[u8],
    queue: u32,
    buffer: u32,
    table: &mut [u32],
    list: &mut [u32],
    wait: &mut [u64; 2],
    told: &mut [u64; 3],
)
    ensures { SuggestHanded plan.now queue buffer told.new wait.new
        table.old table.new list.old list.new }
{
    let r = ask_suggest::suggest_question(plan, queue, buffer, table, list);
    let a = r.advice;
    let semaphore = numbers::semaphore_of(a);
    let value = numbers::value_of(a);
    *wait = [semaphore as u64, value];
    c_told::tell(
        Told {
            number: r.number,
            place: r.place,
            answer: numbers::number_of(a),
        },
        told,
    );
}
