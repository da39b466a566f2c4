// The queues during a run: which operation is next on each, what holds it, and which queues are ready.
ghost use Rattle.std.specs.Prelude.{◌≡◌, ◌<◌, ◌≤◌, ◌^◌, length, replicate};
ghost use Rattle.plan_format.specs.Sizes.{most_queues, most_operations, no_operation};
ghost use Rattle.check_run.specs.Words.{LowestBit};
ghost use Rattle.check_run.specs.Queues.{Chained, blocker_of, HeadsLooked};

use crate::SLOTS;
use check_columns::{QueueColumn, WaitColumn};
use plan_format::limits::{MOST_QUEUES, MOST_WAITS, NO_OPERATION_STORED};

// For each operation the next of its queue; the first of each queue in `head`.
pub fn chain(n: u16, queue: &QueueColumn, head: &mut [u16; MOST_QUEUES], next: &mut QueueColumn)
    requires { (n ≤ most_operations) × (head.old ≡ replicate most_queues no_operation) ×
        (length next.old ≡ most_operations) }
    ensures { Chained queue.now 0 n head.new next.new }
{
    for i in (0..n).rev() {
        let q = usize::from(base_slices::get_or(queue, usize::from(i), 0));
        let first = base_slices::get_or(head, q, 0);
        base_slices::put(next, usize::from(i), first);
        base_slices::put(head, q, i);
    }
}

// The first source of operation j that has not run; 1,024 if each has, as the column has for a wait that is none.
fn blocker(j: usize, source: &WaitColumn, ran: &[u16; SLOTS]) -> u16
    requires { j < 65536 }
    ensures { result ≡ blocker_of source.now ran.now j }
{
    for k in 0..MOST_WAITS {
        let at = base_slices::get_or(source, MOST_WAITS * j + k, 0);
        if base_slices::get_or(ran, usize::from(at), 0) == 0 {
            return at;
        }
    }
    NO_OPERATION_STORED
}

// The lowest queue of a word.
pub fn lowest(word: u16) -> usize
    requires { 0 < word }
    ensures { (result < most_queues) × LowestBit word result }
{
    word.trailing_zeros() as usize
}

// Queue q looked at: added to `ready` if it can go, else noted at what holds it.
fn look(
    q: usize,
    ready: u16,
    head: &[u16; MOST_QUEUES],
    source: &WaitColumn,
    ran: &[u16; SLOTS],
    waiter: &mut [u16; SLOTS],
) -> u16
    requires { q < most_queues }
    ensures { HeadsLooked (2 ^ q) ready head.now source.now ran.now waiter.old result
        waiter.new }
{
    let j = base_slices::get_or(head, q, 0);
    if NO_OPERATION_STORED <= j {
        return ready;
    }
    let b = blocker(usize::from(j), source, ran);
    if b == NO_OPERATION_STORED {
        return ready | (1u16 << q);
    }
    let w = base_slices::get_or(waiter, usize::from(b), 0);
    base_slices::put(waiter, usize::from(b), w | (1u16 << q));
    ready
}

// The queues of `mask` looked at.
pub fn wake(
    mask: u16,
    ready: u16,
    head: &[u16; MOST_QUEUES],
    source: &WaitColumn,
    ran: &[u16; SLOTS],
    waiter: &mut [u16; SLOTS],
) -> u16
    ensures { HeadsLooked mask ready head.now source.now ran.now waiter.old result
        waiter.new }
{
    let mut left = mask;
    let mut r = ready;
    // bits are taken from a word, which no sequence is
    while 0 < left {
        let q = lowest(left);
        left -= 1u16 << q;
        r = look(q, r, head, source, ran, waiter);
    }
    r
}
