// Columns of a plan: flat arrays that the passes of the check read, filled from the numbers of each operation.
#![tactic(auto)]

ghost use Rattle.std.specs.Prelude.{◌≡◌, cond, ◌+◌, ◌*◌, ◌%◌, ◌<◌, ◌≤◌, ltb, length, get_or};
ghost use Rattle.std.proofs.lemmas.List.Edits.{sets};
ghost use Rattle.plan_format.specs.Sizes.{most_operations, most_waits, wait_places, no_wait};
ghost use Rattle.check_columns.specs.Columns.{columns};
ghost use Rattle.check_columns.specs.Filling.{wait_semaphores, wait_values, signal_semaphores};
ghost use Rattle.check_columns.specs.Filling.{signal_values, codes_of_marks, repeated, next_at, WaitPlaced};
ghost use Rattle.check_columns.specs.Filling.{Added};

use plan_format::limits::{
    MARK_PLACES, MOST_BUFFERS, MOST_OPERATIONS, MOST_WAITS, NO_WAIT, ROW_PLACES, SIGNAL_PLACES,
    WAIT_PLACES, Window,
};

// The columns of a plan: a queue for each operation; for each place of a wait a semaphore or the operation that the
// wait rests on, and a value; for each signal a semaphore or its operation, and a value; for each mark its code or its
// operation.
// In a column of operations 1,024 stands for none: an element of sixteen bits has no room for an Option.
pub type QueueColumn = [u16; MOST_OPERATIONS];

pub type WaitColumn = [u16; WAIT_PLACES];

pub type WaitValues = [u64; WAIT_PLACES];

pub type SignalColumn = [u16; SIGNAL_PLACES];

pub type SignalValues = [u64; SIGNAL_PLACES];

pub type MarkColumn = [u16; MARK_PLACES];

// The rows of the operations, one after the other.
pub type Rows = [u16; ROW_PLACES];

// A mark's code is twice its buffer, and one more for a free.
pub const MARK_CODES: usize = 2 * MOST_BUFFERS;

// How many signals and marks a plan has.
#[derive(Clone, Copy, Debug, PartialEq, Eq, Hash)]
pub struct Filled {
    pub signals: usize,
    pub marks: usize,
}

// Stores operation i, read into a window, after the signals and marks of those before it; gives how many there are
// with its own. There are places for 1,024 operations, and for as many as the column of wait values has three places
// for: one past them is not stored. A signal or a mark that a column has no place for is not stored in it. With its
// counts cut to their bits no operation reaches past a window of 32.
pub fn add(
    window: &Window,
    i: u16,
    signals: u16,
    marks: u16,
    queue: &mut QueueColumn,
    wsem: &mut WaitColumn,
    wval: &mut [u64],
    ssem: &mut [u16],
    sval: &mut [u64],
    sop: &mut [u16],
    mark: &mut [u16],
    mop: &mut [u16],
) -> Filled
    ensures added { WaitPlaced i wval.old → Added window.now i 0 signals marks
        (columns queue.old wsem.old wval.old ssem.old sval.old
        sop.old mark.old mop.old)
        (columns queue.new wsem.new wval.new ssem.new sval.new
        sop.new mark.new mop.new)
        (next_at window.now 0) result.signals result.marks }
    ensures full { (WaitPlaced i wval.old → ⊥) → (result.signals ≡ signals) × (result.marks ≡ marks)
        × (columns queue.new wsem.new wval.new ssem.new sval.new
        sop.new mark.new mop.new
        ≡ columns queue.old wsem.old wval.old ssem.old sval.old
        sop.old mark.old mop.old) }
{
    let operation = i as usize;
    let before = Filled {
        signals: signals as usize,
        marks: marks as usize,
    };
    if operation >= MOST_OPERATIONS || wval.len() < MOST_WAITS * operation + MOST_WAITS {
        return before;
    }
    base_slices::put(queue, operation, low(window[0]));
    let w = put_waits(window, i, wsem, wval);
    let signals_at = 2 + 2 * w;
    let s = put_signals(window, signals_at, i, before.signals, ssem, sval, sop);
    let marks_at = signals_at + 1 + 2 * s;
    let m = put_marks(window, marks_at, i, before.marks, mark, mop);
    Filled {
        signals: before.signals + s,
        marks: before.marks + m,
    }
}

// Stores the waits of operation i at its three places, and that there is none at each place left; gives how many it
// has.
fn put_waits(window: &Window, i: u16, semaphore: &mut [u16], value: &mut [u64]) -> usize
    requires { (i < most_operations) × (wait_places ≤ length semaphore.old) ×
        (most_waits * i + most_waits ≤ length value.old) }
    ensures many { result ≡ get_or window.now 1 0 % 4 }
    ensures semaphores { semaphore.new ≡
        sets semaphore.old (3 * i) (wait_semaphores window.now result 1) }
    ensures values { value.new ≡
        sets value.old (3 * i) (wait_values window.now result 1) }
{
    let many = window[1] as usize % 4;
    let place = MOST_WAITS * (i as usize);
    for j in 0..MOST_WAITS {
        semaphore[place + j] = low(waited(window[2 + 2 * j], j, many));
        value[place + j] = waited(window[3 + 2 * j], j, many);
    }
    many
}

// The number where j is below a count, else the one that means no wait.
fn waited(x: u64, j: usize, many: usize) -> u64
    ensures { result ≡ cond (ltb j many) x no_wait }
{
    if j < many { x } else { NO_WAIT }
}

// Stores the signals of operation i; gives how many it has.
fn put_signals(
    window: &Window,
    at: usize,
    i: u16,
    had: usize,
    semaphore: &mut [u16],
    value: &mut [u64],
    operation: &mut [u16],
) -> usize
    requires { (at ≤ 8) × (i < most_operations) × (had < 65536) }
    ensures many { result ≡ get_or window.now at 0 % 4 }
    ensures semaphores { semaphore.new ≡
        sets semaphore.old had (signal_semaphores window.now result at) }
    ensures values { value.new ≡
        sets value.old had (signal_values window.now result at) }
    ensures operations { operation.new ≡ sets operation.old had (repeated result i) }
{
    let many = window[at] as usize % 4;
    for j in 0..many {
        base_slices::put(semaphore, had + j, low(window[at + 1 + 2 * j]));
        base_slices::put(value, had + j, window[at + 2 + 2 * j]);
        base_slices::put(operation, had + j, i);
    }
    many
}

// Stores the marks of operation i; gives how many it has.
fn put_marks(
    window: &Window,
    at: usize,
    i: u16,
    had: usize,
    mark: &mut [u16],
    operation: &mut [u16],
) -> usize
    requires { (at ≤ 15) × (i < most_operations) × (had < 65536) }
    ensures many { result ≡ get_or window.now at 0 % 8 }
    ensures marks { mark.new ≡
        sets mark.old had (codes_of_marks window.now result at) }
    ensures operations { operation.new ≡ sets operation.old had (repeated result i) }
{
    let many = window[at] as usize % 8;
    for j in 0..many {
        let b = window[at + 1 + 2 * j] % MOST_BUFFERS as u64;
        let f = window[at + 2 + 2 * j] % 2;
        base_slices::put(mark, had + j, (2 * b + f) as u16);
        base_slices::put(operation, had + j, i);
    }
    many
}

// The lower sixteen bits.
fn low(x: u64) -> u16
    ensures { result ≡ x % 65536 }
{
    (x % 65536) as u16
}
