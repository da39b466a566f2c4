// The limits of a plan and the sizes made of them; specs/Sizes.antt has the same names.

// What a plan has at most.
pub const MOST_QUEUES: usize = 16;

pub const MOST_SEMAPHORES: usize = 1024;

pub const MOST_BUFFERS: usize = 256;

pub const MOST_OPERATIONS: usize = 1024;

// How many semaphores the first form has room for, the byte that the second form begins with, and the bytes of a
// semaphore's position and of the semaphore count in each.
pub const FIRST_SEMAPHORES: usize = 64;

pub const SECOND_LEAD: u8 = 242;

pub const FIRST_WIDTH: usize = 1;

pub const SECOND_WIDTH: usize = 2;

// What one operation has at most.
pub const MOST_WAITS: usize = 3;

pub const MOST_SIGNALS: usize = 2;

pub const MOST_MARKS: usize = 4;

// The least value of a wait and of a signal.
pub const LEAST_WAIT: u64 = 1;

pub const LEAST_SIGNAL: u64 = 0;

// Places for the waits, the signals and the marks of all operations.
pub const WAIT_PLACES: usize = MOST_WAITS * MOST_OPERATIONS;

pub const SIGNAL_PLACES: usize = MOST_SIGNALS * MOST_OPERATIONS;

pub const MARK_PLACES: usize = MOST_MARKS * MOST_OPERATIONS;

// A row has a place for each queue; the rows have two more than there are operations, which stay zero.
pub const ROW_WIDTH: usize = MOST_QUEUES;

pub const ROW_PLACES: usize = ROW_WIDTH * (MOST_OPERATIONS + 2);

// Room for the rows and the run of every plan.
pub const TABLE_NUMBERS: usize = ROW_WIDTH * MOST_OPERATIONS;

pub const LIST_NUMBERS: usize = 2 * MOST_OPERATIONS;

// The most numbers before the operations, of one operation and of a plan.
pub const HEAD_NUMBERS: usize = 4 + MOST_QUEUES + MOST_SEMAPHORES + MOST_BUFFERS;

pub const BLOCK_NUMBERS: usize = 4 + 2 * (MOST_WAITS + MOST_SIGNALS + MOST_MARKS);

pub const PLAN_NUMBERS: usize = HEAD_NUMBERS + MOST_OPERATIONS * BLOCK_NUMBERS;

// And the most bytes, in the second form: its lead, and each count, position and number in the bytes of its field.
pub const HEAD_BYTES: usize = 6
    + SECOND_WIDTH
    + 8 * MOST_QUEUES
    + MOST_SEMAPHORES
    + 4 * MOST_BUFFERS;

pub const BLOCK_BYTES: usize = 4
    + (SECOND_WIDTH + 8) * (MOST_WAITS + MOST_SIGNALS)
    + 3 * MOST_MARKS;

pub const PLAN_BYTES: usize = HEAD_BYTES + MOST_OPERATIONS * BLOCK_BYTES;

// The most bytes of an input in the second form that the program judges.
pub const MOST_INPUT: usize = 65536;

// A recorded trace: the bytes of a step and of the count of steps, the most steps, and the most bytes.
pub const STEP_BYTES: usize = 2;

pub const MOST_STEPS: usize = 65535;

pub const TRACE_BYTES: usize = STEP_BYTES + STEP_BYTES * MOST_STEPS;

// The state after a part of a run has a place for each queue, then one for each semaphore.
pub const STATE_SIZE: usize = MOST_QUEUES + MOST_SEMAPHORES;

// Room for the numbers of one operation, with its counts cut to their bits.
pub const WINDOW: usize = 32;

// The number that means no operation, to compute with and as a column holds it.
pub const NO_OPERATION: usize = MOST_OPERATIONS;

pub const NO_OPERATION_STORED: u16 = NO_OPERATION as u16;

// The value that means no wait: it is below the least.
pub const NO_WAIT: u64 = 0;

// The numbers before the operations, those of one operation, those of a plan, and its bytes.
pub type HeadNumbers = [u64; HEAD_NUMBERS];

pub type Window = [u64; WINDOW];

pub type Numbers = [u64; PLAN_NUMBERS];

pub type Bytes = [u8; PLAN_BYTES];
