// What a recorded trace is found to be, held against a plan. The definitions are in specs/, their theorems in proofs/.
#![tactic(auto)]

pub mod numbers;

use plan_format::limits::MOST_QUEUES;

// How many operations of each queue have run.
pub type QueueCounts = [u64; MOST_QUEUES];

// A wait that is not met: its operation, and its position in that operation's list.
#[derive(Clone, Copy, Debug, PartialEq, Eq, Hash)]
pub struct Unmet {
    pub operation: usize,
    pub wait: usize,
}

// A full run, an unfinished one, or the rule that a step breaks, with the operation of the step.
#[derive(Clone, Copy, Debug, PartialEq, Eq, Hash)]
pub enum Followed {
    Full,
    Unfinished,
    Unknown(usize),
    Repeated(usize),
    NotFirst(usize),
    WaitNotMet(Unmet),
}

// The first step that departs, or the number of steps; the state before it, by the counts of the queues, which fix how
// far each semaphore had come; and what was followed.
#[derive(Clone, Copy, Debug, PartialEq, Eq, Hash)]
pub struct Traced {
    pub step: usize,
    pub state: QueueCounts,
    pub followed: Followed,
}
