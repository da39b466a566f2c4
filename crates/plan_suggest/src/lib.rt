// What is advised to a queue that is to take a buffer anew. The definitions are in specs/, their theorems in proofs/.
#![tactic(auto)]

pub mod numbers;

// R89: no wait is needed; a wait for a semaphore and its value; or no wait would help.
#[derive(Clone, Copy, Debug, PartialEq, Eq, Hash)]
pub enum Advice {
    NoneNeeded,
    Wait(usize, u64),
    NoneWouldHelp,
}
