// What a stored plan comes to when it is read straight into its columns: definitions and laws of the loading, which
// `check_plan` does.
#![tactic(auto)]

// How many queues, semaphores, buffers, operations, signals and marks a plan has that the reader takes.
#[derive(Clone, Copy, Debug, PartialEq, Eq, Hash)]
pub struct Loaded {
    pub queues: u64,
    pub semaphores: u64,
    pub buffers: u64,
    pub operations: u16,
    pub signals: u16,
    pub marks: u16,
}
