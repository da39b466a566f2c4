// The verdicts of the reuse question; what is before what, runs and holdings are in specs/, their theorems in proofs/.
#![tactic(auto)]

// R58: the verdicts.
#[derive(Clone, Copy, Debug, PartialEq, Eq, Hash)]
pub enum Verdict {
    Fresh,
    Reusable,
    Held,
    NotOrdered,
}
