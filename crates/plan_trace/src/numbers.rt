// The number and the values of each case of what was followed.
ghost use Rattle.std.specs.Prelude.{◌≡◌};
ghost use Rattle.plan_trace.specs.Numbers.{number_of, operation_of, wait_of};

use crate::Followed;

// Which case it is.
#[tactic(auto, unfolding(crate::specs::Numbers::number_of))]
pub fn number_of(f: Followed) -> u64
    ensures { result ≡ number_of f }
{
    match f {
        Followed::Full => 0,
        Followed::Unfinished => 1,
        Followed::Unknown(_) => 2,
        Followed::Repeated(_) => 3,
        Followed::NotFirst(_) => 4,
        Followed::WaitNotMet(_) => 5,
    }
}

// The operation of the step that departs; 0 where none does.
#[tactic(auto, unfolding(crate::specs::Numbers::operation_of))]
pub fn operation_of(f: Followed) -> usize
    ensures { result ≡ operation_of f }
{
    match f {
        Followed::Full => 0,
        Followed::Unfinished => 0,
        Followed::Unknown(i) => i,
        Followed::Repeated(i) => i,
        Followed::NotFirst(i) => i,
        Followed::WaitNotMet(u) => u.operation,
    }
}

// The wait that is not met, by its position in the operation's list; 0 where there is none.
#[tactic(auto, unfolding(crate::specs::Numbers::wait_of))]
pub fn wait_of(f: Followed) -> usize
    ensures { result ≡ wait_of f }
{
    match f {
        Followed::Full => 0,
        Followed::Unfinished => 0,
        Followed::Unknown(_) => 0,
        Followed::Repeated(_) => 0,
        Followed::NotFirst(_) => 0,
        Followed::WaitNotMet(u) => u.wait,
    }
}
