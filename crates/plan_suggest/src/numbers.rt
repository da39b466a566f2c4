// The number and the values of each case of an advice.
ghost use Rattle.std.specs.Prelude.{◌≡◌};
ghost use Rattle.plan_suggest.specs.Numbers.{number_of, semaphore_of, value_of};

use crate::Advice;

// Which case it is.
#[tactic(auto, unfolding(crate::specs::Numbers::number_of))]
pub fn number_of(a: Advice) -> u64
    ensures { result ≡ number_of a }
{
    match a {
        Advice::NoneNeeded => 0,
        Advice::Wait(_, _) => 1,
        Advice::NoneWouldHelp => 2,
    }
}

// The semaphore to wait for; 0 where there is none.
#[tactic(auto, unfolding(crate::specs::Numbers::semaphore_of))]
pub fn semaphore_of(a: Advice) -> usize
    ensures { result ≡ semaphore_of a }
{
    match a {
        Advice::NoneNeeded => 0,
        Advice::Wait(semaphore, _) => semaphore,
        Advice::NoneWouldHelp => 0,
    }
}

// The value to wait for; 0 where there is none.
#[tactic(auto, unfolding(crate::specs::Numbers::value_of))]
pub fn value_of(a: Advice) -> u64
    ensures { result ≡ value_of a }
{
    match a {
        Advice::NoneNeeded => 0,
        Advice::Wait(_, value) => value,
        Advice::NoneWouldHelp => 0,
    }
}
