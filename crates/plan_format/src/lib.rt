// What every call on a stored plan hands back, a refusal among it, and the search that judges an axis; the format
// itself is in specs/.
#![tactic(auto)]

pub mod limits;
pub mod refusal;

ghost use Rattle.std.specs.Prelude.{◌≡◌, ◌==◌, drop};
ghost use Rattle.std.specs.List.{list_any};
ghost use Rattle.base_lists.specs.Lists.{member};
ghost use Rattle.plan_format.specs.Told.{told_by};

pub use refusal::{Reason, Refusal};

// The number of a refusal and its place, or 0 and 0 with the answer.
#[derive(Clone, Copy)]
pub struct Told {
    pub number: u32,
    pub place: u64,
    pub answer: u64,
}

// A refusal at a place.
pub fn refused(number: u32, place: usize) -> Told
    ensures { result ≡ record { number = number; place = place; answer = 0 } }
{
    forwarded(number, place as u64)
}

// The number and the place that another call told, with nothing to answer.
pub fn forwarded(number: u32, place: u64) -> Told
    ensures { result ≡ record { number = number; place = place; answer = 0 } }
{
    Told {
        number,
        place,
        answer: 0,
    }
}

// An answer, with no refusal.
pub fn answered(answer: u64) -> Told
    ensures { result ≡ record { number = 0; place = 0; answer = answer } }
{
    Told {
        number: 0,
        place: 0,
        answer,
    }
}

// What a result tells.
pub fn as_told(r: Result<u64, Refusal>) -> Told
    ensures { result ≡ told_by r }
{
    match r {
        Ok(answer) => answered(answer),
        Err(e) => forwarded(e.reason.number(), e.place),
    }
}

// Whether a number is in a list after the first.
fn is_after_first(list: &[u64], number: u64) -> bool
    ensures { result ≡ list_any (λ x. x == number) (drop 1 list.now) }
{
    list.iter().skip(1).any(|&x| x == number)
}

// Whether a number is in a list after the first: an axis among the axes, the count being in front of them.
#[tactic(auto, using(crate::proofs::Members::member_by_any))]
pub fn repeated(list: &[u64], number: u64) -> bool
    ensures { result ≡ member number (drop 1 list.now) }
{
    is_after_first(list, number)
}
