// What a merge judges first: the capacity, and the form of the left side.
ghost use Rattle.std.specs.Prelude.{◌≡◌};
ghost use Rattle.frontier.specs.Sides.{shown, Judged};
ghost use Rattle.frontier.specs.Walks.{laid, left_number};

use crate::lent::Filled;
use crate::side::{Formed, Slots};
use crate::{Frontier, Unfit};

impl<'a> Slots<'a> {
    // A capacity out of its limits is refused first, then slots that are not well-formed.
    pub fn judged(self, capacity: u32) -> Result<Formed<'a>, Unfit>
        ensures { Judged (left_number (shown self.entry) capacity) (shown self.entry) result }
    {
        if capacity < Frontier::LEAST {
            return Err(Unfit::Capacity);
        }
        if Frontier::MOST < capacity {
            return Err(Unfit::Capacity);
        }
        self.formed()
    }
}

// The number of a merge: a refusal's, or 0.
pub fn number(r: Result<Filled, Unfit>) -> u32
    ensures { result ≡ (laid r).number }
{
    match r {
        Ok(_) => 0,
        Err(unfit) => unfit.number(),
    }
}

// What a merge leaves in the room: nothing beside a refusal.
pub fn left(r: Result<Filled, Unfit>) -> Filled
    ensures len { result.len ≡ (laid r).len }
    ensures tainted { result.tainted ≡ (laid r).tainted }
{
    match r {
        Ok(filled) => filled,
        Err(_) => Filled {
            len: 0,
            tainted: false,
        },
    }
}
