// The sides of a walk: the slots of a frontier where they are lent, and such slots once they are known to be formed.
ghost use Rattle.std.specs.Prelude.{◌≡◌, ◌≤◌, true};
ghost use Rattle.frontier_slots.specs.Entries.{most_entries, rising_from};
ghost use Rattle.frontier_slots.specs.Slots.{slots, AllSlots};

use crate::Unfit;
use frontier_slots::formed;

// The slots of a frontier where they are lent, as they come.
#[derive(Clone, Copy)]
pub struct Slots<'a> {
    pub axes: &'a [u64],
    pub epochs: &'a [u64],
    pub len: usize,
    pub tainted: bool,
}

// R59, form: lent slots that are well-formed. Their axes rise, which the walks go by.
#[derive(Clone, Copy)]
pub struct Formed<'a> {
    pub axes: &'a [u64],
    pub epochs: &'a [u64],
    pub len: usize,
    pub tainted: bool,
    ghost few: { len ≤ most_entries },
    ghost sixteen: { AllSlots axes.now epochs.now },
    ghost rising: { rising_from 0 (slots axes.now epochs.now len 0) ≡ true },
}

impl<'a> Slots<'a> {
    ghost use Rattle.frontier.specs.Sides.{shown, form_number, Judged};

    // The same slots, if they are well-formed.
    pub fn formed(self) -> Result<Formed<'a>, Unfit>
        ensures { Judged (form_number (shown self.entry)) (shown self.entry) result }
    {
        let Slots {
            axes,
            epochs,
            len,
            tainted,
        } = self;
        if !formed(axes, epochs, len) {
            return Err(Unfit::Form);
        }
        Ok(Formed {
            axes,
            epochs,
            len,
            tainted,
        })
    }
}
