// R77, the three numbers that a C caller lends for what it is told.
#![tactic(auto)]

ghost use Rattle.std.specs.Prelude.{◌≡◌};
ghost use Rattle.c_told.specs.Told.{told_of};

use plan_format::Told;

// Number, place and answer.
pub fn tell(r: Told, told: &mut [u64; 3])
    ensures { told_of told.new ≡ r }
{
    *told = [r.number as u64, r.place, r.answer];
}
