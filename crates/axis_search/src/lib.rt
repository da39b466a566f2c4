// R60, where an axis is among rising axes: a search by halving, and how many slots it reads.
#![tactic(auto)]

ghost use Rattle.std.specs.Prelude.{◌≡◌, cond, ◌≤◌, length};
ghost use Rattle.axis_search.specs.Halving.{most_slots, searched, Halving};

// The most slots that are searched.
pub const SLOTS: usize = 16;

// The slot of an axis, or none; and how many slots were read.
#[derive(Clone, Copy, Debug, PartialEq, Eq, Hash)]
pub struct Slot {
    pub at: Option<usize>,
    pub read: usize,
}

// The slot of an axis among the first `len` of rising axes. Where that is over sixteen, or more than are lent, nothing
// is read.
pub fn search(axes: &[u64], len: usize, axis: u64) -> Slot
    ensures answers { result ≡ searched axes.now axis len }
    ensures means { Halving axes.now axis len result }
{
    if SLOTS < len || axes.len() < len {
        return Slot { at: None, read: 0 };
    }
    halve(axes, len, axis)
}

// A number, or 0. Written as a choice at the call, it is a branch once compiled.
fn only_if(test: bool, n: usize) -> usize
    ensures answers { result ≡ cond test n 0 }
    ensures bounded { result ≤ n }
{
    if test {
        return n;
    }
    0
}

// The slot in the middle of those in question is read, until it is of the axis or none is left. What a slot leaves in
// question is added and taken away, not chosen: the compiler makes a branch of a choice, which no processor foresees.
// The loop counts by hand: a search by halving walks no sequence.
fn halve(axes: &[u64], len: usize, axis: u64) -> Slot
    requires { (len ≤ most_slots) × (len ≤ length axes.now) }
    ensures { result ≡ searched axes.now axis len }
{
    let mut low: usize = 0;
    let mut many = len;
    let mut read: usize = 0;
    while 0 < many {
        let half = many / 2;
        let at = low + half;
        let x = axes[at];
        read += 1;
        if x == axis {
            return Slot { at: Some(at), read };
        }
        low = low + only_if(x < axis, half + 1);
        many = half - only_if(x < axis, 1 - many % 2);
    }
    Slot { at: None, read }
}
