// What a reading holds: the bytes of a plan and the room for its numbers, both lent, and a cursor that moves by value.
ghost use Rattle.std.specs.Prelude.{◌≡◌, ◌+◌, ◌≤◌, ◌<◌, ◌^◌, length};

// A place in the bytes, and how many numbers are stored.
#[derive(Clone, Copy, Debug, PartialEq, Eq, Hash)]
pub struct Cursor {
    pub at: usize,
    pub got: usize,
}

impl Cursor {
    // Past a field of `width` bytes, whose number is stored.
    #[inline(always)]
    pub fn past(self, width: usize) -> Cursor
        requires { (self.at + width < 2 ^ 64) × (self.got + 1 < 2 ^ 64) }
        ensures { result ≡ record { at = self.at + width; got = self.got + 1 } }
    {
        Cursor {
            at: self.at + width,
            got: self.got + 1,
        }
    }
}

// A reader of a plan: after a refusal its cursor is where the field begins that is refused.
#[derive(Drop)]
pub struct Reader<'a> {
    pub plan: &'a [u8],
    pub numbers: &'a mut [u64],
    pub cursor: Cursor,
    ghost inside: { cursor.at ≤ length plan.now },
}
