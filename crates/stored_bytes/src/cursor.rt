// The cursor that a writing moves by value.
ghost use Rattle.std.specs.Prelude.{◌≡◌, ◌+◌, ◌<◌, ◌^◌};

// Where a writing is: the place in the list, and how many bytes are put.
#[derive(Clone, Copy, Debug, PartialEq, Eq, Hash)]
pub struct Cursor {
    pub at: usize,
    pub put: usize,
}

impl Cursor {
    // Past a number whose `width` bytes are put.
    #[inline(always)]
    pub(crate) fn past(self, width: usize) -> Cursor
        requires { (self.at + 1 < 2 ^ 64) × (self.put + width < 2 ^ 64) }
        ensures { result ≡ record { at = self.at + 1; put = self.put + width } }
    {
        Cursor {
            at: self.at + 1,
            put: self.put + width,
        }
    }
}
