// Why an input is refused, and where.
ghost use Rattle.std.specs.Prelude.{◌≡◌};
ghost use Rattle.plan_format.specs.Told.{number_of, refused_by};

// Why an input is refused. Its value is the number that callers in C and readers of the program's text are given.
#[derive(Clone, Copy, Debug, PartialEq, Eq, Hash)]
pub enum Reason {
    CutShort = 1,
    CountOverLimit = 2,
    BytesFollow = 3,
    NotInList = 4,
    AxisTwice = 5,
    SignalNotHigher = 7,
    WaitTooHigh = 8,
    RoomTooShort = 9,
    Stuck = 10,
    BrokenMark = 11,
    NoSuchQueue = 12,
    NoSuchBuffer = 13,
    BadFrontier = 14,
    BadCapacity = 15,
    WaitForZero = 16,
    OutOfTurn = 17,
    NoSignalFrees = 19,
    NoSuchOperation = 21,
    BadTrace = 22,
}

impl Reason {
    // The number of the reason.
    pub fn number(self) -> u32
        ensures { result ≡ number_of self }
    {
        self as u32
    }

    // The refusal for this reason at a place.
    pub fn at(self, place: usize) -> Refusal
        ensures { result ≡ refused_by self place }
    {
        Refusal {
            reason: self,
            place: place as u64,
        }
    }
}

// A reason and its place: a byte, an operation, the length that is needed or the number that was asked.
#[derive(Clone, Copy, Debug, PartialEq, Eq, Hash)]
pub struct Refusal {
    pub reason: Reason,
    pub place: u64,
}
