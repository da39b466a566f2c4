// A reader that holds the bytes of a stored plan and its place in them, and is handed on from the head to the
// operations: thin methods over the functions that read, and a function above them with plain parameters.
#![tactic(auto)]

ghost use Rattle.std.specs.Prelude.{◌≡◌};
ghost use Rattle.plan_format.specs.Meaning.{ReadMeans};
ghost use Rattle.plan_format.specs.Stored.{ReadSays};
ghost use Rattle.plan_format.specs.Told.{told_by};
ghost use Rattle.stored_numbers.specs.Reading.{head_told_by, told_for};
ghost use Rattle.stored_read.specs.Rest.{HeadingTold, RestSays};

use plan_format::{Reason, Refusal};
use stored_numbers::{RefusedFor, Why};
use stored_read::Heading;

// The bytes of a plan, lent, and a place in them.
#[derive(Clone, Copy, Debug, PartialEq, Eq, Hash)]
pub struct Reader<'a> {
    pub src: &'a [u8],
    pub at: usize,
}

impl<'a> Reader<'a> {
    // A reader at the first byte.
    pub fn new(src: &'a [u8]) -> Reader<'a>
        ensures { (result.src ≡ src.entry) × (result.at ≡ 0) }
    {
        Reader { src, at: 0 }
    }

    // The head of the plan that begins at the reader's place.
    pub fn head(self) -> Heading<Reason>
        ensures { HeadingTold self.entry.src.now self.entry.at result }
    {
        stored_read::read_heading(self.src, self.at)
    }

    // The reader handed on, to where its head ends, or where the reading of it stopped.
    pub fn moved<R: Why>(self, h: Heading<R>) -> Reader<'a>
        ensures { (result.src ≡ self.entry.src) × (result.at ≡ (head_told_by R.number h.head).at) }
    {
        let at = match h.head {
            Ok(head) => head.at,
            Err(stop) => stop.at,
        };
        Reader { src: self.src, at }
    }

    // The plan whose head was read, its operations from the reader's place on: the length of its numbers, which are in
    // front of the room; or a refusal, the head's whatever its number is, and the room untouched.
    pub fn rest<R: Why>(self, h: Heading<R>, room: &mut [u64]) -> Result<u64, RefusedFor<R>>
        ensures { RestSays R.number self.entry.src.now self.entry.at h (told_for R.number result)
            room.old room.new }
    {
        stored_read::read_rest(self.src, self.at, h, room)
    }
}

// A plan read through the struct: its head, and from there on its operations. Callers need no struct.
pub fn read_through(plan: &[u8], room: &mut [u64]) -> Result<u64, Refusal>
    ensures { ReadSays plan.now (told_by result) room.old room.new ×
        ReadMeans plan.now (told_by result) room.old room.new }
{
    let r = Reader::new(plan);
    let h = r.head();
    Ok(r.moved(h).rest(h, room)?)
}
