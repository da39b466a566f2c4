// Text made in lent room.
#![tactic(auto)]

ghost use Rattle.std.specs.Prelude.{◌≡◌, [], ◌∷◌, map, ℕ, take};
ghost use Rattle.base_text.specs.Text.{Puts, Adds, decimal, after_blank, blanked, spaced, refused_text};

// A number that text shows in decimal.
pub trait Number: Copy {
    ghost value: { Self → ℕ };

    fn wide(self) -> u64
        ensures { result ≡ value self };
}

impl Number for u32 {
    ghost value = { λ n. n };

    fn wide(self) -> u64 {
        u64::from(self)
    }
}

impl Number for u64 {
    ghost value = { λ n. n };

    fn wide(self) -> u64 {
        self
    }
}

// The room that is lent, and where its text ends. What goes past the end of the room is left out.
#[derive(Drop)]
pub struct Text<'a> {
    room: &'a mut [u8],
    len: usize,
}

impl<'a> Text<'a> {
    // No text yet.
    pub fn new(room: &'a mut [u8]) -> Text<'a>
        ensures same_room { result.room.ghost_name ≡ room.entry.ghost_name }
        ensures room_is { result.room.now ≡ room.old }
        ensures none { result.len ≡ 0 }
    {
        Text { room, len: 0 }
    }

    // Text from a place of the room on: the bytes before it stay, and past the end there is no room.
    pub fn from_place(room: &'a mut [u8], at: usize) -> Text<'a>
        ensures same_room { result.room.ghost_name ≡ room.entry.ghost_name }
        ensures room_is { result.room.now ≡ room.old }
        ensures place { result.len ≡ at }
    {
        Text { room, len: at }
    }

    // Where the text ends.
    pub fn len(&self) -> usize
        ensures { result ≡ self.now.len }
    {
        let Text { len, .. } = self;
        *len
    }

    // One byte.
    pub fn byte(&mut self, b: u8)
        ensures { Adds (b ∷ []) self.old self.new }
    {
        if self.len < self.room.len() {
            self.room[self.len] = b;
            self.len += 1;
        }
    }

    // Bytes as they are.
    pub fn words(&mut self, text: &[u8])
        ensures { Adds text.now self.old self.new }
    {
        for &b in text {
            self.byte(b);
        }
    }

    // A number in decimal.
    pub fn number(&mut self, n: u64)
        ensures { Adds (decimal n) self.old self.new }
    {
        let mut digits = [0u8; 20];
        let k = io::decimal(n, &mut digits);
        self.words(&digits[..k]);
    }

    // A number in decimal after a blank.
    pub fn next(&mut self, n: u64)
        ensures { Adds (after_blank n) self.old self.new }
    {
        self.byte(b' ');
        self.number(n);
    }

    // Numbers, each after a blank.
    pub fn list<T: Number>(&mut self, numbers: &[T])
        ensures { Adds (blanked (map T.value numbers.now)) self.old self.new }
    {
        for n in numbers {
            self.next(n.wide());
        }
    }

    // Numbers with a blank between.
    pub fn line(&mut self, numbers: &[u64])
        ensures { Adds (spaced numbers.now) self.old self.new }
    {
        if let Some((first, rest)) = numbers.split_first() {
            self.number(*first);
            self.list(rest);
        }
    }

    // The first n of them, or all where there are fewer, with a blank between.
    pub fn first(&mut self, numbers: &[u64], n: usize)
        ensures { Adds (spaced (take n numbers.now)) self.old self.new }
    {
        self.line(&numbers[..n.min(numbers.len())]);
    }
}

// R73: one line, `refused N P`.
pub fn refused(out: &mut [u8], number: u32, place: u64) -> usize
    ensures { Puts (refused_text number place) out.old 0 out.new result }
{
    let mut text = Text::new(out);
    text.words(b"refused");
    text.next(u64::from(number));
    text.next(place);
    text.byte(b'\n');
    text.len()
}
