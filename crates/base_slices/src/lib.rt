// Total reads and writes: past the end of a slice a value that the caller gives is read, and nothing is written.
#![tactic(auto)]

ghost use Rattle.std.specs.Prelude.{◌≡◌, ◌%◌, get_or, set};

// The element at i, or `default` past the end.
pub fn get_or<T: Copy>(a: &[T], i: usize, default: T) -> T
    ensures { result ≡ get_or a.now i default }
{
    a.get(i).copied().unwrap_or(default)
}

// x, at i; nothing past the end.
pub fn put<T: Copy>(a: &mut [T], i: usize, x: T)
    ensures { a.new ≡ set a.old i x }
{
    if i < a.len() {
        a[i] = x;
    }
}

// The lower sixteen bits of v, at i; nothing past the end.
pub fn put16(a: &mut [u16], i: usize, v: usize)
    ensures { a.new ≡ set a.old i (v % 65536) }
{
    put(a, i, (v % 65536) as u16);
}

// The lower thirty-two bits of v, at i; nothing past the end.
pub fn put32(a: &mut [u32], i: usize, v: usize)
    ensures { a.new ≡ set a.old i (v % 4294967296) }
{
    put(a, i, (v % 4294967296) as u32);
}
