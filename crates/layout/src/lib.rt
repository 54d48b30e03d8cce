// Numbers of 32, 64, 96 and 128 bits in bytes, most significant byte first: read from the front of a slice and written there. Too short a
// slice is read as 0 and stays as it is, so that nobody has to look at its length first.
#![tactic(auto)]

pub mod powers;

ghost use Rattle.std.specs.Prelude.{◌≡◌, cond};
ghost use Rattle.quantity.specs.Range.{within, from};
ghost use Rattle.layout.specs.Bytes.{short_of, long_of, read_of, written_of};

// A number of 96 bits: hi · 2³² + lo.
#[derive(Clone, Copy)]
pub struct Short {
    pub hi: u64,
    pub lo: u32,
}

// A number of 128 bits: hi · 2⁶⁴ + lo.
#[derive(Clone, Copy)]
pub struct Long {
    pub hi: u64,
    pub lo: u64,
}

// Each width has its own two functions: the library has no trait over `from_be_bytes`, and one of ours would have the same bodies in its impls.
pub fn read_half(s: &[u8]) -> u32
    ensures { result ≡ read_of 4 s.now }
{
    match s.first_chunk::<4>() {
        Some(front) => u32::from_be_bytes(*front),
        None => 0,
    }
}

pub fn write_half(out: &mut [u8], w: u32)
    ensures { out.new ≡ written_of 4 w out.old }
{
    if let Some(front) = out.first_chunk_mut::<4>() {
        *front = w.to_be_bytes();
    }
}

pub fn read_word(s: &[u8]) -> u64
    ensures { result ≡ read_of 8 s.now }
{
    match s.first_chunk::<8>() {
        Some(front) => u64::from_be_bytes(*front),
        None => 0,
    }
}

pub fn write_word(out: &mut [u8], w: u64)
    ensures { out.new ≡ written_of 8 w out.old }
{
    if let Some(front) = out.first_chunk_mut::<8>() {
        *front = w.to_be_bytes();
    }
}

pub fn read_short(s: &[u8]) -> Short
    ensures { short_of result ≡ read_of 12 s.now }
{
    if s.len() < 12 {
        return Short { hi: 0, lo: 0 };
    }
    Short {
        hi: read_word(s),
        lo: read_half(&s[8..]),
    }
}

pub fn write_short(out: &mut [u8], n: Short)
    ensures { out.new ≡ written_of 12 (short_of n) out.old }
{
    if 12 <= out.len() {
        write_word(out, n.hi);
        write_half(&mut out[8..], n.lo);
    }
}

pub fn read_long(s: &[u8]) -> Long
    ensures { long_of result ≡ read_of 16 s.now }
{
    if s.len() < 16 {
        return Long { hi: 0, lo: 0 };
    }
    Long {
        hi: read_word(s),
        lo: read_word(&s[8..]),
    }
}

pub fn write_long(out: &mut [u8], n: Long)
    ensures { out.new ≡ written_of 16 (long_of n) out.old }
{
    if 16 <= out.len() {
        write_word(out, n.hi);
        write_word(&mut out[8..], n.lo);
    }
}

// One line of a layout, as the search for the first fault asks it: the field's number where x lies outside low..high, else what the later
// fields gave, 0 where there is no fault, as the definitions count fields.
pub fn fault_unless(x: u32, low: u32, high: u32, field: u8, rest: u8) -> u8
    ensures { result ≡ cond (within (from low high) x) rest field }
{
    if (low..=high).contains(&x) {
        rest
    } else {
        field
    }
}
