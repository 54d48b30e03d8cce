// Words with marks for numbers, filled in and written behind what a page has. Where there is no room for a piece it is left out, so that nobody has to
// look at the page first.
#![tactic(auto)]

ghost use Rattle.std.specs.Prelude.{◌+◌, ◌*◌, ◌≡◌, [], ◌∷◌, ◌++◌, length};
ghost use Rattle.decimal.specs.Decimal.{decimal_of};
ghost use Rattle.wording.specs.Words.{byte_of, mark_byte, hundredths as hundredthsOf, tenths as tenthsOf, shown, named, piece_of, behind, pieces, longest_mark, room_of, most};
ghost use Rattle.wording.specs.Writes.{Writes, spot, number_most};

// A text behind what the page has before `at`.
pub fn put_text(text: &[u8], page: &mut [u8], at: usize) -> usize
    ensures { Writes (text.now ∷ []) (length text.now) (spot page.old at) (spot page.new result) }
{
    if page.len() < at {
        return at;
    }
    at + decimal::write_text(text, &mut page[at..])
}

// A number and the text after it.
fn put_number(n: u64, after: &[u8], page: &mut [u8], at: usize) -> usize
    ensures { Writes ((decimal_of n ++ after.now) ∷ []) (number_most + length after.now) (spot page.old at) (spot page.new result) }
{
    if page.len() < at {
        return at;
    }
    at + decimal::write_number(n, after, &mut page[at..])
}

fn put_hundredths(n: u64, unit: &[u8], page: &mut [u8], at: usize) -> usize
    ensures { Writes (hundredthsOf n unit.now) (4 * number_most + 3 + length unit.now) (spot page.old at) (spot page.new result) }
{
    let whole = put_number(n, b" (", page, at);
    let point = put_number(n / 100, b".", page, whole);
    let tenth = put_number(n / 10 % 10, b"", page, point);
    put_number(n % 10, unit, page, tenth)
}

fn put_tenths(n: u64, unit: &[u8], page: &mut [u8], at: usize) -> usize
    ensures { Writes (tenthsOf n unit.now) (4 * number_most + 3 + length unit.now) (spot page.old at) (spot page.new result) }
{
    let whole = put_number(n, b" (", page, at);
    let point = put_number(n / 10, b".", page, whole);
    put_number(n % 10, unit, page, point)
}

// How a number is told.
#[derive(Clone, Copy)]
enum Mark {
    Number,
    Thickness,
    Modulus,
    Area,
}

// The mark that a byte is.
fn mark_of(byte: u8) -> Option<Mark>
    ensures { mark_byte result ≡ behind 0 byte }
{
    match byte {
        b'#' => Some(Mark::Number),
        b'$' => Some(Mark::Thickness),
        b'%' => Some(Mark::Modulus),
        b'&' => Some(Mark::Area),
        _ => None,
    }
}

// A number as its mark says.
fn put_mark(mark: Mark, n: u64, page: &mut [u8], at: usize) -> usize
    ensures { Writes (shown (byte_of mark) n) (longest_mark (byte_of mark)) (spot page.old at) (spot page.new result) }
{
    match mark {
        Mark::Number => put_number(n, b"", page, at),
        Mark::Thickness => put_hundredths(n, b" mm)", page, at),
        Mark::Modulus => put_tenths(n, b" cm\xC2\xB3)", page, at),
        Mark::Area => put_hundredths(n, b" cm\xC2\xB2)", page, at),
    }
}

// The numbers that letters name: capitals those that were given, small letters the section's own.
#[derive(Clone, Copy)]
struct Registers<'a> {
    given: &'a [u64; 32],
    own: &'a [u64; 32],
}

impl Registers<'_> {
    // By the letter's last five bits, so that every byte names one.
    fn named(self, letter: u8) -> u64
        ensures { result ≡ named self.entry.given.now self.entry.own.now letter }
    {
        let k = (letter % 32) as usize;
        if letter < b'`' {
            self.given[k]
        } else {
            self.own[k]
        }
    }
}

// A byte of the words. Behind a mark it names a register; a mark writes nothing itself.
fn put_byte(
    mark: Option<Mark>,
    byte: u8,
    registers: Registers<'_>,
    page: &mut [u8],
    at: usize,
) -> usize
    ensures { Writes (piece_of registers.entry.given.now registers.entry.own.now (mark_byte mark) byte) (room_of (mark_byte mark)) (spot page.old at) (spot page.new result) }
{
    if let Some(mark) = mark {
        return put_mark(mark, registers.named(byte), page, at);
    }
    match mark_of(byte) {
        Some(_) => at,
        None => put_text(&[byte], page, at),
    }
}

// The mark that the next byte stands behind.
fn mark_behind(mark: Option<Mark>, byte: u8) -> Option<Mark>
    ensures { mark_byte result ≡ behind (mark_byte mark) byte }
{
    match mark {
        Some(_) => None,
        None => mark_of(byte),
    }
}

// The words with the registers that they name.
pub fn fill(words: &[u8], given: &[u64; 32], own: &[u64; 32], page: &mut [u8], at: usize) -> usize
    ensures { Writes (pieces given.now own.now 0 words.now) (most 0 words.now) (spot page.old at) (spot page.new result) }
{
    let registers = Registers { given, own };
    let mut next = at;
    let mut mark = None;
    for &byte in words {
        next = put_byte(mark, byte, registers, page, next);
        mark = mark_behind(mark, byte);
    }
    next
}
