// One field of comma-separated text, as a number: what its bytes spell, its quotes taken away, how it ends, and where the next one starts.
#![tactic(auto)]

ghost use Rattle.std.specs.Prelude.{◌≡◌, ◌<◌, cond, drop};
ghost use Rattle.fields.specs.Number.{digit_of, longer_of, next};
ghost use Rattle.fields.specs.Marks.{feeds, after_feed, seen_at, outside, inside};
ghost use Rattle.fields.specs.Field.{field_of, field_at};
ghost use Rattle.fields.specs.Rest.{is_closed, plain_turn, closed_turn, quoted_turn, turn_of, marks_in};

// What the bytes of a field spell, so far.
#[derive(Clone, Copy)]
pub enum Num {
    Empty,
    Value(u32),
    Bad,
}

// How a field ends: with a comma or a line end, and where the next one starts; with the text; or in a fault of its quotes.
#[derive(Clone, Copy)]
pub enum Field {
    Comma { num: Num, next: usize },
    Line { num: Num, next: usize },
    End(Num),
    Fault,
}

// What stands at a place outside quotes.
#[derive(Clone, Copy)]
pub enum Seen {
    End,
    Comma,
    Line,
    // the CR of a line end
    Skip,
    Quote,
    Data(u8),
}

// Where a place outside quotes is: at a field's start, inside a plain field, or past a quote of a quoted one.
#[derive(Clone, Copy)]
pub enum Place {
    Start,
    Inside,
    Closed,
}

// Where the rest of a field that is no number goes on.
#[derive(Drop)]
enum Mode {
    Plain,
    Closed,
    Quoted,
}

// What a byte does to such a field.
#[derive(Drop)]
enum Turn {
    On(Mode),
    End,
    Comma,
    Line,
    Fault,
}

// A line feed with nothing behind it ends the last line, and starts none.
fn after_feed(text: &[u8], at: usize) -> Seen
    ensures { result ≡ after_feed (drop at text.now) }
{
    match text.get(at) {
        Some(_) => Seen::Line,
        None => Seen::End,
    }
}

// A CR is a byte like any other where no line feed follows it.
fn after_return(text: &[u8], at: usize) -> Seen
    ensures { result ≡ cond (feeds (drop at text.now)) Seen.Skip (Seen.Data 13) }
{
    match text.get(at) {
        Some(b'\n') => Seen::Skip,
        _ => Seen::Data(b'\r'),
    }
}

// What stands at a place outside quotes.
pub fn look(text: &[u8], at: usize) -> Seen
    ensures { result ≡ seen_at (drop at text.now) }
{
    match text.get(at) {
        None => Seen::End,
        Some(b',') => Seen::Comma,
        Some(b'"') => Seen::Quote,
        Some(b'\n') => after_feed(text, at + 1),
        Some(b'\r') => after_return(text, at + 1),
        Some(&b) => Seen::Data(b),
    }
}

// One digit more: none may follow a leading 0, nor nine of them.
#[tactic(auto, unfolding(crate::specs::Number::longer_of))]
fn longer(v: u32, d: u32) -> Num
    requires { d < 10 }
    ensures { result ≡ longer_of v d }
{
    match v {
        1..=99_999_999 => Num::Value(10 * v + d),
        _ => Num::Bad,
    }
}

// A digit behind what was read so far.
fn next(num: Num, d: u32) -> Num
    requires { d < 10 }
    ensures { result ≡ next num d }
{
    match num {
        Num::Empty => Num::Value(d),
        Num::Value(v) => longer(v, d),
        Num::Bad => Num::Bad,
    }
}

#[tactic(auto, unfolding(crate::specs::Number::digit_of))]
fn digit(num: Num, b: u8) -> Num
    ensures { result ≡ digit_of num b }
{
    match b {
        b'0'..=b'9' => next(num, (b - b'0') as u32),
        _ => Num::Bad,
    }
}

fn is_closed(p: Place) -> bool
    ensures { result ≡ is_closed p }
{
    matches!(p, Place::Closed)
}

fn plain_turn(k: Seen) -> Turn
    ensures { result ≡ plain_turn k }
{
    match k {
        Seen::End => Turn::End,
        Seen::Comma => Turn::Comma,
        Seen::Line => Turn::Line,
        Seen::Skip | Seen::Data(_) => Turn::On(Mode::Plain),
        Seen::Quote => Turn::Fault,
    }
}

fn closed_turn(k: Seen) -> Turn
    ensures { result ≡ closed_turn k }
{
    match k {
        Seen::End => Turn::End,
        Seen::Comma => Turn::Comma,
        Seen::Line => Turn::Line,
        Seen::Skip => Turn::On(Mode::Closed),
        Seen::Quote => Turn::On(Mode::Quoted),
        Seen::Data(_) => Turn::Fault,
    }
}

fn quoted_turn(text: &[u8], at: usize) -> Turn
    ensures { result ≡ quoted_turn (drop at text.now) }
{
    match text.get(at) {
        None => Turn::Fault,
        Some(b'"') => Turn::On(Mode::Closed),
        Some(_) => Turn::On(Mode::Quoted),
    }
}

fn turn_at(text: &[u8], at: usize, mode: Mode) -> Turn
    ensures { result ≡ turn_of (drop at text.now) mode }
{
    match mode {
        Mode::Plain => plain_turn(look(text, at)),
        Mode::Closed => closed_turn(look(text, at)),
        Mode::Quoted => quoted_turn(text, at),
    }
}

// The end of a field that is no number, in a loop: its length has no bound, and the stack has one.
fn rest(text: &[u8], at: usize, mode: Mode) -> Field
    ensures { result ≡ field_of (marks_in mode (drop at text.now) at) Num.Bad }
{
    let mut here = at;
    let mut m = mode;
    loop {
        match turn_at(text, here, m) {
            Turn::On(next) => {
                m = next;
                here += 1;
            }
            Turn::End => {
                return Field::End(Num::Bad);
            }
            Turn::Comma => {
                return Field::Comma {
                    num: Num::Bad,
                    next: here + 1,
                };
            }
            Turn::Line => {
                return Field::Line {
                    num: Num::Bad,
                    next: here + 1,
                };
            }
            Turn::Fault => {
                return Field::Fault;
            }
        }
    }
}

// A field outside quotes, from a place on; the two readers call each other while the bytes left fall, and a field that is still a number is short.
#[cycle(plain_quoted)]
fn plain(text: &[u8], at: usize, num: Num, place: Place) -> Field
    ensures { result ≡ field_of (outside (drop at text.now) at place) num }
{
    match look(text, at) {
        Seen::End => Field::End(num),
        Seen::Comma => Field::Comma { num, next: at + 1 },
        Seen::Line => Field::Line { num, next: at + 1 },
        Seen::Skip => plain(text, at + 1, num, place),
        Seen::Quote => match place {
            Place::Start => quoted(text, at + 1, num),
            Place::Inside => Field::Fault,
            Place::Closed => rest(text, at + 1, Mode::Quoted),
        },
        Seen::Data(b) => {
            if is_closed(place) {
                return Field::Fault;
            }
            match digit(num, b) {
                Num::Bad => rest(text, at + 1, Mode::Plain),
                n => plain(text, at + 1, n, Place::Inside),
            }
        }
    }
}

// The same inside quotes: what follows the closing quote is read as what follows a plain field is.
#[cycle(plain_quoted)]
fn quoted(text: &[u8], at: usize, num: Num) -> Field
    ensures { result ≡ field_of (inside (drop at text.now) at) num }
{
    match text.get(at) {
        None => Field::Fault,
        Some(b'"') => plain(text, at + 1, num, Place::Closed),
        Some(&b) => match digit(num, b) {
            Num::Bad => rest(text, at + 1, Mode::Quoted),
            n => quoted(text, at + 1, n),
        },
    }
}

// The field that starts at a place.
pub fn field_at(text: &[u8], at: usize) -> Field
    ensures { result ≡ field_at text.now at }
{
    plain(text, at, Num::Empty, Place::Start)
}
