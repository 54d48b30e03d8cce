// The line of a text that is at fault, on standard error. Only bytes that print reach a terminal: any other is shown by its number.
ghost use Rattle.std.specs.Prelude.{◌≡◌, ◌+◌, ◌*◌, ◌≤◌, ◌<◌, length};
ghost use Rattle.decimal.specs.Laid.{Laid};
ghost use Rattle.barge_text.specs.Shown.{ends_here, IsLine, is_printed, hex_digit, shown_byte, shown};

use std::io::Write;

// So many bytes of a line are shown, each in four at most.
const MOST: usize = 120;

const SPACE: usize = 480;

// Whether a line ends before these bytes: at LF, or at CR with LF behind it.
fn ends_here(rest: &[u8]) -> bool
    ensures { result ≡ ends_here rest.now }
{
    matches!(rest, [b'\n', ..] | [b'\r', b'\n', ..])
}

// How many bytes stand before the first line end.
fn line_length(text: &[u8]) -> usize
    ensures { IsLine text.now result }
{
    for i in 0..text.len() {
        if ends_here(&text[i..]) {
            return i;
        }
    }
    text.len()
}

fn prints(byte: u8) -> bool
    ensures { result ≡ is_printed byte }
{
    matches!(byte, b' '..=b'~')
}

// A digit of base 16.
fn hex(n: u8) -> u8
    requires { n < 16 }
    ensures { result ≡ hex_digit n }
{
    match n {
        0..=9 => b'0' + n,
        _ => b'A' + (n - 10),
    }
}

fn put(text: &[u8], out: &mut [u8], at: usize) -> usize
    requires { at + length text.now ≤ length out.old }
    ensures { Laid out.old at text.now result out.new }
{
    at + decimal::write_text(text, &mut out[at..])
}

// A byte as it is shown: itself where it prints, else `\x` and its two digits.
fn put_byte(byte: u8, out: &mut [u8], at: usize) -> usize
    requires { at + 4 ≤ length out.old }
    ensures { Laid out.old at (shown_byte byte) result out.new }
{
    if prints(byte) {
        return put(&[byte], out, at);
    }
    let spelled = [b'\\', b'x', hex(byte / 16), hex(byte % 16)];
    put(&spelled, out, at)
}

fn put_bytes(line: &[u8], out: &mut [u8]) -> usize
    requires { 4 * length line.now ≤ length out.old }
    ensures { Laid out.old 0 (shown line.now) result out.new }
{
    let mut at = 0;
    for &byte in line {
        at = put_byte(byte, out, at);
    }
    at
}

fn print_bytes(err: &mut impl Write, line: &[u8])
    requires { length line.now ≤ 120 }
{
    let mut out = [0u8; SPACE];
    let end = put_bytes(line, &mut out);
    let _ = err.write_all(&out[..end]);
}

// The first bytes of a line, and whether there are more.
fn print_line(err: &mut impl Write, line: &[u8]) {
    if MOST < line.len() {
        print_bytes(err, &line[..MOST]);
        let _ = err.write_all(b" ...");
    } else {
        print_bytes(err, line);
    }
}

fn print_first(err: &mut impl Write, text: &[u8]) {
    let len = line_length(text);
    print_line(err, &text[..len]);
}

// The line with this number, the first being 1.
pub fn line(err: &mut impl Write, text: &[u8], number: u32) {
    let _ = write!(err, "line {number}: ");
    let at = text::line_start(text, number);
    if at < text.len() {
        print_first(err, &text[at..]);
    }
    let _ = err.write_all(b"\n");
}
