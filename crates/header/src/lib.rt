// The sheet's header: 96 bits in twelve bytes that every version has, and after them the bits that a version has of its own.
#![tactic(auto)]

ghost use Rattle.std.specs.Prelude.{◌≡◌, cond, ◌≤◌, ◌++◌, length, drop, eqb, Ok, Err};
ghost use Rattle.layout.specs.Layout.{pack, unpack, bytes, Fit};
ghost use Rattle.layout.specs.Line.{among, fault_from};
ghost use Rattle.layout.specs.Bytes.{short_of};
ghost use Rattle.sheet.specs.Versions.{numbered, version_of};
ghost use Rattle.sheet.specs.Lines.{waves, first_widths, own_widths};
ghost use Rattle.sheet.specs.Refusals.{given, header_refused, told_result};
ghost use Rattle.sheet.specs.Header.{first_values, own_values, own_at, header_at, raw_fault, header_fault, fields_in, own_bytes, header_needs, read_header, write_header};
ghost use Rattle.sheet.specs.Writes.{Writes};

use layout::Short;
use layout::powers::{P3, P7, P12, P20, P27, P28, P36, P37, P46, P60};
use quantity::{Quantity, Span};
use sheet::{Header, Own, Refusal, Section};

// How many bytes hold what every version has.
const FIRST: usize = 12;

// ZB and ZDB are from 1 to this.
const MODULUS_HIGH: u32 = 100000000;

// The field's number where the wave height is none of 0, 0.6 m and 1.2 m, else what the later fields gave.
fn wave_fault(x: u16, field: u8, rest: u8) -> u8
    ensures { result ≡ cond (among waves x) rest field }
{
    if matches!(x, 0 | 60 | 120) {
        rest
    } else {
        field
    }
}

// The first field of its own that is outside its values, or 0.
fn own_fault(own: Own, rest: u32) -> u8
    ensures { result ≡ fault_from 10 (version_of own).lines (own_values own rest) }
{
    match own {
        Own::One => 0,
        Own::Two(section) => {
            let f = layout::fault_unless(rest, 0, 0, 12, 0);
            let f = layout::fault_unless(section.depth.0 as u32, 100, 1000, 11, f);
            layout::fault_unless(section.inner_modulus, 1, MODULUS_HIGH, 10, f)
        }
    }
}

// The first field outside its values, version being 1, or 0. It goes from the last field to the first, so that the first has the last word.
fn fault(h: Header, spare: u32, rest: u32) -> u8
    ensures { result ≡ raw_fault h spare rest }
{
    let version = h.own.version();
    let f = own_fault(h.own, rest);
    let f = layout::fault_unless(spare, 0, 0, 9, f);
    let f = layout::fault_unless(h.count as u32, 0, version.most as u32, 8, f);
    let f = layout::fault_unless(h.bottom_modulus, 1, MODULUS_HIGH, 7, f);
    let f = layout::fault_unless(h.moment, 0, 1000000, 6, f);
    let f = wave_fault(h.wave.0, 4, f);
    let f = layout::fault_unless(h.draught.0 as u32, 1, 1000, 3, f);
    let f = layout::fault_unless(h.length.0 as u32, 4000, Span::HIGH, 2, f);
    let number = version.number as u32;
    layout::fault_unless(h.version as u32, number, number, 1, f)
}

// What a version has of its own in a number of 64 bits, whatever its values.
fn own_of(version: u8, n: u64) -> Own
    ensures { result ≡ own_at version (unpack (own_widths (numbered version)) n) }
{
    if version == 2 {
        Own::Two(Section {
            inner_modulus: (n / P37 % P27) as u32,
            depth: Span((n / P27 % 1024) as u16),
        })
    } else {
        Own::One
    }
}

// The header in a number of 96 bits and one of 64, whatever its values.
fn header_of(n: Short, rest: u64) -> Header
    ensures { result ≡ header_at (fields_in (short_of n) rest) }
{
    let hi = n.hi;
    let lo = n.lo as u64;
    let version = (hi / P60 % 16) as u8;
    let length = Span((hi / P46 % 16384) as u16);
    let draught = Span((hi / P36 % 1024) as u16);
    let wave = Span((hi / P28 % 256) as u16);
    let two_runs = hi / P27 % 2 == 1;
    let moment = (hi / P7 % P20) as u32;
    let bottom_modulus = (hi % P7 * P20 + lo / P12 % P20) as u32;
    let count = (lo / P3 % 512) as u16;
    let own = own_of(version, rest);
    Header {
        version,
        length,
        draught,
        wave,
        two_runs,
        moment,
        bottom_modulus,
        count,
        own,
    }
}

// What every version has, as a number.
fn number_of(h: Header) -> Short
    requires { Fit first_widths (first_values h 0) }
    ensures { short_of result ≡ pack first_widths (first_values h 0) }
{
    let modulus = h.bottom_modulus as u64;
    let top = (h.version as u64) * P60 + (h.length.0 as u64) * P46 + (h.draught.0 as u64) * P36;
    let mid = (h.wave.0 as u64) * P28 + u64::from(h.two_runs) * P27 + (h.moment as u64) * P7;
    let hi = top + mid + modulus / P20;
    let lo = (modulus % P20 * P12 + (h.count as u64) * P3) as u32;
    Short { hi, lo }
}

// What the first fault of a header says, or nothing where there is none: a faulty version is its own refusal; of another field the place is its number.
fn outcome(f: u8) -> Result<(), Refusal>
    ensures { result ≡ cond (eqb f 0) (Ok tt) (Err (cond (eqb f 1) Refusal.Version (Refusal.HeaderField f))) }
{
    match f {
        0 => Ok(()),
        1 => Err(Refusal::Version),
        _ => Err(Refusal::HeaderField(f as u32)),
    }
}

pub fn header_fault(h: Header) -> Result<(), Refusal>
    ensures { told_result result ≡ header_refused (header_fault h) (given tt) }
{
    outcome(fault(h, 0, 0))
}

// How many bytes a header needs: twelve, in which its version stands, and the version's own where that goes with what the header holds.
fn needs(h: Header) -> usize
    ensures { result ≡ header_needs h }
{
    let version = h.own.version();
    if h.version == version.number {
        version.size
    } else {
        FIRST
    }
}

// The header in the first bytes, or why there is none. Its version is looked at before there have to be more than twelve bytes.
pub fn read_header(s: &[u8]) -> Result<Header, Refusal>
    ensures { told_result result ≡ read_header s.now }
{
    if s.len() < FIRST {
        return Err(Refusal::SheetShort);
    }
    let n = layout::read_short(s);
    let rest = layout::read_word(&s[FIRST..]);
    let h = header_of(n, rest);
    if s.len() < needs(h) {
        return Err(Refusal::SheetShort);
    }
    outcome(fault(h, n.lo % 8, (rest % P27) as u32))?;
    Ok(h)
}

// What a version has of its own, as a number.
fn own_number(own: Own) -> u64
    requires { Fit (own_widths (version_of own)) (own_values own 0) }
    ensures { result ≡ pack (own_widths (version_of own)) (own_values own 0) }
{
    match own {
        Own::One => 0,
        Own::Two(section) => (section.inner_modulus as u64) * P37 + (section.depth.0 as u64) * P27,
    }
}

// What a version has of its own into the first bytes.
fn write_own(own: Own, out: &mut [u8])
    requires { Fit (own_widths (version_of own)) (own_values own 0) × (own_bytes (version_of own) ≤ length out.old) }
    ensures { out.new ≡ unpack (bytes (own_bytes (version_of own))) (pack (own_widths (version_of own)) (own_values own 0)) ++ drop (own_bytes (version_of own)) out.old }
{
    if FIRST < own.version().size {
        layout::write_word(out, own_number(own));
    }
}

// The header into the first bytes, or why not.
pub fn write_header(h: Header, out: &mut [u8]) -> Result<(), Refusal>
    ensures { Writes (write_header h out.old) (told_result result) out.new }
{
    if out.len() < needs(h) {
        return Err(Refusal::OutputShort);
    }
    outcome(fault(h, 0, 0))?;
    layout::write_short(out, number_of(h));
    write_own(h.own, &mut out[FIRST..]);
    Ok(())
}
