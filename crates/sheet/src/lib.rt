// The yard's sheet: what its header and its records hold, and why one is turned away. A value outside its range can be held, so that writing can
// refuse it.
#![tactic(auto)]

pub mod kinds;

ghost use Rattle.std.specs.Prelude.{◌≡◌};
ghost use Rattle.sheet.specs.Refusals.{number_of, place_of};
ghost use Rattle.sheet.specs.Versions.{IsVersion, version_of};
ghost use Rattle.sheet.specs.Header.{header_size, inner_modulus};
ghost use Rattle.sheet.specs.Slender.{longest_of, beyond_of, too_slender};

use quantity::{Modulus, ShearArea, Spacing, Span, SteelFactor, Thickness};

// A header: what every version holds, and what its own version holds besides.
#[derive(Clone, Copy)]
pub struct Header {
    pub version: u8,
    // L
    pub length: Span,
    // D0
    pub draught: Span,
    // H
    pub wave: Span,
    pub two_runs: bool,
    // M, kNm
    pub moment: u32,
    // ZB, cm³
    pub bottom_modulus: u32,
    // n
    pub count: u16,
    pub own: Own,
}

// What each version holds of its own: version 1 nothing, version 2 two numbers of the midship section. A case that is not the version's can be held, so
// that writing can refuse it.
#[derive(Clone, Copy)]
pub enum Own {
    One,
    Two(Section),
}

#[derive(Clone, Copy)]
pub struct Section {
    // ZDB, cm³
    pub inner_modulus: u32,
    pub depth: Span,
}

// A version of the header: its number, how many bytes the header takes, and the most records that it counts.
#[derive(Clone, Copy)]
pub struct Version {
    pub number: u8,
    pub size: usize,
    pub most: u16,
}

// The most records that any version counts.
pub const MOST: u16 = 400;

// The bytes of a record, and of the longest sheet.
pub const RECORD: usize = 16;

pub const LONGEST: usize = 20 + RECORD * (MOST as usize);

// As many as have to be read of a longer input, so that it is turned away as the whole of it would be.
pub const ENOUGH: usize = LONGEST + 1;

impl Own {
    // The version that holds this.
    pub fn version(self) -> Version
        ensures { IsVersion result (version_of self) }
    {
        match self {
            Own::One => Version {
                number: 1,
                size: 12,
                most: MOST,
            },
            Own::Two(_) => Version {
                number: 2,
                size: 20,
                most: MOST,
            },
        }
    }
}

impl Header {
    // How many bytes the header takes.
    pub fn size(self) -> usize
        ensures { result ≡ header_size self }
    {
        self.own.version().size
    }

    // The modulus of the inner bottom: ZDB, and ZB where the header has none.
    pub fn inner_modulus(self) -> u32
        ensures { result ≡ inner_modulus self }
    {
        match self.own {
            Own::One => self.bottom_modulus,
            Own::Two(section) => section.inner_modulus,
        }
    }

    // Whether the hull is longer for its depth than its waves allow; version 1, which has no depth, never says so.
    pub fn too_slender(self) -> bool
        ensures { result ≡ too_slender self }
    {
        match self.own {
            Own::One => false,
            Own::Two(section) => beyond(self.length, section.depth, self.wave),
        }
    }
}

// The greatest length of a hull of this depth; without waves it is not asked.
fn longest(depth: Span, wave: Span) -> u32
    ensures { result ≡ longest_of depth.0 wave.0 }
{
    let d = depth.0 as u32;
    if wave.0 == 60 { 35 * d } else { 25 * d }
}

fn beyond(length: Span, depth: Span, wave: Span) -> bool
    ensures { result ≡ beyond_of length.0 depth.0 wave.0 }
{
    if wave.0 == 0 {
        return false;
    }
    longest(depth, wave) < length.0 as u32
}

// What a record of kind 1 to 4 carries.
#[derive(Clone, Copy)]
pub struct Plate {
    // K
    pub factor: SteelFactor,
    pub z: Span,
    // S
    pub spacing: Spacing,
    // T
    pub thickness: Thickness,
    pub b1: Span,
    pub b2: Span,
    pub ballast: bool,
    // zL
    pub tank_top: Span,
    // Pa
    pub cargo: u32,
}

// What a record of kind 5 to 8 carries.
#[derive(Clone, Copy)]
pub struct Member {
    pub z: Span,
    // S
    pub spacing: Spacing,
    // l
    pub span: Span,
    // T
    pub thickness: Thickness,
    // βb, βs and η, in hundredths
    pub bending: u8,
    pub shear: u8,
    pub eta: u8,
    // σ1, N/mm²
    pub stress: u8,
    // W
    pub modulus: Modulus,
    // A
    pub area: ShearArea,
    // K
    pub factor: SteelFactor,
}

#[derive(Clone, Copy)]
pub enum Body {
    Plate(Plate),
    Member(Member),
}

#[derive(Clone, Copy)]
pub struct Record {
    // 1 to 8; a number, so that one that is no kind can be held, and refused
    pub kind: u8,
    pub id: u16,
    pub body: Body,
}

// A record as it stands in its bytes, with what stands in the bits that carry nothing. Neither has been tested.
#[derive(Clone, Copy)]
pub struct Raw {
    pub values: Record,
    pub spare: u32,
}

// Why a sheet, a header, a record, an edit or a text is turned away, in the order of the table. What a case carries is its place.
#[derive(Clone, Copy)]
pub enum Refusal {
    SheetShort,
    Version,
    HeaderField(u32),
    TooSlender,
    SheetLength,
    OutputShort,
    Kind(u32),
    Field(u32),
    Order(u32),
    NoSuchId,
    NoRoom,
    Text(u32),
    FieldCount(u32),
}

impl Refusal {
    // The number of the table's row.
    pub fn number(self) -> u8
        ensures { result ≡ number_of self }
    {
        match self {
            Refusal::SheetShort => 1,
            Refusal::Version => 2,
            Refusal::HeaderField(_) => 3,
            Refusal::TooSlender => 9,
            Refusal::SheetLength => 4,
            Refusal::OutputShort => 5,
            Refusal::Kind(_) => 6,
            Refusal::Field(_) => 7,
            Refusal::Order(_) => 8,
            Refusal::NoSuchId => 10,
            Refusal::NoRoom => 11,
            Refusal::Text(_) => 14,
            Refusal::FieldCount(_) => 15,
        }
    }

    // 0 where the row names no place.
    pub fn place(self) -> u32
        ensures { result ≡ place_of self }
    {
        match self {
            Refusal::HeaderField(place)
            | Refusal::Kind(place)
            | Refusal::Field(place)
            | Refusal::Order(place)
            | Refusal::Text(place)
            | Refusal::FieldCount(place) => place,
            _ => 0,
        }
    }
}
