// A member's record in 128 bits, and the first of its fields that is outside its values.
ghost use Rattle.std.specs.Prelude.{◌≡◌, cond};
ghost use Rattle.quantity.specs.Range.{within, modulus, shear_area, steel_factor};
ghost use Rattle.layout.specs.Layout.{pack, unpack, Fit};
ghost use Rattle.layout.specs.Bytes.{long_of};
ghost use Rattle.sheet.specs.Lines.{member_widths};
ghost use Rattle.sheet.specs.Record.{member_values, member_at, member_fault};

use layout::Long;
use layout::powers::{P6, P18, P24, P28, P40, P41, P49, P50, P56, P60, P63};
use quantity::{Modulus, Quantity, ShearArea, Spacing, Span, SteelFactor, Thickness};
use sheet::{Member, kinds};

// The same of a member's last three fields: W, A and K.
fn scantling_fault(m: Member) -> u8
    ensures { result ≡ cond (within modulus m.modulus.0) (cond (within shear_area m.area.0) (cond (within steel_factor m.factor.0) 0 13) 12) 11 }
{
    let f = layout::fault_unless(
        m.factor.0 as u32,
        SteelFactor::LOW,
        SteelFactor::HIGH,
        13,
        0,
    );
    let f = layout::fault_unless(m.area.0 as u32, ShearArea::LOW, ShearArea::HIGH, 12, f);
    layout::fault_unless(m.modulus.0, Modulus::LOW, Modulus::HIGH, 11, f)
}

pub fn fault(kind: u8, id: u16, m: Member) -> u8
    ensures { result ≡ member_fault kind id m }
{
    let floor = kinds::is_floor(kind);
    let f = scantling_fault(m);
    let stress = if floor { 0 } else { 255 };
    let f = layout::fault_unless(m.stress as u32, 0, stress, 10, f);
    let eta = if floor { 100 } else { 1 };
    let f = layout::fault_unless(m.eta as u32, eta, 100, 9, f);
    let f = layout::fault_unless(m.shear as u32, 1, 100, 8, f);
    let f = layout::fault_unless(m.bending as u32, 1, 100, 7, f);
    let f = layout::fault_unless(m.thickness.0 as u32, Thickness::LOW, Thickness::HIGH, 6, f);
    let f = layout::fault_unless(m.span.0 as u32, 10, 1000, 5, f);
    let f = layout::fault_unless(m.spacing.0 as u32, Spacing::LOW, Spacing::HIGH, 4, f);
    let z = if kinds::is_deep(kind) { 0 } else { 1000 };
    let f = layout::fault_unless(m.z.0 as u32, 0, z, 3, f);
    let f = layout::fault_unless(id as u32, 1, 1000, 2, f);
    layout::fault_unless(kind as u32, 5, 8, 1, f)
}

// The member in a number, whatever its values.
pub fn of_number(n: Long) -> Member
    ensures { result ≡ member_at (unpack member_widths (long_of n)) }
{
    let hi = n.hi;
    let lo = n.lo;
    let z = Span((hi / P40 % 1024) as u16);
    let spacing = Spacing((hi / P28 % 4096) as u16);
    let span = Span((hi / P18 % 1024) as u16);
    let thickness = Thickness((hi / P6 % 4096) as u16);
    let bending = (hi % 64 * 2 + lo / P63 % 2) as u8;
    let shear = (lo / P56 % 128) as u8;
    let eta = (lo / P49 % 128) as u8;
    let stress = (lo / P41 % 256) as u8;
    let modulus = Modulus((lo / P24 % 131072) as u32);
    let area = ShearArea((lo / 1024 % 16384) as u16);
    let factor = SteelFactor((lo % 1024) as u16);
    Member {
        z,
        spacing,
        span,
        thickness,
        bending,
        shear,
        eta,
        stress,
        modulus,
        area,
        factor,
    }
}

pub fn number(kind: u8, id: u16, m: Member) -> Long
    requires { Fit member_widths (member_values kind id m) }
    ensures { long_of result ≡ pack member_widths (member_values kind id m) }
{
    let bending = m.bending as u64;
    let top = (kind as u64) * P60 + (id as u64) * P50 + (m.z.0 as u64) * P40;
    let mid = (m.spacing.0 as u64) * P28 + (m.span.0 as u64) * P18 + (m.thickness.0 as u64) * P6;
    let low = bending % 2 * P63 + (m.shear as u64) * P56 + (m.eta as u64) * P49;
    let last = (m.stress as u64) * P41 + (m.modulus.0 as u64) * P24 + (m.area.0 as u64) * 1024;
    Long {
        hi: top + mid + bending / 2,
        lo: low + last + m.factor.0 as u64,
    }
}
