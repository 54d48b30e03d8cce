// A plate's record in 128 bits, and the first of its fields that is outside its values.
ghost use Rattle.std.specs.Prelude.{◌≡◌};
ghost use Rattle.layout.specs.Layout.{pack, unpack, Fit};
ghost use Rattle.layout.specs.Bytes.{long_of};
ghost use Rattle.sheet.specs.Lines.{plate_widths};
ghost use Rattle.sheet.specs.Record.{plate_values, plate_at, plate_fault};

use layout::Long;
use layout::powers::{P6, P18, P20, P30, P38, P40, P49, P50, P60};
use quantity::{Quantity, Spacing, Span, SteelFactor, Thickness};
use sheet::{Plate, kinds};

// The first field outside its values, kind being 1, or 0. It goes from the last field to the first, so that the first has the last word.
pub fn fault(kind: u8, id: u16, p: Plate, spare: u32) -> u8
    ensures { result ≡ plate_fault kind id p spare }
{
    let long = kinds::is_long(kind);
    let ballast = p.ballast;
    let z = p.z.0 as u32;
    let b_low = if long { 0 } else { 10 };
    let b_high = if long { 0 } else { 1000 };
    let top_low = if ballast { z } else { 0 };
    let top_high = if ballast { 1200 } else { 0 };
    let cargo = if kinds::is_bottom(kind) { 0 } else { 200000 };
    let f = layout::fault_unless(spare, 0, 0, 12, 0);
    let f = layout::fault_unless(p.cargo, 0, cargo, 11, f);
    let f = layout::fault_unless(p.tank_top.0 as u32, top_low, top_high, 10, f);
    let f = layout::fault_unless(p.b2.0 as u32, b_low, b_high, 8, f);
    let f = layout::fault_unless(p.b1.0 as u32, b_low, b_high, 7, f);
    let f = layout::fault_unless(p.thickness.0 as u32, Thickness::LOW, Thickness::HIGH, 6, f);
    let f = layout::fault_unless(p.spacing.0 as u32, Spacing::LOW, 2000, 5, f);
    let f = layout::fault_unless(z, 0, 1000, 4, f);
    let f = layout::fault_unless(p.factor.0 as u32, SteelFactor::LOW, SteelFactor::HIGH, 3, f);
    let f = layout::fault_unless(id as u32, 1, 1000, 2, f);
    layout::fault_unless(kind as u32, 1, 4, 1, f)
}

// The plate in a number, whatever its values.
pub fn of_number(n: Long) -> Plate
    ensures { result ≡ plate_at (unpack plate_widths (long_of n)) }
{
    let hi = n.hi;
    let lo = n.lo;
    let factor = SteelFactor((hi / P40 % 1024) as u16);
    let z = Span((hi / P30 % 1024) as u16);
    let spacing = Spacing((hi / P18 % 4096) as u16);
    let thickness = Thickness((hi / P6 % 4096) as u16);
    let b1 = Span((hi % 64 * 16 + lo / P60 % 16) as u16);
    let b2 = Span((lo / P50 % 1024) as u16);
    let ballast = lo / P49 % 2 == 1;
    let tank_top = Span((lo / P38 % 2048) as u16);
    let cargo = (lo / P20 % 262144) as u32;
    Plate {
        factor,
        z,
        spacing,
        thickness,
        b1,
        b2,
        ballast,
        tank_top,
        cargo,
    }
}

pub fn number(kind: u8, id: u16, p: Plate) -> Long
    requires { Fit plate_widths (plate_values kind id p 0) }
    ensures { long_of result ≡ pack plate_widths (plate_values kind id p 0) }
{
    let b1 = p.b1.0 as u64;
    let top = (kind as u64) * P60 + (id as u64) * P50 + (p.factor.0 as u64) * P40;
    let mid = (p.z.0 as u64) * P30 + (p.spacing.0 as u64) * P18 + (p.thickness.0 as u64) * P6;
    let low = b1 % 16 * P60 + (p.b2.0 as u64) * P50 + u64::from(p.ballast) * P49;
    Long {
        hi: top + mid + b1 / 16,
        lo: low + (p.tank_top.0 as u64) * P38 + (p.cargo as u64) * P20,
    }
}
