// The eight quantities of the sheet. Each is a type of its own, so that none can be handed over for another; each has its lowest and
// highest value, and all have one maker, which refuses what lies outside them.
#![tactic(auto)]

ghost use Rattle.std.specs.Prelude.{◌≡◌, ℕ, refl};
ghost use Rattle.quantity.specs.Range.{Range, span, spacing, thickness, modulus, shear_area, pressure, line_load, steel_factor};
ghost use Rattle.quantity.specs.Made.{Makes, Holds, held_below, told};
ghost use Rattle.quantity.specs.laws.Holding.{holds};

// A whole number with its lowest and its highest value.
pub trait Quantity: Copy {
    const LOW: u32;

    const HIGH: u32;

    ghost LOW: { ℕ };

    ghost HIGH: { ℕ };

    ghost range: { Range };

    // The highest number for which the type has room.
    ghost top: { ℕ };

    // The value that holds a number, and the number that a value holds.
    ghost of: { ℕ → Self };

    ghost number: { Self → ℕ };

    // The number in the type; one for which it has no room is held as the highest for which it has.
    fn hold(x: u64) -> Self
        ensures { result ≡ of (held_below top x) };

    // What each type keeps.
    ghost holds: { Holds range LOW HIGH top of number };

    // The number as a quantity, or none where it lies outside the range.
    final fn make(x: u64) -> Option<Self>
        ensures { Makes range LOW HIGH x (told number result) }
    {
        let range = u64::from(Self::LOW)..=u64::from(Self::HIGH);
        range.contains(&x).then(|| Self::hold(x))
    }
}

// A length, a height or a span.
#[derive(Clone, Copy)]
pub struct Span(pub u16);

impl Quantity for Span {
    const LOW: u32 = 0; // cm

    const HIGH: u32 = 13500; // cm

    ghost range = { span };

    ghost LOW = { span.low };

    ghost HIGH = { span.high };

    ghost top = { 65535 };

    ghost of = { λ x. record { 0 = x } };

    ghost number = { λ q. q.0 };

    ghost holds = { holds refl refl (λ x. refl) (λ q. refl) };

    fn hold(x: u64) -> Span {
        Span(u16::try_from(x).unwrap_or(u16::MAX))
    }
}

// The spacing S of frames.
#[derive(Clone, Copy)]
pub struct Spacing(pub u16);

impl Quantity for Spacing {
    const LOW: u32 = 100; // mm

    const HIGH: u32 = 4000; // mm

    ghost range = { spacing };

    ghost LOW = { spacing.low };

    ghost HIGH = { spacing.high };

    ghost top = { 65535 };

    ghost of = { λ x. record { 0 = x } };

    ghost number = { λ q. q.0 };

    ghost holds = { holds refl refl (λ x. refl) (λ q. refl) };

    fn hold(x: u64) -> Spacing {
        Spacing(u16::try_from(x).unwrap_or(u16::MAX))
    }
}

// The thickness T of a plate or a web.
#[derive(Clone, Copy)]
pub struct Thickness(pub u16);

impl Quantity for Thickness {
    const LOW: u32 = 1; // hundredths of a mm

    const HIGH: u32 = 4000; // hundredths of a mm

    ghost range = { thickness };

    ghost LOW = { thickness.low };

    ghost HIGH = { thickness.high };

    ghost top = { 65535 };

    ghost of = { λ x. record { 0 = x } };

    ghost number = { λ q. q.0 };

    ghost holds = { holds refl refl (λ x. refl) (λ q. refl) };

    fn hold(x: u64) -> Thickness {
        Thickness(u16::try_from(x).unwrap_or(u16::MAX))
    }
}

// The section modulus W of a member.
#[derive(Clone, Copy)]
pub struct Modulus(pub u32);

impl Quantity for Modulus {
    const LOW: u32 = 1; // tenths of a cm³

    const HIGH: u32 = 100000; // tenths of a cm³

    ghost range = { modulus };

    ghost LOW = { modulus.low };

    ghost HIGH = { modulus.high };

    ghost top = { 4294967295 };

    ghost of = { λ x. record { 0 = x } };

    ghost number = { λ q. q.0 };

    ghost holds = { holds refl refl (λ x. refl) (λ q. refl) };

    fn hold(x: u64) -> Modulus {
        Modulus(u32::try_from(x).unwrap_or(u32::MAX))
    }
}

// The shear area A of a member.
#[derive(Clone, Copy)]
pub struct ShearArea(pub u16);

impl Quantity for ShearArea {
    const LOW: u32 = 1; // hundredths of a cm²

    const HIGH: u32 = 16000; // hundredths of a cm²

    ghost range = { shear_area };

    ghost LOW = { shear_area.low };

    ghost HIGH = { shear_area.high };

    ghost top = { 65535 };

    ghost of = { λ x. record { 0 = x } };

    ghost number = { λ q. q.0 };

    ghost holds = { holds refl refl (λ x. refl) (λ q. refl) };

    fn hold(x: u64) -> ShearArea {
        ShearArea(u16::try_from(x).unwrap_or(u16::MAX))
    }
}

// A pressure P.
#[derive(Clone, Copy)]
pub struct Pressure(pub u64);

impl Quantity for Pressure {
    const LOW: u32 = 0; // thousandths of a Pa

    const HIGH: u32 = 200000000; // thousandths of a Pa

    ghost range = { pressure };

    ghost LOW = { pressure.low };

    ghost HIGH = { pressure.high };

    ghost top = { 18446744073709551615 };

    ghost of = { λ x. record { 0 = x } };

    ghost number = { λ q. q.0 };

    ghost holds = { holds refl refl (λ x. refl) (λ q. refl) };

    fn hold(x: u64) -> Pressure {
        Pressure(x)
    }
}

// The line load q on a member.
#[derive(Clone, Copy)]
pub struct LineLoad(pub u64);

impl Quantity for LineLoad {
    const LOW: u32 = 0; // N/m

    const HIGH: u32 = 416415; // N/m

    ghost range = { line_load };

    ghost LOW = { line_load.low };

    ghost HIGH = { line_load.high };

    ghost top = { 18446744073709551615 };

    ghost of = { λ x. record { 0 = x } };

    ghost number = { λ q. q.0 };

    ghost holds = { holds refl refl (λ x. refl) (λ q. refl) };

    fn hold(x: u64) -> LineLoad {
        LineLoad(x)
    }
}

// The steel factor K = 1000k.
#[derive(Clone, Copy)]
pub struct SteelFactor(pub u16);

impl Quantity for SteelFactor {
    const LOW: u32 = 500;

    const HIGH: u32 = 1000;

    ghost range = { steel_factor };

    ghost LOW = { steel_factor.low };

    ghost HIGH = { steel_factor.high };

    ghost top = { 65535 };

    ghost of = { λ x. record { 0 = x } };

    ghost number = { λ q. q.0 };

    ghost holds = { holds refl refl (λ x. refl) (λ q. refl) };

    fn hold(x: u64) -> SteelFactor {
        SteelFactor(u16::try_from(x).unwrap_or(u16::MAX))
    }
}
