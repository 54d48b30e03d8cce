// Numbers from outside as the fields of a header and a record hold them. What is too great for a field, and what a quantity's maker refuses, is held as
// the greatest number of the field, never as a cut one: it is outside every line but that of σ1, so that the field is found faulty at its own place.
ghost use Rattle.std.specs.Prelude.{◌≡◌};
ghost use Rattle.numbers.specs.Held.{held, held_in};

use quantity::Quantity;

// In eight bits.
pub fn byte(x: u32) -> u8
    ensures { result ≡ held 255 x }
{
    u8::try_from(x).unwrap_or(u8::MAX)
}

// In sixteen.
pub fn short(x: u32) -> u16
    ensures { result ≡ held 65535 x }
{
    u16::try_from(x).unwrap_or(u16::MAX)
}

// A quantity; where the number is none, one that no line allows.
pub fn quantity_of<Q: Quantity>(x: u32) -> Q
    ensures { result ≡ Q.of (held_in Q.range Q.top x) }
{
    Q::make(u64::from(x)).unwrap_or(Q::hold(u64::MAX))
}
