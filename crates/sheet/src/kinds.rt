// What the kinds of a record are: the tests that its lines rest on.
ghost use Rattle.std.specs.Prelude.{◌≡◌};
ghost use Rattle.sheet.specs.Kinds.{is_long, is_bottom, is_floor, is_deep};

pub fn is_long(kind: u8) -> bool
    ensures { result ≡ is_long kind }
{
    matches!(kind, 2 | 4)
}

pub fn is_bottom(kind: u8) -> bool
    ensures { result ≡ is_bottom kind }
{
    kind <= 2
}

pub fn is_deep(kind: u8) -> bool
    ensures { result ≡ is_deep kind }
{
    6 <= kind
}

pub fn is_floor(kind: u8) -> bool
    ensures { result ≡ is_floor kind }
{
    matches!(kind, 6 | 7)
}
