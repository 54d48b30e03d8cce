// The kinds of member that the rules tell apart.
ghost use Rattle.std.specs.Prelude.{◌≡◌, ◌*◌, ◌≤◌};
ghost use Rattle.framing.specs.Kinds.{number_of};

// 5 to 8, in the order of the cases.
#[derive(Clone, Copy)]
pub enum Kind {
    Longitudinal,
    Floor,
    // a bottom transverse
    Transverse,
    // at the centre or the side
    Girder,
}

impl Kind {
    // The kind that a member's record names by its number.
    pub fn of(number: u8) -> Kind
        requires { (5 ≤ number) × (number ≤ 8) }
        ensures { number_of result ≡ number }
    {
        match number {
            5 => Kind::Longitudinal,
            6 => Kind::Floor,
            7 => Kind::Transverse,
            _ => Kind::Girder,
        }
    }
}
