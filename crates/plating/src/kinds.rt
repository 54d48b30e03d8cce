// The kinds of plate, each of which answers to the rules in its own way.
ghost use Rattle.std.specs.Prelude.{◌≡◌, ◌≤◌};
ghost use Rattle.sheet.specs.Kinds.{is_long, is_bottom};
ghost use Rattle.plating.specs.Kinds.{number_of};

// 1 to 4, in the order of the cases.
#[derive(Clone, Copy)]
pub enum Kind {
    // of the bottom, under transverse framing
    Bottom,
    LongBottom,
    Inner,
    LongInner,
}

impl Kind {
    // The kind of this number, which stands in a record within its values.
    pub fn of(number: u8) -> Kind
        requires { (1 ≤ number) × (number ≤ 4) }
        ensures { number_of result ≡ number }
    {
        match number {
            1 => Kind::Bottom,
            2 => Kind::LongBottom,
            3 => Kind::Inner,
            _ => Kind::LongInner,
        }
    }

    pub fn is_bottom(self) -> bool
        ensures { result ≡ is_bottom (number_of self) }
    {
        matches!(self, Kind::Bottom | Kind::LongBottom)
    }

    // Whether the framing is longitudinal.
    pub fn is_long(self) -> bool
        ensures { result ≡ is_long (number_of self) }
    {
        matches!(self, Kind::LongBottom | Kind::LongInner)
    }
}
