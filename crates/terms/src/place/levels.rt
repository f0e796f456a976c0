// A level is made from a number, and gives it back.
ghost use Rattle.std.specs.Option.{option_map};
ghost use Rattle.terms.specs.Levels.{levelled};
ghost use Rattle.terms.specs.declared.place.Level.{Level as AnyLevel};
ghost use Rattle.std.specs.Prelude.{◌≡◌};

use super::{Level, TOP_LEVEL};

impl Level {
    // The level of a number; none past `TOP_LEVEL`. As with the library's `NonZero::new` there is nothing more to say of the others.
    pub fn new(value: u8) -> Option<Level>
        ensures { option_map (λ (l : AnyLevel). l.0) result ≡ levelled value }
    {
        (value <= TOP_LEVEL).then_some(Level(value))
    }

    // The number, as the library's `NonZero::get` gives it.
    pub fn value(self) -> u8
        ensures { result ≡ self.0 }
    {
        self.0
    }
}
