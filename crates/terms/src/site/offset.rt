ghost use Rattle.terms.specs.Refusals.{offset_of};
ghost use Rattle.std.specs.Prelude.{◌≡◌};

use super::Site;

impl Site {
    // The byte that is pointed at, as it is printed: 0 where that is none.
    pub fn offset(self) -> usize
        ensures { result ≡ offset_of self }
    {
        match self {
            Site::Byte(at) => at,
            Site::Record(_) | Site::Block(_) => 0,
        }
    }
}
