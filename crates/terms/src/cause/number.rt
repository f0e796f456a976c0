ghost use Rattle.terms.specs.Refusals.{cause_number};
ghost use Rattle.std.specs.Prelude.{◌≡◌};

use super::Cause;

impl Cause {
    // The number that stands for the cause, named as `Refusal::number` is.
    pub fn number(self) -> u8
        ensures { result ≡ cause_number self }
    {
        self as u8
    }
}
