// The comparison runs no hash.
ghost use Rattle.seal.specs.Later.{later_answer, later_number, later_of};
ghost use Rattle.std.specs.Prelude.{◌≡◌};

use super::Later;
use crate::seal::Seal;
use std::cmp::Ordering;
use terms::Refusal;

impl Later {
    // The number that stands for the answer, named as `Refusal::number` is.
    pub fn number(self) -> u8
        ensures { result ≡ later_number self }
    {
        self as u8
    }
}

// No `PartialOrd`: its answer would not say which of two seals is later, but which is greater.
fn compared(first: &Seal, second: &Seal) -> Later
    ensures { result ≡ later_of first.now second.now }
{
    if first.kind() != second.kind() {
        return Later::Unrelated;
    }
    match first.count().cmp(&second.count()) {
        Ordering::Greater => Later::First,
        Ordering::Less => Later::Second,
        Ordering::Equal if first.root() == second.root() => Later::Same,
        Ordering::Equal => Later::Unrelated,
    }
}

// Which of two seals is later, by their bytes. It refuses one whose form is wrong.
pub fn later(first: &[u8], second: &[u8]) -> Result<Later, Refusal>
    ensures { result ≡ later_answer first.now second.now }
{
    let first = Seal::parse(first)?;
    let second = Seal::parse(second)?;
    Ok(compared(&first, &second))
}
