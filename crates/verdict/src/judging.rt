// The seal's kind chooses the hash function.
ghost use Rattle.slip.specs.Slip.{check_answer};
ghost use Rattle.verdict.specs.Verdict.{said, verdict_of};
ghost use Rattle.std.specs.Prelude.{◌≡◌};

use crate::verdict::{Accepted, Verdict};
use hash::HashFunction;
use sha3::Sha3;
use sha256::Sha256;
use slip::check_slip;
use terms::Refusal;

// The verdict by the hash function `D`.
fn judged<D: HashFunction>(seal: &[u8], slip: &[u8]) -> Verdict
    ensures { result ≡ said (check_answer D.meaning D.KIND seal.now slip.now) }
{
    let slip = check_slip::<D>(seal, slip)?;
    Ok(Accepted {
        number: slip.number().0,
        count: slip.count(),
    })
}

// Checks the slip in `slip` under the seal in `seal`, whose kind names the hash function: 1 is SHA-256, 2 is SHA3-256.
// A hash function is a type, and no value can choose one: so the kinds are matched.
pub fn judge(seal: &[u8], slip: &[u8]) -> Verdict
    ensures { result ≡ verdict_of seal.now slip.now }
{
    match seal.get(3) {
        Some(&Sha256::KIND) => judged::<Sha256>(seal, slip),
        Some(&Sha3::KIND) => judged::<Sha3>(seal, slip),
        _ => Err(Refusal::SealForm),
    }
}
