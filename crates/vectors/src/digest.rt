// The digest of two parts, and how a digest is printed.
ghost use Rattle.std.specs.Prelude.{◌≡◌, ◌++◌, IfOk};

use hash::{Digest, HashFunction};
use std::{fmt, str};
use terms::{DIGEST_LENGTH, Refusal};

pub fn digest_of<D: HashFunction>(first: &[u8], second: &[u8]) -> Result<Digest, Refusal>
    ensures { IfOk result (λ d. d ≡ D.meaning (first.now ++ second.now)) }
{
    let mut digest = [0; DIGEST_LENGTH];
    D::digest(first, second, &mut digest)?;
    Ok(digest)
}

// A digest, printed in hexadecimal digits. No memory is needed for them, which might be missing.
#[derive(Clone, Copy)]
pub struct Digits(pub Digest);

impl fmt::Display for Digits {
    fn fmt<W: fmt::Write>(&self, f: &mut fmt::Formatter<W>) -> fmt::Result {
        let mut digits = [0; 2 * DIGEST_LENGTH];
        hex::encode_to_slice(self.0, &mut digits).map_err(|_| fmt::Error)?;
        f.write_str(str::from_utf8(&digits).map_err(|_| fmt::Error)?)
    }
}
