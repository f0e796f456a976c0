// A seal from its parts, and from bytes.
ghost use Rattle.seal.specs.Forms.{tested};
ghost use Rattle.seal.specs.Seal.{is_under, fields_answer, form_answer, made_answer, seal_answer};
ghost use Rattle.terms.specs.Levels.{most_blocks};
ghost use Rattle.terms.specs.declared.refusal.Refusal.TheVariants.{SealForm};
ghost use Rattle.std.specs.Prelude.{◌≡◌, ◌≤◌};

use super::{ROOT_TAG, Seal};
use crate::header::{Header, read_head};
use fields::{BadField, Reader};
use hash::{Digest, HashFunction};
use terms::{DIGEST_LENGTH, MAX_BLOCKS, Refusal};
use tree::empty_digest;

// The seal in `bytes`; else the offset of what is wrong with its form.
fn fields(bytes: &[u8]) -> Result<Seal, BadField>
    ensures { result ≡ fields_answer bytes.now }
{
    let mut reader = Reader::new(bytes);
    let header = read_head(&mut reader, 0)?;
    let root = *reader.array::<DIGEST_LENGTH>(ROOT_TAG)?;
    reader.finish()?;
    Ok(Seal { header, root })
}

impl Seal {
    // The seal in `bytes`, by its form alone.
    pub fn parse(bytes: &[u8]) -> Result<Seal, Refusal>
        ensures { result ≡ form_answer bytes.now }
    {
        fields(bytes).map_err(|_| Refusal::SealForm)
    }

    // Whether the seal fits the hash function `D`: it has its kind, and the root of no blocks is the digest of the empty string.
    pub fn is_under<D: HashFunction>(&self) -> bool
        ensures value { result ≡ is_under D.meaning D.KIND self.now }
        ensures few { self.now.count ≤ most_blocks }
    {
        self.kind() == D::KIND && (self.count() > 0 || self.root() == empty_digest::<D>())
    }

    // The seal, if it fits the hash function `D`.
    fn kept<D: HashFunction>(self) -> Result<Seal, Refusal>
        ensures { result ≡ tested (is_under D.meaning D.KIND self) SealForm self }
    {
        if !self.is_under::<D>() {
            return Err(Refusal::SealForm);
        }
        Ok(self)
    }

    // The seal in `bytes`, which is to be one of the hash function `D`.
    pub fn read<D: HashFunction>(bytes: &[u8]) -> Result<Seal, Refusal>
        ensures { result ≡ seal_answer D.meaning D.KIND bytes.now }
    {
        Seal::parse(bytes)?.kept::<D>()
    }

    // The seal of `count` blocks with that root, under the hash function `D`. It refuses what `read` would refuse.
    pub fn new<D: HashFunction>(count: u32, root: Digest) -> Result<Seal, Refusal>
        ensures { result ≡ made_answer D.meaning D.KIND count root }
    {
        if count > MAX_BLOCKS {
            return Err(Refusal::SealForm);
        }
        let header = Header {
            kind: D::KIND,
            count,
        };
        Seal { header, root }.kept::<D>()
    }
}
