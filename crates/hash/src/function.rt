// The interface to a hash function.
ghost use Rattle.hash.specs.Hash.{answered, written};
ghost use Rattle.hash.specs.Messages.{text};
ghost use Rattle.std.specs.Prelude.{◌≡◌, ℕ, ◌<◌, List, length};

use crate::message::Message;
use terms::{DIGEST_LENGTH, Refusal};

// What a hash function gives.
pub type Digest = [u8; DIGEST_LENGTH];

// A hash function: `meaning` takes the bytes of a message to its digest, and `KIND`, which is never 0, stands for the function in seals and slips.
pub trait HashFunction {
    // A number and no enum: the tree, seals and slips are for hash functions that are not known here.
    const KIND: u8;

    ghost KIND: { ℕ };

    ghost meaning: { List ℕ → List ℕ };

    // The digest of a message.
    fn hash(message: Message<'_>) -> Digest
        ensures { result ≡ meaning (text message.entry) };

    // Writes the digest of `first` and then `second`. A part of more than `MAX_PART` bytes is refused, and `out` is left as it was.
    final fn digest(first: &[u8], second: &[u8], out: &mut Digest) -> Result<(), Refusal>
        ensures answer { result ≡ answered first.now second.now }
        ensures out { out.new ≡ written meaning first.now second.now out.old }
    {
        *out = Self::hash(Message::new(first, second)?);
        Ok(())
    }

    ghost sized: { (m : List ℕ) → length (meaning m) ≡ 32 };

    ghost named: { (0 < KIND) × (KIND < 256) };
}
