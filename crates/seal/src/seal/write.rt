// A seal as bytes.
ghost use Rattle.seal.specs.Seal.{seal_write_answer, seal_written};
ghost use Rattle.std.specs.Prelude.{◌≡◌, ◌≤◌};
ghost use Rattle.terms.specs.Levels.{most_blocks};

use super::{ROOT_TAG, SEAL_LENGTH, Seal};
use crate::header::{COUNT_TAG, KIND_TAG};
use terms::Refusal;

impl Seal {
    // Writes the seal over the front of `out`, and answers its length. It refuses an `out` that is too short, and leaves it as it was.
    pub fn write(&self, out: &mut [u8]) -> Result<usize, Refusal>
        ensures answer { result ≡ seal_write_answer out.old }
        ensures out { out.new ≡ seal_written self.now out.old }
        ensures few { self.now.count ≤ most_blocks }
    {
        // it costs nothing, and shows what every seal keeps, for `few`
        let _ = &self.header;
        if out.len() < SEAL_LENGTH {
            return Err(Refusal::BufferShort);
        }
        // The header stands here and in slips: of its own bytes, and three writes, the search proves no whole.
        let [a, b, c, d] = self.count().to_be_bytes();
        let kind = self.kind();
        let head = [
            KIND_TAG, 0, 1, kind, COUNT_TAG, 0, 4, a, b, c, d, ROOT_TAG, 0, 32,
        ];
        out[..14].copy_from_slice(&head);
        out[14..SEAL_LENGTH].copy_from_slice(&self.root());
        Ok(SEAL_LENGTH)
    }
}
