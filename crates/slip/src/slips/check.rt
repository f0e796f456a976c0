// Only a check under a seal makes a slip one that shows its block.
ghost use Rattle.std.specs.Prelude.{◌≡◌, ◌<◌, is_ok};
ghost use Rattle.slip.specs.Slip.{accepted, check_answer, under_answer};

use super::{CheckedSlip, ReadSlip};
use hash::HashFunction;
use seal::Seal;
use terms::{BlockNumber, Refusal};
use tree::{Block, root_from_path};

impl<'a> ReadSlip<'a> {
    // The slip, checked under a seal of the hash function `D`: it has to be of the seal's kind and count, and to lead to its root.
    pub fn check<D: HashFunction>(self, seal: &Seal) -> Result<CheckedSlip<'a>, Refusal>
        ensures answer { result ≡ under_answer D.meaning D.KIND self.entry seal.now }
        ensures below { self.entry.number < self.entry.count }
    {
        let ReadSlip {
            header,
            number,
            block,
            path,
        } = self;
        if !seal.is_under::<D>() {
            return Err(Refusal::SealForm);
        }
        if header != seal.header() {
            return Err(Refusal::OtherSeal);
        }
        let count = header.count;
        let root = root_from_path::<D>(number, count, block, path)?;
        if root != seal.root() {
            return Err(Refusal::SlipRoot);
        }
        Ok(CheckedSlip {
            count,
            number,
            block,
        })
    }
}

impl<'a> CheckedSlip<'a> {
    // The block: a part of the sender's own bytes.
    pub fn block(&self) -> &'a Block
        ensures { result.now ≡ self.now.block }
    {
        self.block
    }

    // The count of blocks. A slip that was read has such a method too: each of the two types shows what it has.
    pub fn count(&self) -> u32
        ensures { result ≡ self.now.count }
    {
        self.count
    }

    pub fn number(&self) -> BlockNumber
        ensures { result ≡ record { 0 = self.now.number } }
    {
        self.number
    }
}

// Checks the slip in `slip` under the seal in `seal`, by the hash function `D`. It accepts exactly the well-formed slips whose path leads to the root of a well-formed seal of the same kind and count.
pub fn check_slip<'a, D: HashFunction>(
    seal: &[u8],
    slip: &'a [u8],
) -> Result<CheckedSlip<'a>, Refusal>
    ensures answer { result ≡ check_answer D.meaning D.KIND seal.now slip.now }
    ensures accepts { is_ok result ≡ accepted D.meaning D.KIND seal.now slip.now }
{
    let seal = Seal::read::<D>(seal)?;
    ReadSlip::read(slip)?.check::<D>(&seal)
}
