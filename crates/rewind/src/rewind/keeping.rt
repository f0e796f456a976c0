// A rewind as a store. It is never truthful, and what it does is promised all the same.
ghost use Rattle.rewind.specs.Rewind.{RewindDoes, RewindGets, is_block_zero, untrue};
ghost use Rattle.std.specs.Prelude.{◌≡◌};
ghost use Rattle.std.proofs.Common.{rules};

use super::Rewind;
use store::Store;
use terms::{BLOCK_LENGTH, BlockNumber, Cause, Place};

// Whether the place is block 0, and the length a block's.
fn is_block_zero(place: Place, length: usize) -> bool
    ensures { result ≡ is_block_zero place length }
{
    place == Place::Block(BlockNumber(0)) && length == BLOCK_LENGTH
}

impl<S: Store> Store for Rewind<S> {
    ghost meaning = { λ s. untrue (S.meaning s.store) };

    ghost does = { RewindDoes S.meaning };

    ghost sized = { Prim.search rules };

    fn span(&mut self) -> u32 {
        self.store.span()
    }

    fn room(&mut self) -> u64 {
        self.store.room()
    }

    // Answers with the block that it remembers, and asks the store nothing; else passes on.
    fn get(&mut self, place: Place, out: &mut [u8]) -> Result<(), Cause>
        ensures answer { RewindGets S.meaning self.old place out.old result out.new self.new }
        ensures first { self.new.first ≡ self.old.first }
    {
        if let Some(block) = &self.first
            && is_block_zero(place, out.len())
        {
            out.copy_from_slice(block);
            return Ok(());
        }
        self.store.get(place, out)
    }

    // Passes on, and remembers the first block that was accepted at number 0.
    fn put(&mut self, place: Place, record: &[u8]) -> Result<(), Cause> {
        self.store.put(place, record)?;
        if self.first.is_none() && is_block_zero(place, record.len()) {
            self.first = record.as_array().copied();
        }
        Ok(())
    }
}
