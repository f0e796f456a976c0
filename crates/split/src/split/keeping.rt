// A split as a store.
ghost use Rattle.split.specs.Split.{SplitDoes, split_of};
ghost use Rattle.std.proofs.Common.{rules};

use super::Split;
use store::{Store, Truthful, admit};
use terms::{Cause, Place};

impl<B: Store, N: Store> Store for Split<B, N> {
    ghost meaning = { λ s. split_of (B.meaning s.blocks) (N.meaning s.nodes) };

    ghost does = { SplitDoes B.meaning N.meaning };

    ghost sized = { Prim.search rules };

    // The smaller span.
    fn span(&mut self) -> u32 {
        self.blocks.span().min(self.nodes.span())
    }

    // The smaller room.
    fn room(&mut self) -> u64 {
        self.blocks.room().min(self.nodes.room())
    }

    // The two stores are of two types, so the one that has a place can't be handed out: `get` and `put` each choose it.
    fn get(&mut self, place: Place, out: &mut [u8]) -> Result<(), Cause> {
        let span = self.span();
        admit(place, out.len(), span)?;
        match place {
            Place::Block(_) => self.blocks.get(place, out),
            Place::Node(_, _) => self.nodes.get(place, out),
        }
    }

    fn put(&mut self, place: Place, record: &[u8]) -> Result<(), Cause> {
        let span = self.span();
        admit(place, record.len(), span)?;
        if self.room() == 0 {
            return Err(Cause::Full);
        }
        match place {
            Place::Block(_) => self.blocks.put(place, record),
            Place::Node(_, _) => self.nodes.put(place, record),
        }
    }
}

impl<B: Truthful, N: Truthful> Truthful for Split<B, N> {
    ghost truthful = { Prim.search rules };
}
