// Where the last record for each place starts.
ghost use Rattle.logstore.specs.Index.{Agrees, slot, slots};
ghost use Rattle.logstore.specs.Records.{stop_of};
ghost use Rattle.std.specs.Prelude.{◌≡◌, true, replicate, IfOk, Some, None, slice_index_or, slice_set, vec_len};
ghost use Rattle.terms.specs.Levels.{most_blocks};
ghost use Rattle.terms.specs.Places.{inside};

use crate::records::Records;
use std::alloc::{AllocError, Global};
use terms::{MAX_BLOCKS, Place, TOP_LEVEL};

// A slot for each block, and for each node.
const SLOTS: usize = 3 * MAX_BLOCKS as usize;

// An index of a log: for each slot, where the last record for its place starts. A slot is always there: with a map, a put would need memory,
// and no store refuses one for want of it.
#[derive(Debug, Drop)]
pub(crate) struct Index {
    starts: Vec<Option<usize>>,
    ghost wide: { vec_len starts ≡ slots },
}

// The slots of an index of no records.
fn empty_slots(alloc: Global) -> Result<Vec<Option<usize>>, AllocError>
    ensures { IfOk result (λ v. v.items ≡ replicate slots None) }
{
    vec![in alloc; None; SLOTS]
}

// The slot of a place. That a place lies inside has no type of its own: a record's clauses would then read each place out of it.
fn slot_of(place: Place) -> usize
    requires { inside most_blocks place ≡ true }
    ensures { result ≡ slot place }
{
    match place {
        Place::Block(number) => number.0 as usize,
        Place::Node(level, number) => {
            let first = 1usize << (TOP_LEVEL - level.value());
            MAX_BLOCKS as usize + (first + number.0 as usize)
        }
    }
}

impl Index {
    // An index of no records.
    pub(crate) fn blank(alloc: Global) -> Result<Index, AllocError>
        ensures { IfOk result (λ i. i.starts.items ≡ replicate slots None) }
    {
        let starts = empty_slots(alloc)?;
        Ok(Index { starts })
    }

    // Forgets every record.
    pub(crate) fn clear(&mut self)
        ensures { self.new.starts.items ≡ replicate slots None }
    {
        self.starts.as_mut_slice().fill(None);
    }

    // Where the last record for a place starts.
    #[tactic(auto, using(crate::proofs::Slots::slot_low))]
    pub(crate) fn start(&self, place: Place) -> Option<usize>
        requires { inside most_blocks place ≡ true }
        ensures { result ≡ slice_index_or self.now.starts.items (slot place) None }
    {
        self.starts[slot_of(place)]
    }

    // Notes that the last record for a place starts at an offset.
    #[tactic(auto, using(crate::proofs::Slots::slot_low))]
    pub(crate) fn note(&mut self, place: Place, at: usize)
        requires { inside most_blocks place ≡ true }
        ensures { self.new.starts.items ≡ slice_set self.old.starts.items (slot place) (Some at) }
    {
        self.starts[slot_of(place)] = Some(at);
    }

    // Notes each record in a blank index, and gives the offset at which they stop.
    pub(crate) fn note_all(&mut self, bytes: &[u8]) -> usize
        requires { self.old.starts.items ≡ replicate slots None }
        ensures stop { result ≡ stop_of bytes.now }
        ensures agrees { Agrees bytes.now self.new.starts.items }
    {
        let mut stop = 0;
        for (place, part) in Records::new(bytes) {
            self.note(place, part.start);
            stop = part.end;
        }
        stop
    }
}
