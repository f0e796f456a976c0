// The one interface to a host.
ghost use Rattle.store.specs.Store.{Answer, Fills, Meaning, Question, Sized, Told, got};
ghost use Rattle.store.specs.Store.{Question.asks_get, Question.asks_put, Question.asks_room, Question.asks_span};
ghost use Rattle.std.specs.Prelude.{◌≡◌, ⊤, true, length};

use terms::{Cause, Place};

// Where a host keeps records: a block, or the digest of a node, each at its place. Nothing is promised of a store that is not truthful:
// it may change with every question.
pub trait Store {
    ghost meaning: { Self → Meaning };

    // What a store of this make does at a question with its answer, beyond what every store does; a make may leave it out.
    ghost does: { Self → (q : Question) → Answer q → Self → Type 0 } = { λ _ _ _ _. ⊤ };

    // How many blocks the store has places for.
    fn span(&mut self) -> u32
        ensures told { Told (meaning self.old) asks_span result (meaning self.new) }
        ensures does { does self.old asks_span result self.new };

    // How many records more it takes.
    fn room(&mut self) -> u64
        ensures told { Told (meaning self.old) asks_room result (meaning self.new) }
        ensures does { does self.old asks_room result self.new };

    // Fills `out` with the record at the place. Refused, it leaves `out` as it was.
    fn get(&mut self, place: Place, out: &mut [u8]) -> Result<(), Cause>
        ensures told { Told (meaning self.old) (asks_get place (length out.old)) (got result out.new) (meaning self.new) }
        ensures out { Fills (meaning self.old) place out.old out.new }
        ensures does { does self.old (asks_get place (length out.old)) (got result out.new) self.new };

    // Sets the record at the place. Refused, it changes nothing.
    fn put(&mut self, place: Place, record: &[u8]) -> Result<(), Cause>
        ensures told { Told (meaning self.old) (asks_put place «record».now) result (meaning self.new) }
        ensures does { does self.old (asks_put place «record».now) result self.new };

    ghost sized: { (s : Self) → Sized (meaning s) };
}

// A store that always keeps its word.
pub trait Truthful: Store {
    ghost truthful: { (s : Self) → (Self.meaning s).truthful ≡ true };
}
