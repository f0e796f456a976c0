ghost use Rattle.store.specs.Store.{Kept, Told};
ghost use Rattle.store.specs.Store.{Question.asks_span};

use crate::store::{Store, Truthful};

// The span, asked by one who knows the store only by the interface.
pub fn ask_span<S: Store>(store: &mut S) -> u32
    ensures { Told (S.meaning store.old) asks_span result (S.meaning store.new) }
{
    store.span()
}

// A store that always keeps its word keeps it to one who knows it only by the interface.
pub fn keeps_its_word<S: Truthful>(store: &mut S) -> u32
    ensures { Kept (S.meaning store.old) asks_span result (S.meaning store.new) }
{
    ask_span(store)
}
