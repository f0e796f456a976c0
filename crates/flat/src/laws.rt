ghost use Rattle.flat.specs.Laws.{PlacesFit, PlacesLieApart, SpanCases, SpanIsTheLargest};
ghost use Rattle.flat.specs.Views.{flat_of};
ghost use Rattle.store.specs.Store.{Kept};
ghost use Rattle.store.specs.Store.{Question.asks_span};

use crate::flat::Flat;

// The laws of the layout: theorems, with no code.
pub fn laws_stand()
    ensures span { SpanIsTheLargest }
    ensures apart { PlacesLieApart }
    ensures fit { PlacesFit }
    ensures cases { SpanCases }
{}

// A flat store keeps its word to one who knows it only by the interface. A function of its own says of this make that what the interface
// calls its meaning is what its bytes mean.
pub fn keeps_its_word(flat: &mut Flat) -> u32
    ensures { Kept (flat_of flat.old) asks_span result (flat_of flat.new) }
{
    store::keeps_its_word(flat)
}
