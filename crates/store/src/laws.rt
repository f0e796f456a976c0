ghost use Rattle.store.specs.Laws.{OthersStay, PlacesAreToldApart, PutIsGot};

// What follows from a truthful store's replies: two places are told apart, what was put is got, and what lies elsewhere stays.
pub fn laws_stand()
    ensures places { PlacesAreToldApart }
    ensures put { PutIsGot }
    ensures others { OthersStay }
{}
