// What is proved of the definitions that the contracts cite.
ghost use Rattle.seal.specs.Laws.{WrittenIsRead};

// The law of seals: a theorem, with no code.
pub fn laws_stand()
    ensures { WrittenIsRead }
{}
