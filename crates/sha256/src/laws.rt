// What is proved of the definitions that the contracts cite.
ghost use Rattle.sha256.specs.Laws.{Examples, FirstWords, LaterWords, LeastZeros, Of32Bytes, RootedConstants, WholeBlocks};

// The laws of the definitions: theorems, with no code.
pub fn laws_stand()
    ensures zeros { LeastZeros }
    ensures blocks { WholeBlocks }
    ensures first { FirstWords }
    ensures later { LaterWords }
    ensures shape { Of32Bytes }
    ensures constants { RootedConstants }
    ensures examples { Examples }
{}
