// What is proved of the definitions that the contracts cite.
ghost use Rattle.sha3.specs.Laws.{ThetaByBits, RhoByBits, PiByBits, ChiByBits, OffsetsByRule, ConstantsByRule, WholeBlocks, LeastPadding, PaddingBits, DigestLength, DigestBytes, ExampleEmpty, ExampleAbc};

// The laws of the definitions: theorems, with no code.
pub fn laws_stand()
    ensures theta { ThetaByBits }
    ensures rho { RhoByBits }
    ensures pi { PiByBits }
    ensures chi { ChiByBits }
    ensures offsets { OffsetsByRule }
    ensures constants { ConstantsByRule }
    ensures whole { WholeBlocks }
    ensures least { LeastPadding }
    ensures padding { PaddingBits }
    ensures length { DigestLength }
    ensures bytes { DigestBytes }
    ensures empty { ExampleEmpty }
    ensures abc { ExampleAbc }
{}
