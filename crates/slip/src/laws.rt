// What is proved of the definitions that the contracts cite.
ghost use Rattle.slip.specs.Laws.{AcceptedIsTrue, AcceptsExactly, SlipLengths, TrueIsAccepted, WrittenIsRead};

// The laws of slips: theorems, with no code.
pub fn laws_stand()
    ensures accepts { AcceptsExactly }
    ensures accepted { AcceptedIsTrue }
    ensures written { WrittenIsRead }
    ensures true_accepted { TrueIsAccepted }
    ensures lengths { SlipLengths }
{}
