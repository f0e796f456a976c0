// What is proved of the definitions that the contracts cite.
ghost use Rattle.tree.specs.Laws.{RootIsRfc, RootAlone, PathIsRfc, PathAlone, LengthIsRfc, LengthAlone, PathLength, Complete, Sound, TwoPaths, LengthCases};

// The laws of the tree: theorems, with no code.
pub fn laws_stand()
    ensures root { RootIsRfc }
    ensures root_alone { RootAlone }
    ensures path { PathIsRfc }
    ensures path_alone { PathAlone }
    ensures length { LengthIsRfc }
    ensures length_alone { LengthAlone }
    ensures path_length { PathLength }
    ensures complete { Complete }
    ensures sound { Sound }
    ensures two_paths { TwoPaths }
    ensures cases { LengthCases }
{}
