// Laws of codes, and of what their opcodes mean. None of these functions does anything: each contract is a law.
ghost use Rattle.sb_opcode.specs.Packing.{PackingIsOneToOne};
ghost use Rattle.sb_opcode.specs.Unpacking.{PackingComesBack, RecordsComeBack};
ghost use Rattle.sb_opcode.specs.Places.{SkipLeavesWhatFollows, ForwardTakesTheFirstPlace, ForwardMissesNoPlace, EndIsTheLastPlace, ExactLeavesNothing, StarsFitNowhere};
ghost use Rattle.sb_opcode.specs.WholeGroups.{PartsAreTheList, FaultlessCodesAreWhole};

/// Words unpack to opcodes exactly if they are the packing of these, different opcodes are packed differently, and a
/// record is known from its own words.
pub fn packing_comes_back()
    ensures packed { PackingComesBack }
    ensures one_to_one { PackingIsOneToOne }
    ensures records { RecordsComeBack }
{}

/// The rules of a code, and the groups of a rule, are cut out of it without loss. A code has no fault exactly if it ends
/// with an action, each rule is whole, and each opcode suits its parameter. A whole rule has an action at its end alone,
/// without options, and each of its groups has CLEAR on its last opcode alone, looks at one parameter, and has OR on all its
/// opcodes or on none.
pub fn faultless_codes_are_whole()
    ensures parts { PartsAreTheList }
    ensures whole { FaultlessCodesAreWhole }
{}

/// A fragment fits at a place of a string if it ends within the string and each of its cells fits the unit there. `Skip`
/// leaves what follows the fragment, exactly if it fits this many units on. `Forward` takes the first place where it fits,
/// and finds none exactly if it fits nowhere. `ToEnd` leaves nothing, exactly if it fits at the end. With EXACT nothing
/// is left. A fragment with `*` fits nowhere.
pub fn fragments_stand_where_they_fit()
    ensures skip { SkipLeavesWhatFollows }
    ensures forward { ForwardTakesTheFirstPlace }
    ensures nowhere { ForwardMissesNoPlace }
    ensures end { EndIsTheLastPlace }
    ensures exact { ExactLeavesNothing }
    ensures stars { StarsFitNowhere }
{}
