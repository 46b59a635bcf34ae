// Laws of blocks and copies. None of these functions does anything: each contract is a law.
ghost use Rattle.sb_block.specs.Laws.{FetchedNumbersAreCopied, FaultlessCopiesAreWhole, LaterFaultsAreOfWholeCopies, TagsAreKnown, ParametersLieInside, ParametersHaveTheirTypes, ParametersHaveTheirSizes, ParametersAreAsMany, WellFormedWordsHaveNoFault, BlocksComeBack, FaultlessCopiesFit, UnreadWordsDoNotMatter, UpperHalvesDoNotMatter};

/// The count and the end are fetched twice and have to agree: those that were fetched before a copy
/// without a fault are those that are in it. So the copy is its words taken whole, and these alone
/// decide. A copy whose fault is of a parameter or of the tag, and not of the count or the end, is
/// its words taken whole too.
pub fn copies_are_whole()
    ensures fetched { FetchedNumbersAreCopied }
    ensures faultless { FaultlessCopiesAreWhole }
    ensures later { LaterFaultsAreOfWholeCopies }
{}

/// Word 0 of a copy without a fault is the number of its call's tag, and there are as many arguments
/// as parameters. Each parameter begins after the end item and ends within the copy. It has the type
/// that the call has there, and the size of its argument: two bytes for each unit of a string, four
/// for a number, and eight for a handle.
pub fn parameters_lie_inside()
    ensures tag { TagsAreKnown }
    ensures many { ParametersAreAsMany }
    ensures places { ParametersLieInside }
    ensures types { ParametersHaveTheirTypes }
    ensures sizes { ParametersHaveTheirSizes }
{}

/// The converse: words of a known tag that have its parameters, each in its place, of its type and
/// size, and with an argument of its kind, and that end where the end item says, have no fault.
pub fn nothing_else_is_refused()
    ensures { WellFormedWordsHaveNoFault }
{}

/// A copy without a fault has a call whose arguments fit it, whatever its words are.
pub fn faultless_copies_fit()
    ensures { FaultlessCopiesFit }
{}

/// The whole block of a call that encodes is a copy without a fault, and gives that call back. The
/// units of its strings have 16 bits.
pub fn blocks_come_back()
    ensures { BlocksComeBack }
{}

/// What is not read. Other reply words, and other bits beside the end in the end item, change
/// neither the fault nor the call. Another upper half in the word of a number does not change that
/// number; it may change another parameter, since parameters may overlap.
pub fn unread_parts_do_not_matter()
    ensures words { UnreadWordsDoNotMatter }
    ensures halves { UpperHalvesDoNotMatter }
{}
