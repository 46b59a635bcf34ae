// Laws of covers. None of these functions does anything: each contract is a law.
ghost use Rattle.sb_cover.specs.AskedConds.{TextsAreMatched};
ghost use Rattle.sb_cover.specs.Covers.{AnswersDecide};
ghost use Rattle.sb_cover.specs.Lengths.{NotLongerIsAsShort, SendableCallsEncode, ShortestIsSendable};
ghost use Rattle.sb_cover.specs.Modes.{NamesAreAccepted};
ghost use Rattle.sb_cover.specs.Pruning.{PrunedDecideAlike};

use sb_rule::literals_match_the_same;

/// If each rule is covered by as many rules before it as are asked for, or holds on a parameter alike, the same rules are the first that hold, whatever the
/// arguments at later parameters are.
pub(crate) fn pruned_decide_alike()
    ensures { PrunedDecideAlike }
{}

/// A test of strings holds of those that its cells match.
pub(crate) fn texts_are_matched()
    ensures { TextsAreMatched }
{
    literals_match_the_same();
}

/// The strings that are accepted from the mode before the first unit are the names.
pub(crate) fn names_are_accepted()
    ensures { NamesAreAccepted }
{}

/// The verdict of rules is that of the first rule of an answer, of whatever depth from 1 on.
pub fn answers_decide()
    ensures { AnswersDecide }
{}

/// A call is not shorter than one of the same tag that has no string longer than its own. So a shortest call of a cover is a shortest of all with its answers.
pub fn not_longer_is_as_short()
    ensures { NotLongerIsAsShort }
{}

/// If a call can be sent, so can a shortest one with its answers.
pub fn shortest_is_sendable()
    ensures { ShortestIsSendable }
{}

/// A call that fits its tag can be sent exactly if it encodes.
pub fn sendable_calls_encode()
    ensures { SendableCallsEncode }
{}
