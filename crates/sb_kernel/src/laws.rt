// Laws of the namespace. None of these functions changes anything: each contract is a law.
ghost use Rattle.sb_kernel.specs.Laws.{AnswersAreShort, RefusedCallsChangeNothing, UnheldClosesChangeNothing};
ghost use Rattle.sb_kernel.specs.Openings.{OpeningsMakeFew};

use sb_services::{
    refused_event_calls_change_nothing, refused_file_calls_change_nothing,
    refused_key_calls_change_nothing, refused_pipe_calls_change_nothing,
};

/// A call that answers a status other than success, and other than that the name exists, leaves the namespace equal.
pub fn refused_calls_change_nothing()
    ensures { RefusedCallsChangeNothing }
{
    refused_file_calls_change_nothing();
    refused_pipe_calls_change_nothing();
    refused_key_calls_change_nothing();
    refused_event_calls_change_nothing();
}

/// `handle.close` of a number under which the target holds no handle is refused and leaves the namespace equal, also if
/// another target holds one under it.
#[tactic(auto, using(crate::proofs::Refusals::unheld_closes_change_nothing))]
pub fn unheld_closes_change_nothing()
    ensures { UnheldClosesChangeNothing }
{}

/// No answer of a call has more than seven extended words, so a reply carries them all.
#[tactic(auto, using(crate::proofs::Shortness::answers_are_short))]
pub fn answers_are_short()
    ensures { AnswersAreShort }
{}

/// After objects of the opening were placed in turn, each service made at most as many.
pub fn openings_make_few()
    ensures { OpeningsMakeFew }
{}
