// Laws of pipes. None of these functions changes anything: each contract is a law.
ghost use Rattle.sb_services.specs.PipeLaws.{RefusalsChangeNothing, CallsAddHandles, CallsGrantPipes, CallsGrantTheirPipe, CallsKeepCounts, CallsLeaveOthers, CallsMakeOne, MadePipesAreAsAsked, PipesHaveHandles, CallsKeepPipes, ClosesKeepPipes, ClosesLeavePipes, GrantsLeavePipes};

use crate::pipe_rows::PipeRow;
use sb_handles::pipe_handles_are_counted;
use sb_names::puts_are_found;

/// A call that answers a status other than success leaves pipes and handles as they are.
#[tactic(auto, using(crate::proofs::PipeLaws::refused_pipe_calls_change_nothing))]
pub fn refused_pipe_calls_change_nothing()
    ensures { RefusalsChangeNothing }
{}

/// A call grants one handle at most, on a pipe, and makes one pipe at most.
#[tactic(auto, using(crate::proofs::PipeLaws::calls_grant_pipes, crate::proofs::PipeLaws::calls_make_one))]
pub fn calls_grant_pipes()
    ensures granted { CallsGrantPipes }
    ensures made { CallsMakeOne }
{}

/// A call that succeeds grants its handle on the pipe that is found under the name.
#[tactic(auto, using(crate::proofs::FoundPipes::calls_grant_their_pipe))]
pub fn calls_grant_their_pipe()
    ensures { CallsGrantTheirPipe }
{
    puts_are_found::<PipeRow>();
}

/// A pipe that a call made has what was asked for; one that was there is as it was, except for the handle more; and every other
/// name leads to what it did.
#[tactic(auto, using(crate::proofs::FoundPipes::made_pipes_are_as_asked, crate::proofs::FoundPipes::calls_add_handles, crate::proofs::FoundPipes::calls_leave_others))]
pub fn pipes_are_found_where_made()
    ensures made { MadePipesAreAsAsked }
    ensures there { CallsAddHandles }
    ensures others { CallsLeaveOthers }
{
    puts_are_found::<PipeRow>();
}

/// If no more pipes were made than handles granted, so it is after each call.
#[tactic(auto, using(crate::proofs::FoundPipes::calls_keep_counts))]
pub fn pipes_come_with_handles()
    ensures { CallsKeepCounts }
{}

/// If pipes and handles agree, a pipe is there exactly while it has handles.
#[tactic(auto, using(crate::proofs::PipeLaws::pipes_have_handles))]
pub fn pipes_have_handles()
    ensures { PipesHaveHandles }
{}

/// Pipes that agree with a handle table agree after each call, after a handle on a pipe was closed in both, and after one on
/// any other object was granted or closed.
#[tactic(auto, using(crate::proofs::PipeLaws::calls_keep_pipes, crate::proofs::PipeLaws::closes_keep_pipes, crate::proofs::PipeLaws::closes_leave_pipes, crate::proofs::PipeLaws::grants_leave_pipes))]
pub fn pipe_agreement_is_kept()
    ensures calls { CallsKeepPipes }
    ensures closes { ClosesKeepPipes }
    ensures other_closes { ClosesLeavePipes }
    ensures other_grants { GrantsLeavePipes }
{
    pipe_handles_are_counted();
}
