// Laws of the functions for C. None of these functions does anything: each contract is a law.
ghost use Rattle.sb_c.specs.ExportLaws.{DecisionsAreCalls, LoadsAreCalls, RepliesAreCalls, StepsAreCalls, StoresAreCalls};

/// What each function for C makes of a worker is what a call of its host makes of it. So `sb_host::hosts_are_true_to_what_they_told` holds of any calls of these
/// functions, in any order: the copy that is answered has the words that C told, and what it is told to perform is what the policy decides of them.
#[tactic(auto, using(crate::proofs::ExportCalls::decisions))]
pub fn exports_are_host_calls()
    ensures steps { StepsAreCalls }
    ensures loads { LoadsAreCalls }
    ensures stores { StoresAreCalls }
    ensures decisions { DecisionsAreCalls }
    ensures replies { RepliesAreCalls }
{}
