// Laws of thinned scripts. None of these functions does anything: each contract is a law.
ghost use Rattle.sb_local.specs.Laws.{ActorsStay, CleanChannelsStay, DenialsAreDecisions, DeniedCallsChangeNothing, EachIsSentOrDenied, RunsOfOneThreadAreSerial, SentCallsAreForTheBroker, SettingsStay, StatementsHadTheirPlaces, ThinnedRunsAreSerial, ThinnedScriptsAreReady, ThinnedScriptsAreSound, ThinningAgainChangesNothing};
ghost use Rattle.sb_local.specs.LeftOut.{CleanCallsAreDenied, WholeBlocksAreDenied};

use sb_block::blocks_come_back;
use sb_core::{runs_are_legal, runs_fit};
use sb_statements::sound_parts;

/// Each local denial is of the call at its place of the script as it was written, and is what the broker would have decided on the whole
/// block of the call, with any mark: Denied, with the same verdict.
pub fn denials_are_decisions()
    ensures { DenialsAreDecisions }
{
    sound_parts();
    blocks_come_back();
}

/// So the broker denies a call that is left out, with the same verdict, in every run of the script as it was written in which its block is copied
/// as it was written. On a clean channel it always is: if a run leaves no thread unfinished, each reply there to a call that is left out is that of
/// an entry which is Denied so. On a channel that is written directly another block may be copied in its place, and the broker decides on that.
pub fn left_out_calls_are_denied()
    ensures whole { WholeBlocksAreDenied }
    ensures clean { CleanCallsAreDenied }
{
    denials_are_decisions();
    runs_are_legal();
    runs_fit();
}

/// Each statement of a thinned script is the one that was at its old place. Each statement of the script as it was written is sent, or is a
/// call that is denied; and no call that is sent is one that its target may deny itself.
pub fn statements_had_their_places()
    ensures places { StatementsHadTheirPlaces }
    ensures each { EachIsSentOrDenied }
    ensures sent { SentCallsAreForTheBroker }
{}

/// A thinned script is sound, and ready for the policies that the script was ready for. Its targets have their policies and channels,
/// it opens as before, it has the same actors, and the same channels are clean.
pub fn thinned_scripts_are_sound()
    ensures sound { ThinnedScriptsAreSound }
    ensures ready { ThinnedScriptsAreReady }
    ensures settings { SettingsStay }
    ensures actors { ActorsStay }
    ensures clean { CleanChannelsStay }
{}

/// Thinning a thinned script leaves out nothing.
pub fn thinning_again_changes_nothing()
    ensures { ThinningAgainChangesNothing }
{}

/// The calls that are left out change nothing: the calls that stay, performed one after another, lead to the same namespace as all calls.
pub fn denied_calls_change_nothing()
    ensures { DeniedCallsChangeNothing }
{
    blocks_come_back();
}

/// If a script has one thread, which has only calls, then the namespace after a run that leaves nothing unfinished is that of its calls
/// performed one after another. So the run of such a script thinned leads to the namespace of the script as it was written.
pub fn runs_of_one_thread_are_serial()
    ensures runs { RunsOfOneThreadAreSerial }
    ensures thinned { ThinnedRunsAreSerial }
{
    blocks_come_back();
    runs_fit();
    denied_calls_change_nothing();
    thinned_scripts_are_sound();
}
