// What the kernel rests on of each service: laws of what its calls leave of objects and handles.
ghost use Rattle.sb_services.specs.EventLaws as event_laws;
ghost use Rattle.sb_services.specs.FileLaws as file_laws;
ghost use Rattle.sb_kernel.specs.Laws.{RequestsAreKept};
ghost use Rattle.sb_services.specs.KeyLaws as key_laws;
ghost use Rattle.sb_names.specs.Laws.{PutsKeepRows};
ghost use Rattle.sb_services.specs.PipeLaws as pipe_laws;
ghost use Rattle.sb_services.specs.declared.event_rows.EventRow.{EventRow};
ghost use Rattle.std.specs.Prelude.{ℕ};

use sb_names::puts_keep_rows;
use sb_services::EventRow;

// Each file.create grants its handle on what is found under the name, or changes nothing; what was there stays.
fn files_are_granted()
    ensures grants { file_laws.CreatesGrantTheirFile }
    ensures refused { file_laws.RefusalsChangeNothing }
    ensures stay { file_laws.CreatesKeepNames }
{
    sb_services::creates_grant_their_file();
    sb_services::refused_file_calls_change_nothing();
    sb_services::files_stay();
}

// A file.rename moves what was there, or changes nothing, and leaves objects and shares.
fn files_are_renamed()
    ensures moved { file_laws.RenamesMove }
    ensures objects { file_laws.RenamesKeepObjects }
    ensures refused { file_laws.RefusedRenamesChangeNothing }
{
    sb_services::renames_move_names();
    sb_services::refused_file_calls_change_nothing();
}

// Each pipe.create grants its handle on the pipe of the name, or changes nothing; no more pipes are made than handles granted.
fn pipes_are_granted()
    ensures grants { pipe_laws.CallsGrantTheirPipe }
    ensures refused { pipe_laws.RefusalsChangeNothing }
    ensures counts { pipe_laws.CallsKeepCounts }
{
    sb_services::calls_grant_their_pipe();
    sb_services::refused_pipe_calls_change_nothing();
    sb_services::pipes_come_with_handles();
}

// Each call on keys grants its handle on the key of the name, or changes nothing; what was there stays.
fn keys_are_granted()
    ensures creates { key_laws.CreatesGrantTheirKey }
    ensures refused_creates { key_laws.RefusedCreatesChangeNothing }
    ensures stay { key_laws.CreatesKeepKeys }
    ensures opens { key_laws.OpensGrantTheirKey }
    ensures refused_opens { key_laws.RefusedOpensChangeNothing }
    ensures leave { key_laws.OpensLeaveKeys }
{
    sb_services::calls_grant_their_key();
    sb_services::refused_key_calls_change_nothing();
    sb_services::keys_stay();
    sb_services::keys_are_found_where_made();
}

// Each call on events grants its handle on the event of the name, or changes nothing; what was there stays.
fn events_are_granted()
    ensures creates { event_laws.CreatesGrantTheirEvent }
    ensures refused_creates { event_laws.RefusedCreatesChangeNothing }
    ensures stay { event_laws.CreatesKeepEvents }
    ensures opens { event_laws.OpensGrantTheirEvent }
    ensures refused_opens { event_laws.RefusedOpensChangeNothing }
    ensures leave { event_laws.OpensLeaveEvents }
{
    sb_services::calls_grant_their_event();
    sb_services::refused_event_calls_change_nothing();
    sb_services::events_stay();
    sb_services::events_are_found_where_made();
}

// What is put under a name that is not there leaves all other names.
pub(crate) fn names_stay()
    ensures numbers { PutsKeepRows ℕ }
    ensures events { PutsKeepRows EventRow }
{
    puts_keep_rows::<u64>();
    puts_keep_rows::<EventRow>();
}

// What a kernel keeps of its namespace is kept by each request.
pub(crate) fn requests_are_kept()
    ensures { RequestsAreKept }
{
    files_are_granted();
    files_are_renamed();
    pipes_are_granted();
    keys_are_granted();
    events_are_granted();
    sb_services::file_agreement_is_kept();
    sb_services::pipe_agreement_is_kept();
}
