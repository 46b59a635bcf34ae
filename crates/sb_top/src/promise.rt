// The promise of the program, as one law.
ghost use Rattle.sb_top.specs.Promise.{PromiseIsKept};

use crate::laws::{runs_are_sound, totals_are_of_verdicts};
use sb_book::{entries_say_what_was_done, only_performed_calls_count};
use sb_link::{logs_are_of_answers, read_links_are_links, script_calls_are_resolved};
use sb_local::thinned_scripts_are_sound;
use sb_rule::{first_rule_decides, no_rule_where_none_holds};
use sb_ruletext::read_policies_are_well_made;
use sb_scripttext::{read_schedules_are_bounded, read_scripts_are_ready};
use sb_transcript::{entries_come_first, results_follow, totals_end, transcripts_tell_their_lines};

/// The promise of the program, for each command that decides calls. Nothing is asked but that arguments ended as `broker_top.ends` says, with the status Done.
///
/// Of `replay`, `run` and the run of `make`: the report is that of the run of a script under policies by a schedule, which are read of the files of the command; for
/// `run` and `make` by some order of steps, if they return. Each call that was performed is allowed by the first rule of its target's policy that holds for the call in
/// the copy, with exactly the arguments that this rule grants, and nothing else changed the namespace. Each call that was denied has such a rule, which says deny or
/// alarm, or no rule holds for it. Each block that was refused has the stated fault in its copy. The transcript that was written is the lines of these entries, in
/// order, and of no others, then those of the results, then the totals; `make` writes the line of what was made, and the totals. On clean channels each thread has its
/// own calls' replies, each once, in order.
///
/// So it is of the runs of `local` and `dup`, which write more beside the transcript. What `linked` writes is the lines of a log with one item for each call of the
/// script, and each call that was performed is allowed on its resolved names, each of which resolves to itself.
pub fn promise_is_kept<G, S>()
    ensures { PromiseIsKept G S }
{
    runs_are_sound();
    totals_are_of_verdicts();
    read_policies_are_well_made();
    read_scripts_are_ready();
    read_schedules_are_bounded();
    entries_say_what_was_done();
    only_performed_calls_count();
    first_rule_decides();
    no_rule_where_none_holds();
    transcripts_tell_their_lines();
    entries_come_first();
    results_follow();
    totals_end();
    thinned_scripts_are_sound();
    logs_are_of_answers();
    script_calls_are_resolved();
    read_links_are_links();
}
