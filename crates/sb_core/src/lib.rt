// The core: the targets of a script, each with its channels, its threads and one broker worker, run one atomic step at a time on one
// thread of the machine. A schedule names every step, and each order of actors is that of a schedule.
//
// The steps are those of sb_actor's two tables. `specs/Worlds.antt` applies one row to the world, `specs/Shared.antt` says what a step
// finds and leaves there, `specs/Drains.antt` and `specs/Runs.antt` fold steps into whole runs, and
// `specs/Laws.antt` says what holds of every run. `specs/Views.antt` says what is known of a target's actors in a world,
// `specs/Rules.antt` that rule S holds of it, and `specs/OfScripts.antt` that each world of a script keeps it, whatever steps led there.
// `specs/Fits.antt` says when a report fits its script, `specs/Origins.antt` where its words come from, `specs/Tallies.antt` how many
// entries a channel has at most, `specs/EntryCounts.antt` how many a run has, and `specs/Findings.antt` why each statement ended with its result. What real threads did ends in
// `finish`: if their steps lead to a world of the script in which every thread is finished, its report is that of a run by a schedule
// (`ends_are_runs`), so that all of this holds of it.
#![tactic(auto)]

mod drains;
mod finishes;
mod laws;
mod lists;
mod rounds;
mod rules;
mod runs;
mod shared;
mod starts;
mod threads;
mod words;
mod workers;
mod worlds;

pub use finishes::finish;
pub use laws::{
    copies_are_answered, copies_are_judged, drains_settle, ends_are_runs, finished_threads_stay,
    plans_are_there, reports_have_causes, runs_are_legal, runs_are_whole, steps_are_folds,
    steps_change_little, threads_follow_their_values, turns_are_held, worlds_are_of_scripts,
    worlds_keep,
};
pub use rules::{
    entries_are_at_most_statements, no_block_is_invented, replies_are_own, rule_holds, runs_fit,
    worlds_of_scripts_invent_nothing, worlds_of_scripts_keep_rule,
};
pub use runs::{Ran, run};
pub use worlds::World;
