// Policies: lists of rules over the calls of a target, the patterns that their strings have to match, the verdict of a policy by its definition, which
// policies are well made, and what it means to judge by policies. In a pattern `*` is any run of units and `?` one unit; its text is read and written here.
// Rules, their tests and actions, and the syntax of patterns follow the policies of Chromium's Windows sandbox (sandbox_policy.h, policy_low_level.h).
#![tactic(auto)]

mod actions;
mod cells;
mod checks;
mod conditions;
mod judges;
mod laws;
mod limits;
mod matching;
mod pattern_faults;
mod pattern_laws;
mod pattern_reading;
mod patterns;
mod policies;
mod verdicts;
mod well_made_policies;

pub use actions::{Action, READ_ONLY_BITS, WRITING_BITS};
pub use cells::Cell;
pub use checks::{all_well_made, is_for_readers, well_made};
pub use conditions::{Cond, Conds, Numbers, Test};
pub use judges::Judge;
pub use laws::{
    appending_keeps_verdicts, bits_read_or_write, first_rule_decides, no_rule_where_none_holds,
    rules_without_conditions_decide,
};
pub use limits::{MAX_CONDITIONS, MAX_NUMBERS, MAX_POLICIES, MAX_RULES, MAX_UNITS};
pub use pattern_faults::{PatternFault, PatternRefused};
pub use pattern_laws::{
    faults_are_leftmost, literals_match_the_same, matching_folds, star_matches_all,
    texts_and_patterns,
};
pub use patterns::Pattern;
pub use policies::{Policies, Policy, PolicyList, Rule, Rules};
pub use verdicts::{Verdict, verdict_plain};
pub use well_made_policies::{WellMadePolicies, WellMadePolicy};
