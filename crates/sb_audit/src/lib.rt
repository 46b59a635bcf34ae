// The audit of a transcript, whoever made it: whether a clause of the broker's promise fails in it, and at which line the first one does, and what is due there.
//
// `specs/Clauses.antt` has the seven clauses, each over the lines before a line, `specs/Dues.antt` what is due by each, and
// `specs/Audited.antt` the answer. The code reads the
// transcript once. What it keeps of the lines before is in `specs/Kept.antt`: the counts, the namespace that the performed calls led to,
// and for each thread the replies of its entries on clean channels, by the place of the call.
#![tactic(auto)]

mod answer_laws;
mod answers;
mod arguments;
mod audits;
mod contexts;
mod counts;
mod decisions;
mod dues;
mod forms;
mod laws;
mod own_places;
mod passing;
mod places;
mod printable;
mod replies;
mod results;
mod rows;
mod rules;
mod slots;
mod spots;
mod walks;

pub use answer_laws::{entries_are_right, yes_is_of_lines};
pub use answers::{AuditAnswer, Refuted};
pub use audits::audit;
pub use dues::{Due, FormDue, OwnDue, PlaceDue, ReplyDue, ResultDue, RuleDue};
pub use laws::{empty_transcripts_are_refuted, reports_that_fit_are_audited};
pub use passing::establish_audited;
pub use printable::establish_printable;
pub use spots::Spot;
