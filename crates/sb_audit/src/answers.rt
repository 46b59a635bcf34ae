// What an audit answers.
ghost use Rattle.std.specs.Prelude.{◌≡◌};
ghost use Rattle.sb_audit.specs.Answers.{refutation};

use crate::dues::Due;

/// Where a transcript is refuted, and what is due there.
#[derive(Clone, Copy)]
pub struct Refuted {
    /// The lowest line at which a clause fails, from 1. One more than the number of lines if the transcript ends too early.
    pub line: u32,
    /// The lowest clause that fails there, from 1 to 7.
    pub clause: u32,
    /// What is due there by this clause.
    pub due: Due,
}

/// What an audit answers.
#[derive(Clone, Copy)]
pub enum AuditAnswer {
    /// No clause fails. The numbers of entry and result lines.
    Yes { entries: u64, results: u64 },
    /// A clause fails.
    No(Refuted),
}

impl AuditAnswer {
    /// No: the clause that asks for what is due fails at this line, from 1.
    pub(crate) fn refutation(line: u32, due: Due) -> AuditAnswer
        ensures { result ≡ refutation line due }
    {
        AuditAnswer::No(Refuted {
            line,
            clause: due.clause(),
            due,
        })
    }
}
