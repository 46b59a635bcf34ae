// The totals of the lines that were read.
ghost use Rattle.std.specs.Prelude.{◌≡◌, ◌<◌, ◌^◌};
ghost use Rattle.sb_audit.specs.Clauses.{same_totals};
ghost use Rattle.sb_audit.specs.Kept.{AreAtMost, no_totals, with_entry, with_result};

use sb_transcript::{ShownDecision, TotalsLine};

/// The totals of no lines.
pub(crate) fn no_totals() -> TotalsLine
    ensures { result ≡ no_totals }
{
    TotalsLine {
        entries: 0,
        performed: 0,
        faked: 0,
        denied: 0,
        refused: 0,
        results: 0,
    }
}

/// The totals with one entry more, which shows this decision.
pub(crate) fn with_entry(totals: TotalsLine, decision: &ShownDecision) -> TotalsLine
    requires small { AreAtMost (2 ^ 32) totals }
    ensures { result ≡ with_entry totals decision.now }
{
    let mut totals = totals;
    totals.entries += 1;
    match decision {
        ShownDecision::Allowed { .. } | ShownDecision::ReadOnly { .. } => totals.performed += 1,
        ShownDecision::Faked { .. } => totals.faked += 1,
        ShownDecision::Refused(_) => totals.refused += 1,
        ShownDecision::NoRule(_) | ShownDecision::Denied { .. } | ShownDecision::Alarmed { .. } =>
            totals.denied += 1,
    }
    totals
}

/// The totals with one result more.
pub(crate) fn with_result(totals: TotalsLine) -> TotalsLine
    requires small { AreAtMost (2 ^ 32) totals }
    ensures { result ≡ with_result totals }
{
    let mut totals = totals;
    totals.results += 1;
    totals
}

/// Whether totals are the same.
pub(crate) fn same_totals(a: &TotalsLine, b: &TotalsLine) -> bool
    ensures { result ≡ same_totals a.now b.now }
{
    *a == *b
}
