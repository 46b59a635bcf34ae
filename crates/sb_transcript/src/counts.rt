// The counts of a report.
ghost use Rattle.std.specs.Prelude.{◌≡◌, ◌<◌, ◌+◌, ◌^◌};
ghost use Rattle.sb_book.specs.Reports.{result_count, thread_count};
ghost use Rattle.sb_transcript.specs.Totals.{is_performed, is_faked, is_denied, is_refused, count_of, shown_totals};
ghost use Rattle.sb_transcript.specs.Counts.{sum_of, with_ruling};

use crate::read_lines::TotalsLine;
use sb_book::{Entries, Report, Ruling, TargetResults, ThreadResults};

// How many entries have each decision.
#[derive(Clone, Copy)]
struct DecisionCounts {
    performed: usize,
    faked: usize,
    denied: usize,
    refused: usize,
}

// The counts with one ruling more.
fn with_ruling(counts: DecisionCounts, ruling: Ruling) -> DecisionCounts
    requires { sum_of counts + 1 < 2 ^ 64 }
    ensures value { result ≡ with_ruling counts ruling }
    ensures sum { sum_of result ≡ sum_of counts + 1 }
{
    let DecisionCounts {
        performed,
        faked,
        denied,
        refused,
    } = counts;
    match ruling {
        Ruling::Performed { .. } => DecisionCounts {
            performed: performed + 1,
            ..counts
        },
        Ruling::Faked { .. } => DecisionCounts {
            faked: faked + 1,
            ..counts
        },
        Ruling::Denied { .. } => DecisionCounts {
            denied: denied + 1,
            ..counts
        },
        Ruling::Refused(_) => DecisionCounts {
            refused: refused + 1,
            ..counts
        },
    }
}

#[tactic(auto, using(crate::proofs::CountLaws::performed_counts, crate::proofs::CountLaws::faked_counts, crate::proofs::CountLaws::denied_counts, crate::proofs::CountLaws::refused_counts))]
fn decision_counts(entries: &Entries) -> DecisionCounts
    ensures performed { result.performed ≡ count_of is_performed entries.now }
    ensures faked { result.faked ≡ count_of is_faked entries.now }
    ensures denied { result.denied ≡ count_of is_denied entries.now }
    ensures refused { result.refused ≡ count_of is_refused entries.now }
{
    let count = entries.len();
    let mut counts = DecisionCounts {
        performed: 0,
        faked: 0,
        denied: 0,
        refused: 0,
    };
    let mut rest = entries.as_slice();
    while let Some((entry, later)) = rest.split_first() {
        counts = with_ruling(counts, entry.ruling());
        rest = later;
    }
    counts
}

/// How many results the threads of a target have.
pub fn thread_count(threads: &[ThreadResults]) -> usize
    requires { thread_count threads.now < 2 ^ 62 }
    ensures { result ≡ thread_count threads.now }
{
    let mut count = 0;
    for results in threads {
        count += results.as_slice().len();
    }
    count
}

/// How many results there are.
pub fn result_count(targets: &[TargetResults]) -> usize
    requires { result_count targets.now < 2 ^ 62 }
    ensures { result ≡ result_count targets.now }
{
    let mut count = 0;
    for threads in targets {
        count += thread_count(threads.as_slice());
    }
    count
}

/// The totals of a report: how many entries it has, how many of each decision, and how many results.
pub fn shown_totals(report: &Report) -> TotalsLine
    requires { result_count report.now.results < 2 ^ 62 }
    ensures { result ≡ shown_totals report.now }
{
    let counts = decision_counts(&report.entries);
    TotalsLine {
        entries: report.entries.len() as u64,
        performed: counts.performed as u64,
        faked: counts.faked as u64,
        denied: counts.denied as u64,
        refused: counts.refused as u64,
        results: result_count(report.results.as_slice()) as u64,
    }
}
