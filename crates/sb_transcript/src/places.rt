// Where a result is among all.
ghost use Rattle.std.specs.Prelude.{◌≡◌, ◌≤◌, ◌<◌, ◌+◌, ◌^◌, [], Some, IfNone, IfSome, slice_get, slice_index_or, take};
ghost use Rattle.sb_book.specs.Reports.{result_count, thread_count};
ghost use Rattle.sb_transcript.specs.Places.{result_at, results_before};

use crate::counts::thread_count;
use sb_book::{Results, ThreadResults};
use sb_statements::StmtResult;

/// A result, and where it is: its target, its thread and its place there, each numbered from 0.
#[derive(Clone, Copy)]
pub struct Place<'a> {
    /// The number of the target.
    pub target: usize,
    /// The number of the thread among those of the target.
    pub thread: usize,
    /// The number of the statement among those of the thread.
    pub place: usize,
    /// What became of that statement.
    pub result_: &'a StmtResult,
}

// Result `n` of a target's threads, counted from 0. It goes past whole threads. None if they have no more than `n`.
fn place_in(target: usize, threads: &[ThreadResults], n: usize) -> Option<Place<'_>>
    ensures none { IfNone result (thread_count threads.now ≤ n) }
    ensures target { IfSome result (λ p. p.target ≡ target) }
    ensures there { IfSome result (λ p. slice_get (slice_index_or threads.now p.thread []) p.place ≡ Some p.result_.now) }
    ensures before { IfSome result (λ p. thread_count (take p.thread threads.now) + p.place ≡ n) }
{
    let mut left = n;
    for (thread, results) in threads.iter().enumerate() {
        if let Some(result_) = results.as_slice().get(left) {
            return Some(Place {
                target,
                thread,
                place: left,
                result_,
            });
        }
        left -= results.as_slice().len();
    }
    None
}

/// Result `n`, counted from 0 over all targets and threads in order. It goes past whole targets and threads. None if there
/// are no more than `n` results.
pub fn place_of(results: &Results, n: usize) -> Option<Place<'_>>
    requires { result_count results.now < 2 ^ 62 }
    ensures none { IfNone result (result_count results.now ≤ n) }
    ensures there { IfSome result (λ p. result_at results.now p.target p.thread p.place ≡ Some p.result_.now) }
    ensures before { IfSome result (λ p. results_before results.now p.target p.thread p.place ≡ n) }
{
    let mut left = n;
    for (target, threads) in results.as_slice().iter().enumerate() {
        if let Some(place) = place_in(target, threads.as_slice(), left) {
            return Some(place);
        }
        left -= thread_count(threads.as_slice());
    }
    None
}
