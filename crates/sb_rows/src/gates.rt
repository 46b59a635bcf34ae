// A gate at which targets meet.

use crate::faults::RowFault;
use crate::pages::Page;
use sb_outside::Gate;
use std::alloc::{AllocError, Global};
use std::sync::Wait;
use std::sync::atomic::{AtomicU64, Ordering};
use std::thread::yield_now;

/// A gate that holds the first call of each of the first targets until the first call of each other of them has come, for a stated number of
/// turns at most. It lets all other calls pass at once.
#[derive(Drop)]
pub struct MeetingGate {
    // How many calls have come, for each of these targets.
    passes: Vec<AtomicU64>,
    // How many of these targets have come.
    come: AtomicU64,
    // For this many turns at most a call is held.
    turns: u64,
    // How many calls were held until the limit.
    late: AtomicU64,
}

impl MeetingGate {
    /// A gate for this number of targets, which holds a call for this many turns at most.
    pub fn new(alloc: Global, targets: u64, turns: u64) -> Result<MeetingGate, AllocError> {
        let mut passes = Vec::new(alloc);
        for _ in 0..targets {
            passes.push(AtomicU64::new(0))?;
        }
        Ok(MeetingGate {
            passes,
            come: AtomicU64::new(0),
            turns,
            late: AtomicU64::new(0),
        })
    }

    // How many calls have come so far.
    fn calls(&self) -> u64 {
        let mut calls = 0_u64;
        for passes in self.passes.as_slice() {
            calls = calls.saturating_add(passes.load(Ordering::SeqCst));
        }
        calls
    }

    /// Puts how many calls have come, and how many of them were held until the limit.
    pub fn put_counts(&self, alloc: Global, page: &mut Page) -> Result<(), RowFault> {
        let (calls, late) = (self.calls(), self.late.load(Ordering::SeqCst));
        Ok(page.put_line(format!(in alloc; "gate passes {calls} late {late}")?.as_str())?)
    }

    // Waits until all targets have come.
    fn hold(&self) {
        let all = self.passes.as_slice().len() as u64;
        for _ in 0..self.turns {
            if self.come.load(Ordering::SeqCst) >= all {
                return;
            }
            yield_now();
        }
        self.late.fetch_add(1, Ordering::SeqCst);
    }
}

impl Gate for MeetingGate {
    fn pass<R: Wait>(&self, _rt: &R, target: u32, _mark: u64) {
        let Some(passes) = self.passes.as_slice().get(target as usize) else {
            return;
        };
        if passes.fetch_add(1, Ordering::SeqCst) == 0 {
            self.come.fetch_add(1, Ordering::SeqCst);
            self.hold();
        }
    }
}
