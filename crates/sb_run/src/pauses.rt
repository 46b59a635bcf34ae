// How a thread waits: one that serves targets for calls, and one of the script for what its next step needs.

use sb_shared::SharedWorld;
use std::hint;
use std::sync::Wait;
use std::thread::yield_now;
use std::time::Duration;

// A wait spins at first, this many times, each time for twice as long: the caller of a served call may run on another processor.
const SPINS: u32 = 3;

// It then yields, this many times: the next caller may wait for this processor, and makes its next call sooner than a sleep ends.
const YIELDS: u32 = 16;

// The first sleep is short beside a thread's share of a processor, and long beside a call.
const FIRST_SLEEP_MICROSECONDS: u64 = 50;

// Each sleep is twice as long as the one before it, up to this.
const LONGEST_SLEEP_MICROSECONDS: u64 = 800;

// A wait follows at least this many passes that found no call. With one alone a thread sleeps soon after each call.
const LEAST_PASSES: usize = 2;

// The most threads that serve and stay awake without a call. If more are awake, one that finds no call sleeps at once, and as long as a sleep may be:
// the others serve its targets, and threads of the script need its processor.
const MAX_AWAKE: u64 = 2;

// A thread of the script yields after each of this many steps in vain, since its reply may wait for this processor.
const EAGER: u32 = 64;

// One rest in this many yields, so that a wait of millions of loads makes few system calls.
const SPARSE: u32 = 16;

// A patient thread yields this many times before it sleeps, which takes longer than the first sleeps of a thread that serves.
const PATIENT: u32 = 256;

// How long to sleep after a sleep of this time, in microseconds.
fn next_sleep(microseconds: u64) -> u64 {
    microseconds
        .saturating_mul(2)
        .min(LONGEST_SLEEP_MICROSECONDS)
}

/// Spins, or yields if the number of rests before it says so.
pub(crate) fn rest(before: u32) {
    if before % SPARSE == SPARSE - 1 {
        yield_now();
    } else {
        hint::spin_loop();
    }
}

/// How a thread of the script waits after steps in vain: it yields, and later sleeps, each time for twice as long, or rests if it is not
/// patient.
#[derive(Drop)]
pub(crate) struct StepWait {
    // How many steps were in vain since the last one that was not. Begins anew after a step in vain of the greatest number.
    steps: u32,
    sleep: u64,
}

impl StepWait {
    /// Before the first step.
    pub(crate) fn new() -> StepWait {
        StepWait {
            steps: 0,
            sleep: FIRST_SLEEP_MICROSECONDS,
        }
    }

    /// Begins anew, since a step was not in vain.
    pub(crate) fn reset(&mut self) {
        self.steps = 0;
        self.sleep = FIRST_SLEEP_MICROSECONDS;
    }

    /// A step was in vain: waits a little. A sleep ends when the run stops.
    pub(crate) fn pass<R: Wait>(&mut self, rt: &R, world: &SharedWorld, patient: bool) {
        let steps = self.steps;
        self.steps = steps.wrapping_add(1);
        let eager = if patient { PATIENT } else { EAGER };
        if steps < eager {
            yield_now();
        } else if patient {
            world.doze(rt, Duration::from_micros(self.sleep));
            self.sleep = next_sleep(self.sleep);
        } else {
            rest(steps);
        }
    }
}

// How many passes without a call come before a wait: as many as targets fall to each thread that serves. With fewer a thread waits while others of its
// targets have calls.
fn passes_of(targets: usize, serving: usize) -> usize {
    match targets.checked_div(serving) {
        Some(passes) => passes.max(LEAST_PASSES),
        None => LEAST_PASSES,
    }
}

/// How a thread that serves targets waits for calls: after each few passes that found none it spins, later yields, and at last sleeps, each time for
/// twice as long.
#[derive(Drop)]
pub(crate) struct IdleWait {
    // How many threads serve.
    serving: usize,
    passes: usize,
    // How many passes since the last wait found no call.
    idle: usize,
    // How many waits since the last call did not sleep.
    waits: u32,
    sleep: u64,
}

impl IdleWait {
    /// Before the first pass of one of these threads, which serve this number of targets together.
    pub(crate) fn new(targets: usize, serving: usize) -> IdleWait {
        IdleWait {
            serving,
            passes: passes_of(targets, serving),
            idle: 0,
            waits: 0,
            sleep: FIRST_SLEEP_MICROSECONDS,
        }
    }

    /// Begins anew, since there was a call to serve.
    pub(crate) fn reset(&mut self) {
        self.idle = 0;
        self.waits = 0;
        self.sleep = FIRST_SLEEP_MICROSECONDS;
    }

    // Whether enough of the others are awake.
    fn is_spare(&self, world: &SharedWorld) -> bool {
        (self.serving as u64).saturating_sub(world.idle_count()) > MAX_AWAKE
    }

    /// A pass found no call: waits a little if it is the last of a few. A sleep ends when the run stops.
    pub(crate) fn pass<R: Wait>(&mut self, rt: &R, world: &SharedWorld) {
        self.idle = self.idle.saturating_add(1);
        if self.idle < self.passes {
            return;
        }
        self.idle = 0;
        let is_spare = self.is_spare(world);
        if is_spare {
            // The others serve its targets meanwhile.
            self.sleep = LONGEST_SLEEP_MICROSECONDS;
        }
        if is_spare || self.waits >= SPINS + YIELDS {
            world.doze_idle(rt, Duration::from_micros(self.sleep));
            self.sleep = next_sleep(self.sleep);
            return;
        }
        if self.waits < SPINS {
            for _ in 0..1u32 << self.waits {
                hint::spin_loop();
            }
        } else {
            yield_now();
        }
        self.waits += 1;
    }
}
