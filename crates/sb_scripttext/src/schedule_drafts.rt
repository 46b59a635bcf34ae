// What was read of a schedule so far.
ghost use Rattle.std.specs.Prelude.{◌≡◌, ◌≤◌};
ghost use Rattle.sb_scripttext.specs.ScheduleDrafts.{nothing, has_rounds, with_step, with_rounds, finished};
ghost use Rattle.sb_scripttext.specs.ScheduleLimits.{most_steps};
ghost use Rattle.sb_base.specs.Refusals.{Gives};
ghost use Rattle.sb_text.specs.Steps.{Becomes};

use crate::schedule_faults::ScheduleKind::{NoRounds, TooMany};
use crate::schedule_faults::{KindRefused, ScheduleRefused};
use crate::schedule_lines::MAX_STEPS;
use sb_statements::{Actor, Schedule, Steps};
use sb_text::LineFault;
use std::alloc::Global;
use std::marker::Model;

/// The steps so far with their number in all, and the rounds, if a line told them.
#[derive(Drop)]
pub(crate) struct Draft {
    steps: Steps,
    count: u32,
    rounds: Option<u32>,
}

impl Model for Draft {
    ghost use Rattle.std.specs.Prelude.{◌≡◌, ◌≤◌};
    ghost use Rattle.sb_scripttext.specs.ScheduleDrafts.{Drafted, step_count};
    ghost use Rattle.sb_scripttext.specs.ScheduleLimits.{most_steps};

    ghost Value = { Drafted };

    ghost view = { λ d. record { steps = d.steps; rounds = d.rounds } };

    ghost invariant = { λ d. (d.count ≡ step_count d.steps) × (d.count ≤ most_steps) };
}

impl Draft {
    /// Nothing was read.
    pub(crate) fn new(alloc: Global) -> Draft
        ensures { result ≡ nothing }
    {
        Draft {
            steps: Steps::empty(alloc),
            count: 0,
            rounds: None,
        }
    }

    /// Whether a line told the rounds.
    pub(crate) fn has_rounds(&self) -> bool
        ensures { result ≡ has_rounds self.now }
    {
        self.rounds.is_some()
    }

    /// An actor makes steps. After an error the draft is unspecified.
    #[tactic(auto, using(crate::proofs::ScheduleCounts::one_more))]
    pub(crate) fn add_step(&mut self, actor: Actor, count: u32) -> Result<(), KindRefused>
        requires { count ≤ most_steps }
        ensures { Becomes (with_step self.old (actor, count)) result self.new }
    {
        let sum = self.count + count;
        if sum > MAX_STEPS {
            return Err(KindRefused::Fault(TooMany));
        }
        self.steps.push((actor, count))?;
        self.count = sum;
        Ok(())
    }

    /// There are at most this many rounds.
    pub(crate) fn set_rounds(&mut self, rounds: u32)
        ensures { self.new ≡ with_rounds self.old rounds }
    {
        self.rounds = Some(rounds);
    }

    /// The schedule that was read of a text of the given number of lines.
    pub(crate) fn finished(self, lines: u32) -> Result<Schedule, ScheduleRefused>
        ensures { Gives (finished lines self) result }
    {
        match self.rounds {
            Some(rounds) => Ok(Schedule {
                steps: self.steps,
                rounds,
            }),
            None => Err(ScheduleRefused::Fault(LineFault {
                line: lines,
                column: 0,
                kind: NoRounds,
            })),
        }
    }
}
