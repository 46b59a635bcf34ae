// The world, and its steps.
ghost use Rattle.std.specs.Prelude.{◌≡◌, ◌<◌, ◌≤◌, length, true, IfOk, OnOk, OnErr};
ghost use Rattle.sb_actor.specs.WorkerTable.{worker_plan};
ghost use Rattle.sb_actor.specs.declared.acts.Act.TheVariants.{Answer};
ghost use Rattle.sb_book.specs.Histories.{JudgesBy};
ghost use Rattle.sb_statements.specs.declared.schedules.Actor.TheVariants.{Thread};
ghost use Rattle.sb_statements.specs.declared.scripts.Script.{Script};
ghost use Rattle.sb_statements.specs.Actors.{is_there};
ghost use Rattle.sb_core.specs.Changes.{plan_of};
ghost use Rattle.sb_core.specs.Drains.{IsBeginning, drained};
ghost use Rattle.sb_core.specs.Kept.{IsRunning, IsWorld};
ghost use Rattle.sb_core.specs.OfScripts.{IsOfScript};
ghost use Rattle.sb_core.specs.Threads.{first_unfinished};
ghost use Rattle.sb_core.specs.Worlds.{start_world, worker_at, worker_step, step, all_over};

use crate::drains::settle;
use crate::shared::Shared;
use crate::starts::{first_threads, first_words, first_workers};
use crate::threads::TargetThreads;
use crate::workers::make_step;
use sb_actor::WorkerState;
use sb_base::NoMemory;
use sb_book::{Book, RunStart};
use sb_rule::Judge;
use sb_statements::{Actor, SoundScript, sound_parts};
use std::alloc::Global;
use std::marker::Model;

/// The channel words, the holder of the turn and the book, which all actors share; the worker of each target; and its threads with
/// their results. Every number in it is in its range, each thread has one result for each statement that ended, and the turn is with a
/// worker exactly while that is at Answer or Give. A world that was started with a script stays one of it under its steps and drains, and
/// so keeps rule S for each target (`worlds_of_scripts_keep_rule`).
#[derive(Drop)]
pub struct World {
    pub(crate) shared: Shared,
    pub(crate) workers: Vec<WorkerState>,
    pub(crate) threads: Vec<TargetThreads>,
}

impl Model for World {
    ghost use Rattle.sb_core.specs.Kept.{IsWorld};
    ghost use Rattle.sb_core.specs.Worlds.{WorldAt};

    ghost Value = { WorldAt };

    ghost view = { λ w. record { shared = w.shared; workers = w.workers.items; threads = w.threads.items } };

    ghost invariant = { λ w. IsWorld (record { shared = w.shared; workers = w.workers.items; threads = w.threads.items }) };
}

impl World {
    /// The world before the first step: each channel is free, nobody has the turn, and the namespace is the one that the script opens
    /// with.
    ///
    /// # Errors
    /// `NoMemory` if there was none for the words, the actors or the results.
    #[tactic(auto, using(crate::proofs::Starting::starts_world, crate::proofs::Starting::starts_running, crate::proofs::Belonging::of_start))]
    pub fn start(alloc: Global, start: RunStart<'_>) -> Result<World, NoMemory>
        ensures value { IfOk result (λ world. world ≡ start_world start.entry.policies start.entry.script) }
        ensures running { IfOk result (λ world. IsRunning start.entry.script world) }
        ensures of_script { IfOk result (λ world. IsOfScript start.entry.script world) }
    {
        sound_parts();
        let ready = start.ready();
        ready.establish_ready();
        let script = ready.script();
        let shared = Shared {
            words: first_words(alloc, script.targets.as_slice())?,
            turn: None,
            book: Book::new(alloc, start),
        };
        Ok(World {
            shared,
            workers: first_workers(alloc, script)?,
            threads: first_threads(alloc, script)?,
        })
    }

    // What holds of every world. It does nothing.
    #[inline]
    pub(crate) fn establish_kept(&self)
        ensures { IsWorld self.now }
    {
        let _count = self.workers.len();
    }

    // One step of the worker of a target.
    #[inline(always)]
    pub(crate) fn worker_step<J: Judge>(
        &mut self,
        alloc: Global,
        judge: &J,
        target: u32,
    ) -> Result<(), NoMemory>
        requires judge { JudgesBy (J.policies judge.now) self.old.shared.book }
        requires target { target < length self.old.workers }
        ensures ok { OnOk result (self.new ≡ worker_step self.old target) }
        ensures err { OnErr result (self.new ≡ self.old) }
        ensures cause { OnErr result (worker_plan (worker_at self.old target) ≡ Answer) }
        ensures setting { self.new.shared.book.setting ≡ self.old.shared.book.setting }
        ensures workers { length self.new.workers ≡ length self.old.workers }
    {
        let worker = &mut self.workers[target as usize];
        make_step(alloc, judge, &mut self.shared, target, worker)?;
        Ok(())
    }

    // One step of a thread of a target. Does not allocate.
    #[inline(always)]
    fn thread_step(&mut self, script: &SoundScript, target: u32, thread: u32)
        requires running { IsRunning script.now self.old }
        requires there { is_there script.now.targets (Thread target thread) ≡ true }
        ensures value { self.new ≡ step script.now self.old (Thread target thread) }
        ensures book { self.new.shared.book ≡ self.old.shared.book }
    {
        sound_parts();
        self.threads[target as usize].step(script, thread, &mut self.shared);
    }

    /// One step of an actor that is there, which is one row of its table. That of a finished thread does nothing. The script is the
    /// one with which the world was started, and the judge judges its targets by their policies. After an error the world is as it was.
    ///
    /// # Errors
    /// `NoMemory` if a worker is at Answer and there was none for the call's strings, for the entry, or for what the call makes.
    #[inline(always)]
    #[tactic(auto, using(crate::proofs::Running::step_keeps, crate::proofs::Belonging::of_step))]
    pub fn step<J: Judge>(
        &mut self,
        alloc: Global,
        judge: &J,
        script: &SoundScript,
        actor: Actor,
    ) -> Result<(), NoMemory>
        requires judge { JudgesBy (J.policies judge.now) self.old.shared.book }
        requires running { IsRunning script.now self.old }
        requires there { is_there script.now.targets actor ≡ true }
        ensures ok { OnOk result (self.new ≡ step script.now self.old actor) }
        ensures err { OnErr result (self.new ≡ self.old) }
        ensures cause { OnErr result (plan_of script.now self.old actor ≡ Answer) }
        ensures running { IsRunning script.now self.new }
        ensures of_script { IsOfScript script.now self.old → IsOfScript script.now self.new }
        ensures setting { self.new.shared.book.setting ≡ self.old.shared.book.setting }
    {
        sound_parts();
        self.establish_kept();
        match actor {
            Actor::Worker { target } => self.worker_step(alloc, judge, target)?,
            Actor::Thread { target, thread } => self.thread_step(script, target, thread),
        }
        Ok(())
    }

    /// The first thread with a statement that has not ended, as target and thread, numbered from 0.
    pub(crate) fn unfinished(&self, script: &SoundScript) -> Option<(u32, u32)>
        ensures { result ≡ first_unfinished script.now self.now.threads }
    {
        let mut rest = self.threads.as_slice();
        while let Some((threads, others)) = rest.split_first() {
            if let Some(found) = threads.unfinished(script) {
                return Some(found);
            }
            rest = others;
        }
        None
    }

    /// Whether each thread is after its last statement.
    pub(crate) fn all_over(&self) -> bool
        ensures { result ≡ all_over self.now }
    {
        self.threads.iter().all(|threads| threads.are_over())
    }

    // How many workers there are: one for each target, at most 8.
    pub(crate) fn worker_count(&self) -> u32
        ensures count { result ≡ length self.now.workers }
        ensures few { result ≤ 8 }
    {
        self.workers.len() as u32
    }

    /// One step of each worker in target order, again and again, until each is looking and no state word is 3. The judge judges the
    /// targets by their policies. After an error the world is that of a beginning of the drain.
    ///
    /// # Errors
    /// `NoMemory` if there was none for a step.
    pub fn drain<J: Judge>(&mut self, alloc: Global, judge: &J) -> Result<(), NoMemory>
        requires judge { JudgesBy (J.policies judge.now) self.old.shared.book }
        ensures ok { OnOk result (self.new ≡ drained self.old) }
        ensures err { OnErr result (IsBeginning self.old self.new) }
        ensures running { (script : Script) → IsRunning script self.old → IsRunning script self.new }
        ensures of_script { (script : Script) → IsOfScript script self.old → IsOfScript script self.new }
        ensures setting { self.new.shared.book.setting ≡ self.old.shared.book.setting }
    {
        sound_parts();
        self.establish_kept();
        settle(alloc, judge, self)?;
        Ok(())
    }
}
