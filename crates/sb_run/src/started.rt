// A thread of the script that was started, and a seat of the pool with which targets are served: by a thread of their own, or by the caller.
ghost use Rattle.std.specs.Prelude.{◌≡◌, IfOk, OnOk, false};
ghost use Rattle.sb_run.specs.Crews.{IsServerHostOf, IsThreadHostOf};
ghost use Rattle.sb_shared.specs.Closing.{IsThreadSeat};
ghost use Rattle.sb_run.specs.Servers.{IsSameServer, IsServer};
ghost use Rattle.sb_run.specs.Started.{IsDone, is_unfinished, started_server, started_thread};
ghost use Rattle.sb_run.specs.Threads.{HasEnded};

use crate::contexts::RunContext;
use crate::promises::{ServerHost, ThreadHost};
use crate::returns::{ServerReturn, ThreadReturn};
use crate::serving::attend_once;
use crate::works::Server;
use sb_base::NoMemory;
use sb_outside::Gate;
use sb_rule::Judge;
use sb_shared::{SharedWorld, ThreadSeat};
use sb_statements::SoundScript;
use std::alloc::Global;
use std::marker::Model;
use std::snapshot::Snapshot;
use std::sync::Wait;
use std::thread::{Threads, yield_now};

/// A thread of the script that was started. Contracts see its seat as it was then, and as it is if the caller makes its steps.
pub(crate) struct StartedThread {
    first: Snapshot<ThreadSeat>,
    host: ThreadHost,
}

impl Drop for StartedThread {
    fn drop(self) {
        let StartedThread { first: _, host: _ } = self;
    }
}

impl Model for StartedThread {
    ghost use Rattle.sb_run.specs.Crews.{IsThreadHostOf};
    ghost use Rattle.sb_run.specs.Started.{StartedAt, started_thread};

    ghost Value = { StartedAt };

    ghost view = { λ x. started_thread x.first.value x.host };

    ghost invariant = { λ x. IsThreadHostOf x.first.value x.host };
}

impl StartedThread {
    /// A thread with its host.
    pub(crate) fn new(first: Snapshot<ThreadSeat>, host: ThreadHost) -> StartedThread
        requires { IsThreadHostOf first.value host }
        ensures { result ≡ started_thread first.value host }
    {
        StartedThread { first, host }
    }

    /// Makes the next step of a thread whose steps the caller makes. True if there was one to make.
    pub(crate) fn step(&mut self, world: &SharedWorld, script: &SoundScript) -> bool
        requires own { IsThreadSeat world.now self.old.first }
        requires script { script.now ≡ world.now.key.script.value }
        ensures first { self.new.first ≡ self.old.first }
        ensures is { result ≡ is_unfinished self.old.caller }
        ensures idle { result ≡ false → self.new ≡ self.old }
    {
        match &mut self.host {
            ThreadHost::Caller(seat) => {
                if seat.is_finished() {
                    return false;
                }
                seat.step(world, script);
                if seat.is_waiting() {
                    yield_now();
                }
                true
            }
            ThreadHost::Thread(_) => false,
        }
    }

    /// The seat of the thread, once it has ended. It waits for that, unless the caller made all its steps.
    ///
    /// # Errors
    /// `NoMemory` if the thread was stopped since memory ran out.
    pub(crate) fn join<R: Threads>(self, rt: &R) -> Result<ThreadSeat, NoMemory>
        requires { IsDone self }
        ensures { IfOk result (λ s. HasEnded self.first s) }
    {
        let StartedThread { first: _, host } = self;
        match host {
            ThreadHost::Thread(child) => match child.join(rt) {
                ThreadReturn::Ended(seat) => Ok(seat),
                ThreadReturn::Back(_) | ThreadReturn::Stopped => Err(NoMemory),
            },
            ThreadHost::Caller(seat) => Ok(seat),
        }
    }
}

/// A seat of the pool with which targets are served. Contracts see it as it was at first, and whether the caller serves with it.
pub(crate) struct StartedServer {
    first: Snapshot<Server>,
    host: ServerHost,
}

impl Drop for StartedServer {
    fn drop(self) {
        let StartedServer { first: _, host: _ } = self;
    }
}

impl Model for StartedServer {
    ghost use Rattle.sb_run.specs.Crews.{IsServerHostOf};
    ghost use Rattle.sb_run.specs.Started.{StartedServerAt, started_server};

    ghost Value = { StartedServerAt };

    ghost view = { λ x. started_server x.first.value x.host };

    ghost invariant = { λ x. IsServerHostOf x.first.value x.host };
}

impl StartedServer {
    /// A seat with its host.
    pub(crate) fn new(first: Snapshot<Server>, host: ServerHost) -> StartedServer
        requires { IsServerHostOf first.value host }
        ensures { result ≡ started_server first.value host }
    {
        StartedServer { first, host }
    }

    /// Whether the caller serves with this seat.
    pub(crate) fn is_with_caller(&self) -> bool
        ensures { result ≡ self.now.by_caller }
    {
        matches!(self.host, ServerHost::Caller(_))
    }

    /// Serves a target for a while, with a seat with which the caller serves.
    ///
    /// # Errors
    /// `NoMemory` as `attend_once`.
    pub(crate) fn serve<J: Judge, G: Gate, R: Wait>(
        &mut self,
        rt: &R,
        alloc: Global,
        context: &RunContext<'_, J, G>,
    ) -> Result<(), NoMemory>
        requires { IsServer context.now self.old.first }
        ensures first { self.new.first ≡ self.old.first }
        ensures same { OnOk result (self.new ≡ self.old) }
    {
        let ServerHost::Caller(server) = &mut self.host else {
            return Ok(());
        };
        if attend_once(rt, alloc, context, server).is_err() {
            self.host = ServerHost::Stopped;
            return Err(NoMemory);
        }
        Ok(())
    }

    /// The seat, once the thread that serves with it has ended. It waits for that.
    ///
    /// # Errors
    /// `NoMemory` if memory ran out.
    pub(crate) fn join<R: Threads>(self, rt: &R) -> Result<Server, NoMemory>
        ensures { IfOk result (λ s. IsSameServer self.first s) }
    {
        let StartedServer { first: _, host } = self;
        match host {
            ServerHost::Thread(child) => match child.join(rt) {
                ServerReturn::Ended(server) | ServerReturn::Back(server) => Ok(server),
                ServerReturn::Stopped => Err(NoMemory),
            },
            ServerHost::Caller(server) => Ok(server),
            ServerHost::Stopped => Err(NoMemory),
        }
    }
}
