// The seat of a thread.
ghost use Rattle.std.specs.Prelude.{◌≡◌, ◌∷◌, [], true, false};
ghost use Rattle.sb_actor.specs.Places.{is_finished};
ghost use Rattle.sb_actor.specs.ThreadTable.{thread_plan};
ghost use Rattle.sb_shared.specs.Seats.{IsLook, IsThreadStep, thread_place, thread_stepped, thread_told};
ghost use Rattle.sb_shared.specs.Waiting.{is_again, repeats};
ghost use Rattle.sb_shared.specs.declared.views.Part.TheVariants as part;

use crate::laws::core_laws;
use crate::moves::{look, perform};
use crate::protocol::Slot;
use crate::stops::Stop;
use crate::views::View;
use crate::worlds::SharedWorld;
use atomic_table::Seat;
use sb_actor::{Act, ThreadState};
use sb_statements::{SoundScript, StmtResult, Word};
use std::marker::Model;

/// The seat of a thread: the thread makes its steps with it, and keeps its results there. Contracts see where the thread is in the
/// world, with its results so far.
pub struct ThreadSeat {
    pub(crate) seat: Seat<Slot, View>,
    pub(crate) waiting: bool,
    // Whether each channel of the target is clean.
    pub(crate) all_clean: bool,
    pub(crate) state: ThreadState,
    // With room for a result of each statement.
    pub(crate) results: Vec<StmtResult>,
}

impl Drop for ThreadSeat {
    fn drop(self) {
        let ThreadSeat {
            seat: _,
            waiting: _,
            all_clean: _,
            state: _,
            results: _,
        } = self;
    }
}

impl Model for ThreadSeat {
    ghost use Rattle.std.specs.Prelude.{◌≡◌, ◌≤◌, [], length, vec_capacity};
    ghost use Rattle.sb_actor.specs.Places.{statements_of};
    ghost use Rattle.sb_shared.specs.Seats.{ThreadSeatValue, thread_seat, thread_in, IsThread};

    ghost Value = { ThreadSeatValue };

    ghost view = { λ s. thread_seat s.seat.table_id s.seat.me.0 s.waiting };

    ghost invariant = { λ s. IsThread s.seat.me.0 × (s.seat.me.1 ≡ []) × (s.state ≡ (thread_in s.seat.me.0.parts).run.thread)
        × (s.results.items ≡ (thread_in s.seat.me.0.parts).run.results)
        × (length (statements_of s.seat.me.0.key.script.value (thread_in s.seat.me.0.parts).target (thread_in s.seat.me.0.parts).thread) ≤ vec_capacity s.results) };
}

// Whether a step is a load of this word, or an exchange on it or on the same word of an earlier channel.
fn is_again(last: Word, next: Act) -> bool
    ensures { result ≡ is_again last next }
{
    match next {
        Act::Load { word, .. } => word.channel == last.channel && word.at == last.at,
        Act::Exchange { word, .. } => word.channel <= last.channel && word.at == last.at,
        Act::Store { .. } | Act::Take | Act::Answer | Act::Give | Act::Idle => false,
    }
}

// Whether a load or an exchange is to be made again: of the same word, or in another round of channels.
fn repeats(last: Act, next: Act) -> bool
    ensures { result ≡ repeats last next }
{
    match last {
        Act::Load { word, .. } | Act::Exchange { word, .. } => is_again(word, next),
        Act::Store { .. } | Act::Take | Act::Answer | Act::Give | Act::Idle => false,
    }
}

impl ThreadSeat {
    /// Makes the thread's next step, as one atomic step on a word. The thread is then where that step of the world leaves it. The
    /// step of a finished thread does nothing. It waits for nobody and allocates nothing.
    #[tactic(auto, using(crate::proofs::ResultPlaces::room_for))]
    pub fn step(&mut self, world: &SharedWorld, script: &SoundScript)
        requires own { self.old.table ≡ world.now.table }
        requires script { self.old.key.script.value ≡ script.now }
        ensures step { is_finished script.now self.old.run.thread ≡ false → IsThreadStep self.old self.new }
        ensures word { is_finished script.now self.old.run.thread ≡ false → self.new ≡ thread_stepped self.old self.new.found self.new.history }
        ensures finished { is_finished script.now self.old.run.thread ≡ true → self.new ≡ self.old }
    {
        core_laws();
        let act = self.state.plan(script);
        let Some(observed) = perform(&world.table.shared, &mut self.seat, act) else {
            return;
        };
        if self.state.after(script, observed, &mut self.results) {
            self.waiting = false;
        } else {
            self.note_wait(script, act);
        }
    }

    // Notes whether a step that ended no statement is to be made again.
    fn note_wait(&mut self, script: &SoundScript, act: Act)
        ensures { self.new ≡ record self.old { waiting = repeats act (thread_plan script.now self.old.run.thread) } }
    {
        self.waiting = match act {
            Act::Load { .. } | Act::Exchange { .. } => repeats(act, self.state.plan(script)),
            Act::Store { .. } | Act::Take | Act::Answer | Act::Give | Act::Idle => false,
        };
    }

    /// Whether the last step found nothing to go on with: a word that is to be loaded again, or a round of channels of which none was free.
    pub fn is_waiting(&self) -> bool
        ensures { result ≡ self.now.waiting }
    {
        self.waiting
    }

    /// Whether the thread may sleep while it waits: it is in a call, and each channel of its target is clean, so that the wait has no bound. No
    /// clause says this: only time depends on it.
    pub fn is_patient(&self, script: &SoundScript) -> bool {
        self.all_clean && self.state.direct_statement(script).is_none()
    }

    /// Whether each statement of the thread has ended.
    pub fn is_finished(&self) -> bool
        ensures { result ≡ is_finished self.now.key.script.value self.now.run.thread }
    {
        self.state.is_over()
    }

    /// Looks at the stop word: the stop that was set, if one was.
    pub fn stopped(&mut self, world: &SharedWorld) -> Option<Stop>
        requires own { self.old.table ≡ world.now.table }
        ensures same { self.new ≡ thread_told self.old self.new.history }
        ensures looked { IsLook (thread_place self.old ∷ []) self.old.history result self.new.history }
    {
        look(&world.table.shared, &mut self.seat)
    }

    /// The target, from 0.
    pub fn target(&self) -> u32
        ensures { result ≡ self.now.target }
    {
        self.state.target()
    }

    /// The thread, from 0.
    pub fn thread(&self) -> u32
        ensures { result ≡ self.now.thread }
    {
        self.state.thread()
    }

    // The seat of the table, and the results.
    pub(crate) fn into_parts(self) -> (Seat<Slot, View>, Vec<StmtResult>)
        ensures table { result.0.table_id ≡ self.table }
        ensures key { result.0.me.0.key ≡ self.key }
        ensures parts { result.0.me.0.parts ≡ part.Thread self.target self.thread self.run.thread self.run.results ∷ [] }
        ensures history { result.0.me.0.history ≡ self.history }
        ensures out { result.0.me.1 ≡ [] }
        ensures results { result.1.items ≡ self.run.results }
    {
        let ThreadSeat {
            seat,
            waiting: _,
            all_clean: _,
            state: _,
            results,
        } = self;
        (seat, results)
    }
}
