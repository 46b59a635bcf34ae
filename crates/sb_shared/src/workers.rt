// The seat of a worker.
ghost use Rattle.std.specs.Prelude.{◌≡◌, ◌<◌, ◌∷◌, [], true, false, length, slice_index, is_some, IfOk, IfSome, OnOk, OnErr, Some, None};
ghost use Rattle.sb_actor.specs.WorkerTable.{is_looking, taken_in, worker_plan};
ghost use Rattle.sb_actor.specs.declared.acts.Act.TheVariants.{Take, Answer, Give};
ghost use Rattle.sb_actor.specs.Observations.{Answered, Turn, Done};
ghost use Rattle.sb_block.specs.Copies.{mark_of};
ghost use Rattle.sb_book.specs.Histories.{History};
ghost use Rattle.sb_core.specs.Kept.{has_turn};
ghost use Rattle.sb_shared.specs.Keeping.{IsDecided, decision_on};
ghost use Rattle.sb_shared.specs.Origins.{setting_in};
ghost use Rattle.sb_shared.specs.Parts.{answer_to, is_on_word};
ghost use Rattle.sb_shared.specs.Seats.{IsLook, IsStop, IsTry, IsWordStep, IsWorkerStep, mark_held, worker_decided, worker_place, worker_undecided, worker_stepped, worker_shown, worker_answered, worker_told};
ghost use Rattle.sb_shared.specs.declared.stops.Stop.TheVariants.{OutOfMemory};
ghost use Rattle.sb_shared.specs.declared.views.Part.TheVariants as part;

use crate::books::BoxedBook;
use crate::laws::core_laws;
use crate::layout::TURN;
use crate::moves::{look, perform, set_stop};
use crate::protocol::{BookAnswers, Gives, Slot, Tries};
use crate::stops::Stop;
use crate::views::View;
use crate::worlds::SharedWorld;
use atomic_table::Seat;
use sb_actor::{Act, Observed, WorkerState};
use sb_base::NoMemory;
use sb_book::{Decision, decide};
use sb_call::Reply;
use sb_rule::Judge;
use std::alloc::Global;
use std::marker::Model;

// What a worker makes its steps with.
pub(crate) struct WorkerBody {
    pub(crate) seat: Seat<Slot, View>,
    pub(crate) state: WorkerState,
    // While the worker has the turn.
    pub(crate) book: Option<BoxedBook>,
    // On the present copy, once it is made.
    pub(crate) decision: Option<Decision>,
}

impl Drop for WorkerBody {
    fn drop(self) {
        let WorkerBody {
            seat: _,
            state: _,
            book: _,
            decision: _,
        } = self;
    }
}

impl WorkerBody {
    // The seat of the table and the state.
    fn into_parts(self) -> (Seat<Slot, View>, WorkerState)
        ensures seat { (result.0.table_id ≡ self.seat.table_id) × (result.0.me ≡ self.seat.me) }
        ensures state { result.1 ≡ self.state }
    {
        let WorkerBody {
            seat,
            state,
            book: _,
            decision: _,
        } = self;
        (seat, state)
    }
}

/// The seat of a worker: the worker makes its steps with it, and keeps the book there while it has the turn. Contracts see where the worker
/// is in the world, with the book while it has the turn. A seat is one pointer.
pub struct WorkerSeat {
    pub(crate) body: Box<WorkerBody>,
}

impl Drop for WorkerSeat {
    fn drop(self) {
        let WorkerSeat { body: _ } = self;
    }
}

impl Model for WorkerSeat {
    ghost use Rattle.std.specs.Prelude.{is_some};
    ghost use Rattle.sb_core.specs.Kept.{has_turn};
    ghost use Rattle.sb_shared.specs.Keeping.{IsBody};
    ghost use Rattle.sb_shared.specs.Seats.{WorkerSeatValue, worker_seat};

    ghost Value = { WorkerSeatValue };

    ghost view = { λ s. worker_seat s.body.value.seat.table_id s.body.value.seat.me.0 (is_some s.body.value.decision) };

    ghost invariant = { λ s. IsBody s.body.value.seat.me s.body.value.state s.body.value.book s.body.value.decision };
}

// Decides on the worker's copy by the policy of its target, unless that was done.
fn decide_once<J: Judge>(
    alloc: Global,
    judge: &J,
    worker: &WorkerState,
    decision: &mut Option<Decision>,
) -> Result<(), NoMemory>
    requires there { worker.now.target < length (J.policies judge.now) }
    requires before { IsDecided (J.policies judge.now) worker.now.target (taken_in worker.now.stage) decision.old }
    ensures ok { OnOk result (decision.new ≡ decision_on (J.policies judge.now) worker.now.target (taken_in worker.now.stage)) }
    ensures err { OnErr result (decision.new ≡ decision.old) }
    ensures none { OnErr result (decision.old ≡ None) }
{
    if decision.is_some() {
        return Ok(());
    }
    if let Some(taken) = worker.taken() {
        *decision = Some(decide(alloc, judge, worker.target(), taken)?);
    }
    Ok(())
}

// The book answers the worker's copy by its decision. After an error the book is as it was.
fn answer_copy(
    book: &mut BoxedBook,
    worker: &WorkerState,
    decision: Option<Decision>,
) -> Result<Reply, NoMemory>
    requires there { worker.now.target < length book.old.setting.policies }
    requires channels { worker.now.channels ≡ slice_index book.old.setting.channels worker.now.target }
    requires copy { is_some (taken_in worker.now.stage) ≡ true }
    requires decided { decision ≡ decision_on book.old.setting.policies worker.now.target (taken_in worker.now.stage) }
    ensures answered { OnOk result (book.new ≡ (answer_to book.old worker.now.target worker.now).shared.book) }
    ensures reply { IfOk result (λ r. Answered r ≡ (answer_to book.old worker.now.target worker.now).seen) }
    ensures mark { IfOk result (λ r. IfSome (taken_in worker.now.stage) (λ taken. r.mark ≡ mark_of taken)) }
    ensures err { OnErr result (book.new ≡ book.old) }
{
    worker.establish_sound();
    let Some(taken) = worker.taken() else {
        unreachable!()
    };
    let Some(decision) = decision else {
        unreachable!()
    };
    book.answer(worker.target(), worker.channel(), taken, decision)
}

impl WorkerSeat {
    /// The worker's one next step.
    pub fn plan(&self) -> Act
        ensures { result ≡ worker_plan self.now.state }
    {
        self.body.state.plan()
    }

    /// Establishes that the worker has the book exactly while it has the turn. It does nothing when it runs.
    pub fn establish_turn(&self)
        ensures { has_turn self.now.state.stage ≡ is_some self.now.book }
    {
        let _looking = self.body.state.looking();
    }

    /// Whether its next step is a look at the state of a channel.
    pub fn is_looking(&self) -> bool
        ensures { result ≡ is_looking self.now.state.stage }
    {
        self.body.state.looking()
    }

    /// The target, from 0.
    pub fn target(&self) -> u32
        ensures { result ≡ self.now.target }
    {
        self.body.state.target()
    }

    /// How many channels the target has, from 1 to 8.
    pub fn channels(&self) -> u32
        ensures { result ≡ self.now.state.channels }
    {
        self.body.state.channels()
    }

    /// The mark of the worker's copy, 0 if it has none.
    pub fn mark(&self) -> u64
        ensures { result ≡ mark_held (taken_in self.now.state.stage) }
    {
        match self.body.state.taken() {
            Some(taken) => taken.mark(),
            None => 0,
        }
    }

    /// Makes the worker's next step if that is on a word, as one atomic step. The worker is then where that step of the world leaves
    /// it. A worker whose next step is on the turn stays as it is. It waits for nobody and allocates nothing.
    pub fn step(&mut self, world: &SharedWorld)
        requires own { self.old.table ≡ world.now.table }
        ensures step { is_on_word (worker_plan self.old.state) ≡ true → IsWordStep self.old self.new }
        ensures word { is_on_word (worker_plan self.old.state) ≡ true → self.new ≡ worker_stepped self.old self.new.found self.new.history }
        ensures turn { is_on_word (worker_plan self.old.state) ≡ false → self.new ≡ self.old }
    {
        core_laws();
        let body = &mut *self.body;
        let act = body.state.plan();
        let Some(observed) = perform(&world.table.shared, &mut body.seat, act) else {
            return;
        };
        body.state.after(observed);
    }

    /// Decides on the worker's copy by the policy of its target, unless that was done. Without a copy there is nothing to decide.
    ///
    /// # Errors
    /// `NoMemory` if there is none for the strings of the call.
    pub fn decide<J: Judge>(&mut self, alloc: Global, judge: &J) -> Result<(), NoMemory>
        requires judge { J.policies judge.now ≡ (setting_in self.old.key).policies }
        ensures ok { OnOk result (self.new ≡ worker_decided self.old) }
        ensures err { OnErr result (self.new ≡ self.old) }
    {
        let body = &mut *self.body;
        decide_once(alloc, judge, &body.state, &mut body.decision)
    }

    /// Whether the worker's copy is decided.
    pub fn has_decided(&self) -> bool
        ensures { result ≡ self.now.decided }
    {
        self.body.decision.is_some()
    }

    /// Tries to take the turn, as one atomic step. True if nobody had the turn: then the worker has it, and the book with it. It waits for
    /// nobody and allocates nothing.
    pub fn try_take(&mut self, world: &SharedWorld) -> bool
        requires own { self.old.table ≡ world.now.table }
        requires plan { worker_plan self.old.state ≡ Take }
        ensures step { IsTry self.old self.new result }
        ensures taken { result ≡ true → (book : History) × (self.new ≡ worker_shown self.old (Turn true) (Some book) 0 self.new.history) }
        ensures missed { result ≡ false → self.new ≡ worker_shown self.old (Turn false) None self.new.found self.new.history }
    {
        core_laws();
        let words = &world.table.shared;
        let body = &mut *self.body;
        let name = u64::from(body.state.target()) + 1;
        let found = words.compare_exchange::<Tries>(&mut body.seat, TURN, 0, name);
        body.state.after(Observed::Turn(found == 0));
        if found != 0 {
            return false;
        }
        body.book = words.exchange(&mut body.seat, 0, None);
        true
    }

    /// The book answers the worker's copy, as one atomic step, by the decision of the target's policy.
    ///
    /// # Errors
    /// `NoMemory` if there is none for the decision, for the entry or for what the call makes. Then the worker stays as it is, with the turn, and its copy
    /// is not decided.
    pub fn answer<J: Judge>(
        &mut self,
        alloc: Global,
        world: &SharedWorld,
        judge: &J,
    ) -> Result<(), NoMemory>
        requires own { self.old.table ≡ world.now.table }
        requires plan { worker_plan self.old.state ≡ Answer }
        requires judge { J.policies judge.now ≡ (setting_in self.old.key).policies }
        ensures step { OnOk result (IsWorkerStep self.old self.new) }
        ensures answered { OnOk result ((book : History) × (self.old.book ≡ Some book) × (self.new ≡ worker_undecided (worker_answered self.old book self.new.found self.new.history))) }
        ensures err { OnErr result (self.new ≡ worker_undecided self.old) }
    {
        core_laws();
        let body = &mut *self.body;
        decide_once(alloc, judge, &body.state, &mut body.decision)?;
        let Some(book) = &mut body.book else {
            unreachable!()
        };
        let reply = answer_copy(book, &body.state, body.decision.take())?;
        world.table.shared.load::<BookAnswers>(&mut body.seat, TURN);
        body.state.accept_reply(&reply);
        Ok(())
    }

    /// Gives the turn back, as one atomic step, and the book with it. It waits for nobody and allocates nothing.
    pub fn give_back(&mut self, world: &SharedWorld)
        requires own { self.old.table ≡ world.now.table }
        requires plan { worker_plan self.old.state ≡ Give }
        ensures step { IsWorkerStep self.old self.new }
        ensures given { self.new ≡ worker_undecided (worker_shown self.old Done None 0 self.new.history) }
    {
        core_laws();
        let words = &world.table.shared;
        let body = &mut *self.body;
        body.decision = None;
        words.exchange(&mut body.seat, 0, body.book.take());
        words.store::<Gives>(&mut body.seat, TURN, 0);
        body.state.after(Observed::Done);
    }

    /// Looks at the stop word: the stop that was set, if one was.
    pub fn stopped(&mut self, world: &SharedWorld) -> Option<Stop>
        requires own { self.old.table ≡ world.now.table }
        ensures same { self.new ≡ worker_told self.old self.new.history }
        ensures looked { IsLook (worker_place self.old ∷ []) self.old.history result self.new.history }
    {
        look(&world.table.shared, &mut self.body.seat)
    }

    /// Stops the run, out of memory: every actor that looks at the stop word ends.
    pub fn fail(&mut self, world: &SharedWorld)
        requires own { self.old.table ≡ world.now.table }
        ensures same { self.new ≡ worker_told self.old self.new.history }
        ensures stopped { IsStop (worker_place self.old ∷ []) self.old.history OutOfMemory self.new.history }
    {
        set_stop(&world.table.shared, &mut self.body.seat, Stop::OutOfMemory);
    }

    // The seat of the table and the state, of a worker that does not have the turn.
    pub(crate) fn into_parts(self) -> (Seat<Slot, View>, WorkerState)
        requires without { self.book ≡ None }
        ensures table { result.0.table_id ≡ self.table }
        ensures key { result.0.me.0.key ≡ self.key }
        ensures parts { result.0.me.0.parts ≡ part.Worker self.target self.state None ∷ [] }
        ensures history { result.0.me.0.history ≡ self.history }
        ensures out { result.0.me.1 ≡ [] }
        ensures state { result.1 ≡ self.state }
    {
        let WorkerSeat { body } = self;
        Box::into_inner(body).into_parts()
    }
}
