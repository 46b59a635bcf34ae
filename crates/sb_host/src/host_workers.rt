// The worker of a target, for a host that performs what is granted.
ghost use Rattle.std.specs.Prelude.{◌≡◌, ◌<◌, ◌≤◌, length, true, false, Some, None, not, is_some, option_map, IfErr, IfOk, IfSome, OnOk, OnErr};
ghost use Rattle.sb_rule.specs.Verdicts.{policy_at};
ghost use Rattle.sb_block.specs.Faults.{fault};
ghost use Rattle.sb_book.specs.Decisions.{decision_of, is_fitting};
ghost use Rattle.sb_book.specs.Histories.{space_after};
ghost use Rattle.sb_book.specs.Rulings.{ruling_of};
ghost use Rattle.sb_actor.specs.Acts.{observation};
ghost use Rattle.sb_actor.specs.Ranges.{IsSoundStage};
ghost use Rattle.sb_host.specs.Replies.{IsSpaceAnswer, takes_space};
ghost use Rattle.sb_host.specs.Moves.{left_after, place_of};
ghost use Rattle.sb_host.specs.HostWorkers.{host_start, host_adopt, host_plan, is_answer, is_taking_over, copy_to_answer, after_step, host_moves, is_copying, can_load, can_store, place_to_store, after_loads, after_stores, values_to_store, can_decide, IsUnfit, LacksMemory, after_decision, granted_args, asked, can_reply, after_answer, after_performing, space_after_performing, takes_space_for};

use crate::laws::performing_is_answering;
use crate::policy_sets::PolicySet;
use crate::replies::host_reply;
use sb_actor::{ABANDONED, Act, Observed, READY, WorkerState};
use sb_base::NoMemory;
use sb_block::{
    BlockCopy, BlockRefused, Call, REPLY_LENGTH, decode, faultless_copies_fit, offset_of,
    reply_words,
};
use sb_book::{Decision, Ruling, decide};
use sb_call::{Answer, Arg, Extended};
use sb_kernel::Kernel;
use sb_statements::Word;
use std::alloc::Global;
use std::marker::Model;
use thiserror::Error;

/// Why nothing was decided. The worker is then as it was.
#[derive(Clone, Copy, Debug, Error)]
pub enum Undecided {
    /// There is no copy to answer, it is decided already, or there is no such policy.
    #[error("nothing is to be decided")]
    Unfit,
    /// There was no memory for the call's strings.
    #[error("out of memory")]
    NoMemory,
}

/// The worker of a target, with what is decided of its copy. It says which atomic step comes next, and is told what that step found; it
/// has no access to the words. Its host performs what is granted and says what to reply.
///
/// A call that does not fit the state of the worker changes nothing.
#[derive(Drop)]
pub struct HostWorker {
    worker: WorkerState,
    // How many channels it has taken over, from the first.
    taken_over: u32,
    decision: Option<Decision>,
    // How many words are left to copy, 0 if its next step copies none.
    left: u32,
    // The words of the reply, from the answer until they are stored.
    reply: [u64; 12],
}

impl Model for HostWorker {
    ghost use Rattle.std.specs.Prelude.{◌≡◌, length, true};
    ghost use Rattle.sb_host.specs.HostWorkers.{HostAt, is_fitting_if_decided};
    ghost use Rattle.sb_host.specs.Moves.{IsReplyKept, words_to_copy};

    ghost Value = { HostAt };

    ghost view = { λ h. record { worker = h.worker; taken_over = h.taken_over; decision = h.decision } };

    ghost invariant = { λ h. (is_fitting_if_decided h.decision ≡ true) × (h.left ≡ words_to_copy h.worker.stage) × (length h.reply ≡ 12)
        × IsReplyKept h.worker.stage h.reply };
}

fn is_answer(act: Act) -> bool
    ensures { result ≡ is_answer act }
{
    matches!(act, Act::Answer)
}

// How many words are left to copy after a step that found this, by how many were left before it and by the step that comes next.
fn left_after(left: u32, next: Act, observed: Observed) -> u32
    ensures { result ≡ left_after left next (observation observed) }
{
    if left > 0 {
        return left - 1;
    }
    match (next, observed) {
        (Act::Load { word, .. }, Observed::Value(value)) if word.at == 1 => offset_of(value) as u32,
        _ => 0,
    }
}

// The place in the reply of the word that a step of a worker stores.
fn place_of(act: Act) -> Option<u32>
    ensures { result ≡ place_of act }
{
    match act {
        Act::Store { word, .. } => Some(word.at.saturating_sub(4)),
        _ => None,
    }
}

impl HostWorker {
    /// The worker of a target whose 1 to 8 channels no worker has served, before its first step.
    pub fn new(channels: u32) -> HostWorker
        requires some { 0 < channels }
        requires few { channels ≤ 8 }
        ensures { result ≡ host_start channels }
    {
        HostWorker {
            worker: WorkerState::new(0, channels),
            taken_over: channels,
            decision: None,
            left: 0,
            reply: [0; REPLY_LENGTH],
        }
    }

    /// The worker of a target whose 1 to 8 channels had a worker that makes no more steps. It begins with an exchange of each state: a
    /// call that was handed over is given up, so that it is never performed twice.
    pub fn adopt(channels: u32) -> HostWorker
        requires some { 0 < channels }
        requires few { channels ≤ 8 }
        ensures { result ≡ host_adopt channels }
    {
        HostWorker {
            worker: WorkerState::new(0, channels),
            taken_over: 0,
            decision: None,
            left: 0,
            reply: [0; REPLY_LENGTH],
        }
    }

    /// What holds of the worker of every host: it is at one of its 1 to 8 channels, and its copy and its reply are sound. It does nothing: its contract is
    /// the facts.
    pub fn establish_sound(&self)
        ensures within { self.now.worker.channel < self.now.worker.channels }
        ensures few { self.now.worker.channels ≤ 8 }
        ensures stage { IsSoundStage self.now.worker.stage }
    {
        self.worker.establish_sound();
    }

    fn is_taking_over(&self) -> bool
        ensures taking { result ≡ is_taking_over self.now }
        ensures few { result ≡ true → self.now.taken_over < 8 }
    {
        self.taken_over < self.worker.channels()
    }

    /// Its one next step. `Answer` stays the next step until the reply.
    #[inline(always)]
    pub fn plan(&self) -> Act
        ensures { result ≡ host_plan self.now }
    {
        if self.is_taking_over() {
            return Act::Exchange {
                target: self.worker.target(),
                word: Word {
                    channel: self.taken_over,
                    at: 0,
                },
                from: READY,
                to: ABANDONED,
            };
        }
        self.worker.plan()
    }

    // Whether the next step is the answer.
    #[tactic(auto, using(crate::proofs::AnswerLemmas::answer_has_copy))]
    fn is_answering(&self) -> bool
        ensures { result ≡ is_some (copy_to_answer self.now) }
    {
        !self.is_taking_over() && is_answer(self.worker.plan())
    }

    /// The copy that is to be answered, if that is the next step.
    #[tactic(auto, using(crate::proofs::AnswerLemmas::taken_at_answer))]
    pub fn copy_to_answer(&self) -> Option<&BlockCopy>
        ensures { option_map (λ copy. copy.now) result ≡ copy_to_answer self.now }
    {
        if !self.is_answering() {
            return None;
        }
        self.worker.taken()
    }

    /// Goes on by what its next step found: a load or an exchange its value, a store and the turn given back nothing, and the turn whether
    /// it was taken. False exactly if its next step is the answer; then nothing changes.
    #[inline(always)]
    #[tactic(auto, using(crate::proofs::AnswerLemmas::no_answer, crate::proofs::MoveLemmas::left_kept, crate::proofs::MoveLemmas::reply_kept))]
    pub fn after(&mut self, observed: Observed) -> bool
        ensures done { result ≡ not (is_some (copy_to_answer self.old)) }
        ensures after { self.new ≡ after_step self.old (observation observed) }
    {
        if self.is_taking_over() {
            self.taken_over += 1;
            return true;
        }
        if self.is_answering() {
            return false;
        }
        self.worker.establish_sound();
        self.worker.after(observed);
        self.left = left_after(self.left, self.worker.plan(), observed);
        true
    }

    /// The channel at which it is, from 0: at the answer that of the copy.
    pub fn channel(&self) -> u32
        ensures { result ≡ self.now.worker.channel }
    {
        self.worker.channel()
    }

    // The place in the reply of the word that its next step stores.
    #[tactic(auto, using(crate::proofs::MoveLemmas::place_planned, crate::proofs::MoveLemmas::place_within))]
    fn place_to_store(&self) -> Option<u32>
        ensures place { result ≡ place_to_store self.now }
        ensures within { IfSome result (λ place. place < 12) }
    {
        if self.is_taking_over() {
            return None;
        }
        self.worker.establish_sound();
        place_of(self.worker.plan())
    }

    /// How many of its next steps move one word of the block or of the reply each, whatever they find.
    #[tactic(auto, using(crate::proofs::MoveLemmas::moves_placed, crate::proofs::MoveLemmas::moves_copied))]
    pub fn moves(&self) -> u32
        ensures { result ≡ host_moves self.now }
    {
        if self.is_taking_over() {
            return 0;
        }
        match self.place_to_store() {
            Some(place) => 12 - place,
            None => self.left,
        }
    }

    // Whether its next step loads a word of the block into the copy.
    #[tactic(auto, using(crate::proofs::MoveLemmas::copying_left))]
    fn is_copying(&self) -> bool
        ensures { result ≡ is_copying self.now }
    {
        self.worker.establish_sound();
        !self.is_taking_over() && self.left > 0
    }

    /// Goes on from loads of the next words of the block by their values, each loaded by one atomic step, in order. False exactly if its
    /// next steps are not that many loads of the block; then nothing changes.
    pub fn loaded(&mut self, values: &[u64]) -> bool
        ensures done { result ≡ can_load self.old (length values.now) }
        ensures after { self.new ≡ after_loads self.old values.now }
    {
        if !self.is_copying() || values.len() > self.moves() as usize {
            return false;
        }
        for value in values {
            self.after(Observed::Value(*value));
        }
        true
    }

    /// The values of the reply that its next steps store, one each. Empty if its next step stores none.
    #[tactic(auto, using(crate::proofs::MoveLemmas::values_kept, crate::proofs::MoveLemmas::no_values))]
    pub fn values(&self) -> &[u64]
        ensures { result.now ≡ values_to_store self.now }
    {
        match self.place_to_store() {
            Some(place) => &self.reply[place as usize..],
            None => &[],
        }
    }

    /// Goes on from this many stores of the next words of the reply. False exactly if its next steps are not that many stores of the
    /// reply; then nothing changes.
    #[tactic(auto, using(crate::proofs::MoveLemmas::one_done))]
    pub fn stored(&mut self, count: u32) -> bool
        ensures done { result ≡ can_store self.old count }
        ensures after { self.new ≡ after_stores self.old count }
    {
        if self.place_to_store().is_none() || count > self.moves() {
            return false;
        }
        let mut left = count;
        while left > 0 {
            self.after(Observed::Done);
            left -= 1;
        }
        true
    }

    /// Decides the copy by the policy with this number. The decision stays until the reply.
    ///
    /// # Errors
    /// `Unfit` exactly if there is no copy to answer, it is decided already, or there is no such policy; `NoMemory` if there was none for
    /// the call's strings. Then nothing changes.
    pub fn decide(&mut self, alloc: Global, set: &PolicySet, policy: u32) -> Result<(), Undecided>
        ensures decided { OnOk result (self.new ≡ after_decision self.old (policy_at set.now.policies policy)) }
        ensures fits { OnOk result (can_decide self.old (length set.now.policies) policy ≡ true) }
        ensures unfit { IfErr result (IsUnfit (can_decide self.old (length set.now.policies) policy)) }
        ensures memory { IfErr result (LacksMemory (is_some (asked self.old))) }
        ensures same { OnErr result (self.new ≡ self.old) }
    {
        if policy as usize >= set.len() || self.decision.is_some() {
            return Err(Undecided::Unfit);
        }
        let Some(copy) = self.copy_to_answer() else {
            return Err(Undecided::Unfit);
        };
        match decision_of(alloc, set, policy, copy) {
            Ok(decision) => {
                self.decision = Some(decision);
                Ok(())
            }
            Err(NoMemory) => Err(Undecided::NoMemory),
        }
    }

    /// What is decided, without the arguments. None exactly if nothing is.
    pub fn ruling(&self) -> Option<Ruling>
        ensures { result ≡ option_map ruling_of self.now.decision }
    {
        match &self.decision {
            Some(decision) => Some(decision.ruling()),
            None => None,
        }
    }

    /// The arguments that are granted, by which alone the call may be performed. Empty if the call is not performed.
    pub fn args(&self) -> &[Arg]
        ensures { result.now ≡ granted_args self.now.decision }
    {
        match &self.decision {
            Some(decision) => decision.args(),
            None => &[],
        }
    }

    /// The call that the copy to answer asks for, whatever is decided of it: for logs. It must never be performed, since `readonly`
    /// grants less than was asked for. None exactly if there is no copy to answer or it has a fault.
    ///
    /// # Errors
    /// `NoMemory` if there was none for the arguments of a copy that asks for a call.
    pub fn asked(&self, alloc: Global) -> Result<Option<Call>, NoMemory>
        ensures call { IfOk result (λ call. call ≡ asked self.now) }
        ensures memory { OnErr result (is_some (asked self.now) ≡ true) }
    {
        let Some(copy) = self.copy_to_answer() else {
            return Ok(None);
        };
        match decode(alloc, copy) {
            Ok(call) => Ok(Some(call)),
            Err(BlockRefused::Fault(_)) => Ok(None),
            Err(BlockRefused::NoMemory) => Err(NoMemory),
        }
    }

    /// Goes on from the answer by the reply to what was decided: the host's answer if the call is performed, and else what the decision
    /// says. False exactly if there is no copy to answer or nothing is decided of it; then nothing changes.
    #[tactic(auto, using(crate::proofs::AnswerLemmas::marked_answer, crate::proofs::AnswerLemmas::answer_is_planned, crate::proofs::MoveLemmas::reply_taken))]
    pub fn reply(&mut self, answer: &Answer) -> bool
        ensures done { result ≡ can_reply self.old }
        ensures after { self.new ≡ after_answer self.old answer.now }
    {
        let Some(decision) = &self.decision else {
            return false;
        };
        let Some(copy) = self.copy_to_answer() else {
            return false;
        };
        let reply = host_reply(copy.mark(), decision, answer);
        self.worker.accept_reply(&reply);
        self.reply = reply_words(&reply);
        self.decision = None;
        true
    }

    /// Performs what was decided in a namespace of the product's own, for a target with this number, and goes on from the answer by its
    /// reply. `Ok(false)` exactly if there is no copy to answer or nothing is decided of it; then nothing changes.
    ///
    /// # Errors
    /// `NoMemory` if the call grants a handle or renames, and the namespace had none for that; then nothing changes.
    #[tactic(auto, using(crate::proofs::AnswerLemmas::marked_answer, crate::proofs::AnswerLemmas::answer_is_planned, crate::proofs::MoveLemmas::reply_taken))]
    pub fn perform(&mut self, kernel: &mut Kernel, target: u32) -> Result<bool, NoMemory>
        ensures done { IfOk result (λ done. done ≡ can_reply self.old) }
        ensures after { OnOk result (self.new ≡ after_performing self.old kernel.old target) }
        ensures space { OnOk result (kernel.new ≡ space_after_performing self.old kernel.old target) }
        ensures decided { OnErr result (can_reply self.old ≡ true) }
        ensures memory { OnErr result (takes_space_for self.old.decision kernel.old target ≡ true) }
        ensures same { OnErr result ((self.new ≡ self.old) × (kernel.new ≡ kernel.old)) }
    {
        performing_is_answering();
        let Some(decision) = &self.decision else {
            return Ok(false);
        };
        let Some(copy) = self.copy_to_answer() else {
            return Ok(false);
        };
        let answer = answer_in(kernel, target, decision)?;
        let reply = host_reply(copy.mark(), decision, &answer);
        self.worker.accept_reply(&reply);
        self.reply = reply_words(&reply);
        self.decision = None;
        Ok(true)
    }
}

// What a policy decides of a copy. What it grants fits the call.
fn decision_of(
    alloc: Global,
    set: &PolicySet,
    policy: u32,
    copy: &BlockCopy,
) -> Result<Decision, NoMemory>
    requires { policy < length set.now.policies }
    ensures decision { IfOk result (λ d. d ≡ decision_of (policy_at set.now.policies policy) copy.now) }
    ensures fits { IfOk result (λ d. is_fitting d ≡ true) }
    ensures memory { OnErr result (fault copy.now ≡ None) }
{
    faultless_copies_fit();
    decide(alloc, set, policy, copy)
}

// What a namespace answers to a decision.
fn answer_in(kernel: &mut Kernel, target: u32, decision: &Decision) -> Result<Answer, NoMemory>
    requires fits { is_fitting decision.now ≡ true }
    ensures answer { IfOk result (λ answer. IsSpaceAnswer kernel.old target decision.now answer) }
    ensures space { OnOk result (kernel.new ≡ space_after kernel.old target decision.now) }
    ensures memory { OnErr result (takes_space kernel.old target decision.now ≡ true) }
    ensures same { OnErr result (kernel.new ≡ kernel.old) }
{
    match decision {
        Decision::Performed { tag, args, .. } => kernel.perform(target, *tag, args.as_slice()),
        Decision::Refused(_) | Decision::Denied { .. } | Decision::Faked { .. } => {
            Ok(no_answer())
        }
    }
}

// An answer that no target sees.
fn no_answer() -> Answer {
    Answer {
        status: 0,
        handle: 0,
        ext: Extended::empty(),
    }
}
