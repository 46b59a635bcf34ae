// Handles that are passed from one target to another.
ghost use Rattle.std.specs.Prelude.{◌≡◌, ◌<◌, ◌∷◌, ◌++◌, [], length, true, Some, bit_and, IfOk, OnOk, OnErr};
ghost use Rattle.std.specs.List.{list_all};
ghost use Rattle.sb_dup.specs.Chains.{answered, table_after};
ghost use Rattle.sb_dup.specs.Lines.{is_between};
ghost use Rattle.sb_dup.specs.Passes.{by_verdicts, given, needs_name, pass};
ghost use Rattle.sb_dup.specs.Passings.{AreKept};
ghost use Rattle.sb_handles.specs.Tables.{held_by};

use crate::moves::{Answered, Move, MoveAnswer};
use crate::openings::opening_of;
use crate::verdicts::{access_granted, has_more, is_granted};
use bitflags::Flags;
use sb_base::NoMemory;
use sb_handles::{Access, HandleTable, Held};
use sb_kernel::Kernel;
use sb_rule::{Judge, Verdict};
use std::alloc::Global;
use std::marker::Model;

/// The handles of a kernel, copied, and those that moves add.
///
/// The copied handles stay as they were. Each further handle has the object and the sharing of a copied one, and no bit of access
/// that this one lacks, however many moves it came by.
#[derive(Drop)]
pub struct Passing<'a> {
    kernel: &'a Kernel,
    handles: HandleTable,
}

impl<'a> Model for Passing<'a> {
    ghost use Rattle.sb_dup.specs.Passings.{AreKept, Moved};

    ghost Value = { Moved };

    ghost view = { λ p. record { space = p.kernel.now; table = p.handles.table } };

    ghost invariant = { λ p. AreKept p.kernel.now.handles.handles p.handles.table.handles };
}

impl<'a> Passing<'a> {
    /// The handles of a kernel, before any move.
    ///
    /// # Errors
    /// `NoMemory` if there was none for the copy of the handles.
    pub fn new(alloc: Global, kernel: &'a Kernel) -> Result<Passing<'a>, NoMemory>
        ensures { IfOk result (λ passing. passing ≡ record { space = kernel.now; table = kernel.now.handles }) }
    {
        let handles = kernel.handles().copy(alloc)?;
        Ok(Passing { kernel, handles })
    }

    /// The handles: those that were copied, and those that moves added.
    pub fn handles(&self) -> &HandleTable
        ensures { result.now.table ≡ self.now.table }
    {
        &self.handles
    }

    /// Establishes for a proof what holds of the handles, whatever moves were made: the first of them are those that were copied, as they
    /// were, and each further one has the object and the sharing of a copied one, and no bit of access that this one lacks. It does nothing.
    pub fn establish_kept(&self)
        ensures { AreKept self.now.space.handles.handles self.now.table.handles }
    {
        let _handles = &self.handles;
    }

    // Grants the handle of a move on what the giver's handle is open on, with an access of which no bit is missing there.
    #[tactic(auto, using(crate::proofs::Keeping::kept_one))]
    fn give(&mut self, m: Move, held: Held, access: u32) -> Result<MoveAnswer, NoMemory>
        requires held { held_by self.old.table m.from m.handle ≡ Some held }
        requires within { bit_and access held.access.0 ≡ access }
        ensures space { self.new.space ≡ self.old.space }
        ensures answer { IfOk result (λ answer. answer ≡ (given self.old.table m.to held access).answer) }
        ensures table { OnOk result (self.new.table ≡ (given self.old.table m.to held access).table) }
        ensures err { OnErr result (self.new ≡ self.old) }
    {
        let held = Held {
            object: held.object,
            access: Access::from_bits_retain(access),
            sharing: held.sharing,
        };
        let handle = self.handles.grant(m.to, held)?;
        Ok(MoveAnswer::Given { handle, access })
    }

    // Makes a move by the two verdicts on the call that opens the object.
    fn pass_by(
        &mut self,
        giver: Verdict,
        taker: Verdict,
        m: Move,
        held: Held,
    ) -> Result<MoveAnswer, NoMemory>
        requires held { held_by self.old.table m.from m.handle ≡ Some held }
        requires within { bit_and m.access held.access.0 ≡ m.access }
        ensures space { self.new.space ≡ self.old.space }
        ensures answer { IfOk result (λ answer. answer ≡ (by_verdicts giver taker m held self.old.table).answer) }
        ensures table { OnOk result (self.new.table ≡ (by_verdicts giver taker m held self.old.table).table) }
        ensures err { OnErr result (self.new ≡ self.old) }
    {
        if !is_granted(giver) {
            return Ok(MoveAnswer::Denied {
                target: m.from,
                verdict: giver,
            });
        }
        if !is_granted(taker) {
            return Ok(MoveAnswer::Denied {
                target: m.to,
                verdict: taker,
            });
        }
        self.give(m, held, access_granted(giver, taker, m.access))
    }

    /// Makes a move, by the policies of both targets, as if each of them opened the object by its name with the access asked for. Both
    /// targets must be there. Sharing conflicts are not looked at, since what is passed on is an opening that is there.
    ///
    /// The first of these that applies is the answer: `NotHeld` if the giver holds no such handle; `MoreAccess` if a bit of the access
    /// is not one of the handle's; `NoOpening` if the object is a pipe; `Denied` if the giver's policy does not let the opening be
    /// performed, or else the taker's; and otherwise `Given`, whose access is cut to the bits that only read if one of the two rules
    /// says `readonly`. A move that is refused changes nothing.
    ///
    /// # Errors
    /// `NoMemory` if the handle is held with this access, and there was none for the name of its object or for the new handle; then
    /// nothing is changed.
    pub fn apply<J: Judge>(
        &mut self,
        alloc: Global,
        judge: &J,
        m: Move,
    ) -> Result<MoveAnswer, NoMemory>
        requires from { m.from < length (J.policies judge.now) }
        requires to { m.to < length (J.policies judge.now) }
        ensures space { self.new.space ≡ self.old.space }
        ensures answer { IfOk result (λ answer. answer ≡ (pass self.old.space (J.policies judge.now) m self.old.table).answer) }
        ensures table { OnOk result (self.new.table ≡ (pass self.old.space (J.policies judge.now) m self.old.table).table) }
        ensures memory { OnErr result (needs_name m self.old.table ≡ true) }
        ensures err { OnErr result (self.new ≡ self.old) }
    {
        let Some(held) = self.handles.lookup(m.from, m.handle) else {
            return Ok(MoveAnswer::NotHeld);
        };
        let access = held.access.bits();
        if has_more(m.access, access) {
            return Ok(MoveAnswer::MoreAccess { held: access });
        }
        let Some(call) = opening_of(alloc, self.kernel, held, m.access)? else {
            return Ok(MoveAnswer::NoOpening);
        };
        let giver = judge.judge(m.from, call.tag, call.args.as_slice());
        let taker = judge.judge(m.to, call.tag, call.args.as_slice());
        self.pass_by(giver, taker, m, held)
    }

    // Makes a move, and appends it with its answer.
    fn apply_next<J: Judge>(
        &mut self,
        alloc: Global,
        judge: &J,
        m: Move,
        answered: &mut Answered,
    ) -> Result<(), NoMemory>
        requires { is_between (length (J.policies judge.now)) m ≡ true }
        ensures space { self.new.space ≡ self.old.space }
        ensures answer { OnOk result (answered.new ≡ answered.old ++ (m, (pass self.old.space (J.policies judge.now) m self.old.table).answer) ∷ []) }
        ensures table { OnOk result (self.new.table ≡ (pass self.old.space (J.policies judge.now) m self.old.table).table) }
    {
        let answer = self.apply(alloc, judge, m)?;
        answered.push((m, answer))?;
        Ok(())
    }

    /// Makes moves one after another, each from the handles that the moves before it left, and returns them with their answers. The
    /// targets of all of them must be there.
    ///
    /// # Errors
    /// `NoMemory` if there was none for a move or for its answer; then some of the moves may have been made.
    pub fn apply_each<J: Judge>(
        &mut self,
        alloc: Global,
        judge: &J,
        moves: &[Move],
    ) -> Result<Answered, NoMemory>
        requires { list_all (is_between (length (J.policies judge.now))) moves.now ≡ true }
        ensures space { self.new.space ≡ self.old.space }
        ensures answers { IfOk result (λ done. done ≡ answered self.old.space (J.policies judge.now) moves.now self.old.table) }
        ensures table { OnOk result (self.new.table ≡ table_after self.old.space (J.policies judge.now) moves.now self.old.table) }
    {
        let mut answered = Answered::empty(alloc);
        let mut rest = moves;
        while let Some((m, later)) = rest.split_first() {
            self.apply_next(alloc, judge, *m, &mut answered)?;
            rest = later;
        }
        Ok(answered)
    }
}
