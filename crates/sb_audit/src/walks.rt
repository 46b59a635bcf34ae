// One walk through the lines of a transcript.
ghost use Rattle.std.specs.Prelude.{◌≡◌, ◌<◌, ◌^◌, ◌+◌, ℕ, [], length, None, Some, true, IfOk, OnOk};
ghost use Rattle.sb_book.specs.Histories.{setting_of};
ghost use Rattle.sb_statements.specs.Scripts.{is_clean};
ghost use Rattle.sb_audit.specs.Audited.{policy_of};
ghost use Rattle.sb_audit.specs.Clauses.{is_at, is_due_after};
ghost use Rattle.sb_audit.specs.Before.{target_of};
ghost use Rattle.sb_audit.specs.Kept.{AreAtMost, EntryFollows, Follows, IsOwnPlace, Keeps, RowsFollow, after_result, after_totals, decision_kept, due_kept, end_kept, entry_kept, failing_kept, is_own_kept, result_kept, totals_kept};

use crate::answers::AuditAnswer;
use crate::contexts::Context;
use crate::counts::{no_totals, same_totals, with_entry, with_result};
use crate::decisions::{due_call, own_place};
use crate::dues::{Due, PlaceDue, ResultDue};
use crate::forms::due_form;
use crate::own_places::OwnPlace;
use crate::places::{due_spot, target_of};
use crate::replies::{due_reply, reply_due, same_reply};
use crate::results::{due_result, is_fitting};
use crate::rows::Rows;
use crate::rules::{due_rule, shows_rule};
use crate::slots::OwnReply;
use crate::spots::Spot;
use sb_base::NoMemory;
use sb_book::ReadyScript;
use sb_kernel::Kernel;
use sb_rule::{Judge, Policy};
use sb_transcript::{EntryLine, Line, ResultLine, TotalsLine};
use std::alloc::Global;
use std::marker::Model;

/// What is kept of the lines that were read: the namespace that their performed calls led to, how many there are of each kind, whether
/// the totals were read, and the replies of the entries on clean channels. Contracts see these.
pub(crate) struct Walk {
    kernel: Kernel,
    totals: TotalsLine,
    has_totals: bool,
    rows: Rows,
}

impl Drop for Walk {
    fn drop(self) {
        let Walk {
            kernel: _,
            totals: _,
            has_totals: _,
            rows: _,
        } = self;
    }
}

impl Model for Walk {
    ghost use Rattle.sb_audit.specs.Kept.{KeptAt};

    ghost Value = { KeptAt };

    ghost view = { λ w. record { space = w.kernel; totals = w.totals; ended = w.has_totals; rows = w.rows } };
}

// Whether a result is that of the statement at a place.
fn is_at(context: &Context<'_>, line: &ResultLine, spot: Option<Spot>) -> bool
    ensures { result ≡ is_at context.now.script line.now spot }
{
    let Some(spot) = spot else {
        return false;
    };
    let Some(target) = target_of(context.script(), &line.target) else {
        return false;
    };
    target as usize == spot.target
        && line.thread as usize == spot.thread
        && line.place as usize == spot.place
}

// Keeps the reply of an entry that is its own, if its channel is clean.
fn keep_reply(
    rows: &mut Rows,
    context: &Context<'_>,
    policy: &Policy,
    target: u32,
    place: OwnPlace,
    entry: EntryLine,
) -> Result<(), NoMemory>
    requires place { IsOwnPlace policy.now context.now.script rows.old target entry place }
    requires own { is_own_kept policy.now context.now.script rows.old target entry ≡ true }
    ensures { OnOk result (RowsFollow (is_clean context.now.script target entry.channel) target entry rows.old rows.new) }
{
    let _script = context.script();
    match place {
        OwnPlace::At { thread, place } => {
            let EntryLine { channel, reply, .. } = entry;
            rows.put(target, thread, place, OwnReply { channel, reply })
        }
        OwnPlace::NotClean | OwnPlace::NotOwn => Ok(()),
    }
}

impl Walk {
    /// No lines were read.
    pub(crate) fn new(alloc: Global, ready: &ReadyScript) -> Result<Walk, NoMemory>
        ensures { IfOk result (λ walk. Keeps ready.now.script [] walk) }
    {
        let start = ready.start(alloc)?;
        Ok(Walk {
            kernel: start.into_kernel(),
            totals: no_totals(),
            has_totals: false,
            rows: Rows::new(alloc)?,
        })
    }

    // Whether a line is due.
    fn is_due(&self, context: &Context<'_>, line: &Line) -> bool
        ensures { result ≡ is_due_after context.now.script self.now.ended self.now.totals.entries self.now.totals.results line.now }
    {
        if self.has_totals {
            return false;
        }
        let results = self.totals.results;
        match line {
            Line::Entry(entry) => results == 0 && entry.number == self.totals.entries,
            Line::Result(line) => {
                is_at(context, line, due_spot(context.script(), results as usize))
            }
            Line::Totals(_) => due_spot(context.script(), results as usize).is_none(),
        }
    }

    /// What is due after the lines that were read.
    pub(crate) fn due(&self, context: &Context<'_>) -> Due
        ensures { result ≡ due_kept context.now.script self.now }
    {
        Due::Form(due_form(
            context.script(),
            self.has_totals,
            self.totals.entries,
            self.totals.results,
        ))
    }

    // What is due by the clause from 3 to 5 that fails at an entry of a target that has its channel. If none does, the entry is kept.
    fn decision<J: Judge>(
        &mut self,
        context: &Context<'_>,
        judge: &J,
        target: u32,
        entry: EntryLine,
    ) -> Result<Option<Due>, NoMemory>
        requires there { target < length context.now.script.targets }
        requires judge { J.policies judge.now ≡ (setting_of context.now.policies context.now.script).policies }
        requires small { AreAtMost (2 ^ 32) self.old.totals }
        ensures clause { IfOk result (λ f. f ≡ decision_kept (policy_of context.now.policies context.now.script target) context.now.script self.old target entry) }
        ensures kept { IfOk result (λ f. f ≡ None → EntryFollows context.now.script target entry self.old self.new) }
    {
        let policy = context.policy_of(target);
        if !shows_rule(judge, target, policy, &entry.decision) {
            return Ok(Some(Due::Rule(due_rule(judge, target, policy, &entry.decision))));
        }
        let due = reply_due(&mut self.kernel, target, &entry.decision)?;
        if !same_reply(&entry.reply, &due) {
            return Ok(Some(Due::Reply(due_reply(&entry.reply, &due))));
        }
        let place = own_place(context, judge, &self.rows, target, &entry);
        if let OwnPlace::NotOwn = place {
            return Ok(Some(Due::Own(due_call(context, judge, target, &entry))));
        }
        self.totals = with_entry(self.totals, &entry.decision);
        keep_reply(&mut self.rows, context, policy, target, place, entry)?;
        Ok(None)
    }

    // What is due by the clause from 2 to 5 that fails at an entry. If none does, the entry is kept.
    fn entry<J: Judge>(
        &mut self,
        context: &Context<'_>,
        judge: &J,
        entry: EntryLine,
    ) -> Result<Option<Due>, NoMemory>
        requires judge { J.policies judge.now ≡ (setting_of context.now.policies context.now.script).policies }
        requires small { AreAtMost (2 ^ 32) self.old.totals }
        ensures clause { IfOk result (λ f. f ≡ entry_kept context.now.policies context.now.script self.old entry (target_of context.now.script entry.target)) }
        ensures kept { IfOk result (λ f. f ≡ None → (target : ℕ) → target_of context.now.script entry.target ≡ Some target
            → EntryFollows context.now.script target entry self.old self.new) }
    {
        let Some(target) = target_of(context.script(), &entry.target) else {
            let targets = context.script().target_count();
            return Ok(Some(Due::Place(PlaceDue::Target { targets })));
        };
        if !context.has_channel(target, entry.channel) {
            let channels = context.script().channel_count(target);
            return Ok(Some(Due::Place(PlaceDue::Channel { channels })));
        }
        self.decision(context, judge, target, entry)
    }

    // What is due by clause 6, if it fails at a result. If it does not, the result is counted.
    fn result_(&mut self, context: &Context<'_>, line: &ResultLine) -> Option<Due>
        requires small { AreAtMost (2 ^ 32) self.old.totals }
        ensures clause { result ≡ result_kept context.now.script self.old.rows line.now (target_of context.now.script line.now.target) }
        ensures kept { result ≡ None → self.new ≡ after_result self.old }
    {
        let Some(target) = target_of(context.script(), &line.target) else {
            return Some(Due::Result(ResultDue::Statement));
        };
        if !is_fitting(context, &self.rows, target, line) {
            return Some(Due::Result(due_result(context, &self.rows, target, line)));
        }
        self.totals = with_result(self.totals);
        None
    }

    // What is due by clause 7, if it fails at the totals. If it does not, no line may follow.
    fn last(&mut self, totals: &TotalsLine) -> Option<Due>
        ensures clause { result ≡ totals_kept self.old totals.now }
        ensures kept { result ≡ None → self.new ≡ after_totals self.old }
    {
        if !same_totals(totals, &self.totals) {
            return Some(Due::Totals(self.totals));
        }
        self.has_totals = true;
        None
    }

    /// What is due by the lowest clause that fails at the next line, if one does. If none does, the line is kept.
    ///
    /// # Errors
    /// `NoMemory` if there was none for the namespace or for what is kept of the line.
    pub(crate) fn line<J: Judge>(
        &mut self,
        context: &Context<'_>,
        judge: &J,
        line: Line,
    ) -> Result<Option<Due>, NoMemory>
        requires judge { J.policies judge.now ≡ (setting_of context.now.policies context.now.script).policies }
        requires small { AreAtMost (2 ^ 32) self.old.totals }
        ensures clause { IfOk result (λ f. f ≡ failing_kept context.now.policies context.now.script self.old line) }
        ensures kept { IfOk result (λ f. f ≡ None → Follows context.now.script line self.old self.new) }
    {
        if !self.is_due(context, &line) {
            return Ok(Some(self.due(context)));
        }
        match line {
            Line::Entry(entry) => self.entry(context, judge, entry),
            Line::Result(line) => Ok(self.result_(context, &line)),
            Line::Totals(totals) => Ok(self.last(&totals)),
        }
    }

    /// The answer at the end of a text of this number of lines, if no clause failed.
    pub(crate) fn end(&self, context: &Context<'_>, lines: u32) -> AuditAnswer
        requires { lines + 1 < 2 ^ 32 }
        ensures { result ≡ end_kept context.now.script self.now lines }
    {
        if self.has_totals {
            AuditAnswer::Yes {
                entries: self.totals.entries,
                results: self.totals.results,
            }
        } else {
            AuditAnswer::refutation(lines + 1, self.due(context))
        }
    }
}
