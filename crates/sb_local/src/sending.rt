// What the targets of a script send of it.
ghost use Rattle.std.specs.Prelude.{◌≡◌, ◌≢◌, ◌≤◌, [], length, IfOk, OnErr};
ghost use Rattle.sb_local.specs.Denials.{denials};
ghost use Rattle.sb_local.specs.Sending.{sent_of};
ghost use Rattle.sb_local.specs.Thinning.{thin};

use crate::denials::{LocalDenial, denials};
use crate::thinning::{make_ready, thin};
use sb_base::{Items, NoMemory};
use sb_book::ReadyScript;
use sb_rule::Judge;
use std::alloc::Global;
use std::marker::Model;

// The ready script without the calls that its targets deny themselves.
fn sent_without<J: Judge>(
    alloc: Global,
    judge: &J,
    written: &ReadyScript,
) -> Result<ReadyScript, NoMemory>
    requires judge { length written.now.script.targets ≤ length (J.policies judge.now) }
    ensures policies { IfOk result (λ r. r.policies ≡ written.now.policies) }
    ensures script { IfOk result (λ r. r.script ≡ (thin (J.policies judge.now) written.now.script).script) }
{
    let thinned = thin(alloc, judge, written.script())?;
    make_ready(written, thinned)
}

// The same if some call is denied, and None if none is.
#[tactic(auto, using(crate::proofs::Denied::script_is_whole))]
fn sent_without_any<J: Judge>(
    alloc: Global,
    judge: &J,
    written: &ReadyScript,
    denied: &[LocalDenial],
) -> Result<Option<ReadyScript>, NoMemory>
    requires judge { length written.now.script.targets ≤ length (J.policies judge.now) }
    requires denied { denied.now ≡ denials (J.policies judge.now) written.now.script }
    ensures policies { IfOk result (λ thinned. (sent_of thinned written.now).policies ≡ written.now.policies) }
    ensures script { IfOk result (λ thinned. (sent_of thinned written.now).script ≡ (thin (J.policies judge.now) written.now.script).script) }
    ensures memory { OnErr result (denied.now ≢ []) }
{
    match denied {
        [] => Ok(None),
        [_, ..] => Ok(Some(sent_without(alloc, judge, written)?)),
    }
}

/// What the targets of a script send of it: the script without the calls that they deny themselves, and these calls. If they deny none, it is
/// the script itself, of which nothing is copied. Contracts see the script that is sent, with the policies, and the calls that are denied.
pub struct SentScript<'a> {
    // As it was written.
    written: &'a ReadyScript,
    // Without the calls that are denied. None if there are none.
    thinned: Option<ReadyScript>,
    denied: Items<LocalDenial>,
}

impl<'a> Drop for SentScript<'a> {
    fn drop(self) {
        let SentScript {
            written: _,
            thinned: _,
            denied: _,
        } = self;
    }
}

impl<'a> Model for SentScript<'a> {
    ghost use Rattle.sb_local.specs.Sending.{Sent, sent_of};

    ghost Value = { Sent };

    ghost view = { λ s. record { ready = sent_of s.thinned s.written.now; denied = s.denied } };
}

impl<'a> SentScript<'a> {
    /// What the targets of a script send of it by this judge, which must know each of them. The time is linear in the script, beside that of
    /// two judgements for each call, and of one if no call is denied.
    ///
    /// # Errors
    /// `NoMemory` only if a call is denied, and there was none for the thinned script or for the list of the calls that are denied.
    pub fn new<J: Judge>(
        alloc: Global,
        judge: &J,
        written: &'a ReadyScript,
    ) -> Result<SentScript<'a>, NoMemory>
        requires judge { length written.now.script.targets ≤ length (J.policies judge.now) }
        ensures policies { IfOk result (λ sent. sent.ready.policies ≡ written.now.policies) }
        ensures script { IfOk result (λ sent. sent.ready.script ≡ (thin (J.policies judge.now) written.now.script).script) }
        ensures denied { IfOk result (λ sent. sent.denied ≡ (thin (J.policies judge.now) written.now.script).denied) }
        ensures memory { OnErr result ((thin (J.policies judge.now) written.now.script).denied ≢ []) }
    {
        let denied = denials(alloc, judge, written.script())?;
        let thinned = sent_without_any(alloc, judge, written, denied.as_slice())?;
        Ok(SentScript {
            written,
            thinned,
            denied,
        })
    }

    /// The script that is sent, with the policies.
    pub fn ready(&self) -> &ReadyScript
        ensures { result.now ≡ self.now.ready }
    {
        match &self.thinned {
            Some(thinned) => thinned,
            None => self.written,
        }
    }

    /// The calls that are denied, by target, thread and place.
    pub fn denied(&self) -> &[LocalDenial]
        ensures { result.now ≡ self.now.denied }
    {
        self.denied.as_slice()
    }
}
