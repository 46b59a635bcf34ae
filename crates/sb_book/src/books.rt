// The book: every entry of a run so far, and the namespace that they led to.
ghost use Rattle.std.specs.Prelude.{◌≡◌, ◌≤◌, ◌<◌, true, length, is_ok, slice_index, OnOk, OnErr, IfOk};
ghost use Rattle.sb_block.specs.Copies.{is_copy, mark_of};
ghost use Rattle.sb_rule.specs.Verdicts.{policy_at};
ghost use Rattle.sb_book.specs.Decisions.{decision_of, is_fitting};
ghost use Rattle.sb_book.specs.Histories.{History, IsHistory, new_history, setting_of, reply_of, space_after, answered};

use crate::decisions::Decision;
use crate::entries::Entries;
use crate::replies::{
    DENIED_OUTCOME, FAKED_OUTCOME, REFUSED_OUTCOME, fault_words, performed_reply,
};
use crate::run_starts::RunStart;
use crate::slices::EntrySlice;
use crate::stores::EntryStore;
use sb_base::NoMemory;
use sb_block::{BlockCopy, faultless_copies_fit};
use sb_call::{ACCESS_DENIED, Extended, INVALID_PARAMETER, Reply, SUCCESS};
use sb_kernel::Kernel;
use sb_rule::Policies;
use sb_statements::Script;
use std::alloc::Global;
use std::marker::Model;
use std::snapshot::Snapshot;

/// The append-only history of what the broker decided: every entry so far, and the namespace that they led to. Contracts also see
/// the policies and channels of the targets and what is there at the start. The entries are always a legal history of that
/// setting.
pub struct Book {
    kernel: Kernel,
    store: EntryStore,
    // The policies and the script with which the book was made, for proofs.
    policies: Snapshot<Policies>,
    script: Snapshot<Script>,
}

// What a book holds is dropped by one call, which is proved here once and not in each crate that drops a book.
impl Drop for Book {
    fn drop(self) {
        let Book {
            kernel: _,
            store: _,
            policies: _,
            script: _,
        } = self;
    }
}

impl Model for Book {
    ghost use Rattle.sb_book.specs.Histories.{History, IsHistory, setting_of};

    ghost Value = { History };

    ghost view = { λ b. record { setting = setting_of b.policies.value.list b.script.value; space = b.kernel; entries = b.store.entries } };

    ghost invariant = { λ b. IsHistory (record { setting = setting_of b.policies.value.list b.script.value; space = b.kernel; entries = b.store.entries }) };
}

// A copy keeps the rule of a copy. It does nothing.
fn establish_whole(taken: &BlockCopy)
    ensures { is_copy taken.now ≡ true }
{
    let _words = taken.words();
}

// Performs what is decided, and gives the reply. After an error nothing is changed.
fn carry_out(
    kernel: &mut Kernel,
    target: u32,
    mark: u64,
    decision: &Decision,
) -> Result<Reply, NoMemory>
    requires fits { is_fitting decision.now ≡ true }
    ensures reply { IfOk result (λ r. r ≡ reply_of kernel.old target mark decision.now) }
    ensures ok { OnOk result (kernel.new ≡ space_after kernel.old target decision.now) }
    ensures err { OnErr result (kernel.new ≡ kernel.old) }
{
    match decision {
        Decision::Refused(fault) => Ok(Reply {
            mark,
            outcome: REFUSED_OUTCOME,
            status: u64::from(INVALID_PARAMETER),
            handle: 0,
            ext: fault_words(*fault),
        }),
        Decision::Denied { .. } => Ok(Reply {
            mark,
            outcome: DENIED_OUTCOME,
            status: u64::from(ACCESS_DENIED),
            handle: 0,
            ext: Extended::empty(),
        }),
        Decision::Faked { .. } => Ok(Reply {
            mark,
            outcome: FAKED_OUTCOME,
            status: u64::from(SUCCESS),
            handle: 0,
            ext: Extended::empty(),
        }),
        Decision::Performed { tag, args, .. } => {
            let answer = kernel.perform(target, *tag, args.as_slice())?;
            Ok(performed_reply(mark, answer))
        }
    }
}

impl Book {
    /// The book of a run that begins: no entries, and the namespace that the script opens with. Does not allocate.
    pub fn new(alloc: Global, start: RunStart<'_>) -> Book
        ensures { result ≡ new_history (setting_of start.entry.policies start.entry.script) }
    {
        let ready = start.ready();
        Book {
            kernel: start.into_kernel(),
            store: EntryStore::new(alloc),
            policies: Snapshot::of(ready.policies().policies()),
            script: Snapshot::of(ready.script().script()),
        }
    }

    /// Appends the entry of a copy and its decision, performs what is decided, and gives the entry's reply. The target and
    /// the channel are there, and the decision is that of the target's policy on the copy.
    ///
    /// # Errors
    /// `NoMemory` if there was none for the entry or for what the call makes; then the book is as it was.
    #[tactic(auto, using(crate::proofs::Fitting::decided_fits, crate::proofs::Legal::answered_is_legal))]
    pub fn answer(
        &mut self,
        target: u32,
        channel: u32,
        taken: &BlockCopy,
        decision: Decision,
    ) -> Result<Reply, NoMemory>
        requires target_there { target < length self.old.setting.policies }
        requires channel_there { channel < slice_index self.old.setting.channels target }
        requires decided { decision ≡ decision_of (policy_at self.old.setting.policies target) taken.now }
        ensures reply { IfOk result (λ r. r ≡ reply_of self.old.space target (mark_of taken.now) decision) }
        ensures ok { OnOk result (self.new ≡ answered self.old target channel taken.now decision) }
        ensures err { OnErr result (self.new ≡ self.old) }
    {
        faultless_copies_fit();
        establish_whole(taken);
        self.store.reserve(decision.args())?;
        let reply = carry_out(&mut self.kernel, target, taken.mark(), &decision)?;
        self.store
            .push_reserved(target, channel, taken, &decision, &reply);
        Ok(reply)
    }

    /// The entries, in order.
    pub fn entries(&self) -> EntrySlice<'_>
        ensures { result ≡ self.now.entries }
    {
        self.store.as_slice()
    }

    /// The entries and the namespace, taken out.
    pub fn into_parts(self) -> (Entries, Kernel)
        ensures entries { result.0 ≡ self.entries }
        ensures space { result.1 ≡ self.space }
    {
        let Book {
            kernel,
            store,
            policies: _,
            script: _,
        } = self;
        (Entries::of(store), kernel)
    }
}
