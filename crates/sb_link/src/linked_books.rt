// A book that resolves the names of each copy first.
ghost use Rattle.std.specs.Prelude.{◌≡◌, ◌<◌, length, slice_index, IfOk, OnErr, OnOk};
ghost use Rattle.sb_block.specs.Calls.{decoded};
ghost use Rattle.sb_block.specs.Copies.{mark_of};
ghost use Rattle.sb_book.specs.Decisions.{by_decoded};
ghost use Rattle.sb_book.specs.Histories.{JudgesBy, answered, reply_of, setting_of, target_decision};
ghost use Rattle.sb_rule.specs.Verdicts.{policy_at};
ghost use Rattle.sb_link.specs.Answers.{IsFittingCall};
ghost use Rattle.sb_link.specs.LinkedHistories.{IsLinkedHistory, answered_linked, linked_reply, new_linked};

use crate::links::Links;
use crate::stops::{LinkedCopy, Stop, link, stopped_reply};
use sb_base::{NoMemory, Refused};
use sb_block::{BlockCopy, BlockFault, Call};
use sb_book::{Book, Decision, RunStart, decide_call};
use sb_call::{CallTag, Reply};
use sb_rule::Judge;
use std::alloc::Global;
use std::marker::Model;

/// What became of one copy.
pub enum Linked {
    /// The book answered the copy with its names resolved.
    Entry {
        /// The copy as it was taken.
        taken: BlockCopy,
        /// The place of the book's entry, from 0.
        at: usize,
    },
    /// The call stopped before it was judged.
    Stopped {
        /// The number of the target, from 0.
        target: u32,
        /// The number of the target's channel, from 0.
        channel: u32,
        /// The copy as it was taken.
        taken: BlockCopy,
        /// The tag of the call.
        tag: CallTag,
        /// Why it stopped.
        stop: Stop,
        /// What was replied.
        reply: Reply,
    },
}

impl Drop for Linked {
    fn drop(self) {
        match self {
            Linked::Entry { taken: _, at: _ } => {}
            Linked::Stopped {
                target: _,
                channel: _,
                taken: _,
                tag: _,
                stop: _,
                reply: _,
            } => {}
        }
    }
}

/// A book, the links by which the names of each copy are resolved before it is judged, and a log with an item for each answer.
/// Contracts see the links, the history of the book and the log.
pub struct LinkedBook {
    book: Book,
    links: Links,
    log: Vec<Linked>,
}

impl Drop for LinkedBook {
    fn drop(self) {
        let LinkedBook {
            book: _,
            links: _,
            log: _,
        } = self;
    }
}

impl Model for LinkedBook {
    ghost use Rattle.sb_link.specs.LinkedHistories.{IsLinkedHistory, LinkedHistory};

    ghost Value = { LinkedHistory };

    ghost view = { λ b. record { links = b.links; history = b.book; log = b.log.items } };

    ghost invariant = { λ b. IsLinkedHistory (record { links = b.links; history = b.book; log = b.log.items }) };
}

// Decides by the policy of a target on what a copy says.
fn decide_linked<J: Judge>(judge: &J, target: u32, call: Result<Call, BlockFault>) -> Decision
    requires target { target < length (J.policies judge.now) }
    requires fits { IsFittingCall call }
    ensures { result ≡ by_decoded (policy_at (J.policies judge.now) target) call }
{
    match call {
        Ok(call) => decide_call(judge, target, call),
        Err(fault) => Decision::Refused(fault),
    }
}

// Decides on what a copy says and lets the book answer it. After an error the book is as it was.
fn answer_copy<J: Judge>(
    book: &mut Book,
    judge: &J,
    target: u32,
    channel: u32,
    linked: LinkedCopy,
) -> Result<Reply, NoMemory>
    requires target_there { target < length book.old.setting.policies }
    requires channel_there { channel < slice_index book.old.setting.channels target }
    requires judges { JudgesBy (J.policies judge.now) book.old }
    requires call { decoded linked.copy ≡ linked.call }
    requires fits { IsFittingCall linked.call }
    ensures reply { IfOk result (λ r. r ≡ reply_of book.old.space target (mark_of linked.copy) (target_decision book.old target linked.copy)) }
    ensures ok { OnOk result (book.new ≡ answered book.old target channel linked.copy (target_decision book.old target linked.copy)) }
    ensures err { OnErr result (book.new ≡ book.old) }
{
    let LinkedCopy { copy, call } = linked;
    let decision = decide_linked(judge, target, call);
    book.answer(target, channel, &copy, decision)
}

impl LinkedBook {
    /// The book of a run that begins, by these links. Does not allocate.
    pub fn new(alloc: Global, start: RunStart<'_>, links: Links) -> LinkedBook
        ensures { result ≡ new_linked links (setting_of start.entry.policies start.entry.script) }
    {
        LinkedBook {
            book: Book::new(alloc, start),
            links,
            log: Vec::new(alloc),
        }
    }

    /// Resolves the names of a copy, lets the book judge and answer the copy with the resolved names, and adds an item to the log. If a
    /// name does not resolve, or the block with the resolved names would be too big, the call stops: it changes nothing but the log, and
    /// its reply has outcome 2 and the status of a path that is not found.
    ///
    /// The target and the channel are there, and the judge has the policies of the book's targets.
    ///
    /// # Errors
    /// `NoMemory` if there was none for the item, the names, the entry or what the call makes; then all is as it was.
    pub fn answer<J: Judge>(
        &mut self,
        alloc: Global,
        judge: &J,
        target: u32,
        channel: u32,
        taken: &BlockCopy,
    ) -> Result<Reply, NoMemory>
        requires target_there { target < length self.old.history.setting.policies }
        requires channel_there { channel < slice_index self.old.history.setting.channels target }
        requires judges { JudgesBy (J.policies judge.now) self.old.history }
        ensures reply { IfOk result (λ r. r ≡ linked_reply self.old target taken.now) }
        ensures ok { OnOk result (self.new ≡ answered_linked self.old target channel taken.now) }
        ensures err { OnErr result (self.new ≡ self.old) }
    {
        self.log.reserve(1)?;
        match link(alloc, &self.links, taken) {
            Ok(linked) => {
                let at = self.book.entries().len();
                let reply = answer_copy(&mut self.book, judge, target, channel, linked)?;
                self.log.push_reserved(Linked::Entry {
                    taken: taken.copy(),
                    at,
                });
                Ok(reply)
            }
            Err(Refused::Fault(stopped)) => {
                self.log.push_reserved(Linked::Stopped {
                    target,
                    channel,
                    taken: taken.copy(),
                    tag: stopped.tag,
                    stop: stopped.stop,
                    reply: stopped_reply(taken.mark()),
                });
                Ok(stopped_reply(taken.mark()))
            }
            Err(Refused::NoMemory) => Err(NoMemory),
        }
    }

    /// The book.
    pub fn book(&self) -> &Book
        ensures { result.now ≡ self.now.history }
    {
        &self.book
    }

    /// The log: an item for each answer, in order.
    pub fn log(&self) -> &[Linked]
        ensures { result.now ≡ self.now.log }
    {
        self.log.as_slice()
    }

    /// What is true of every such book. It does nothing.
    pub fn establish_linked(&self)
        ensures { IsLinkedHistory self.now }
    {
        let _log = &self.log;
    }
}
