// What all actors share, and one step there.
ghost use Rattle.std.specs.Prelude.{◌≡◌, ◌<◌, true, false, length, slice_index, is_none, is_some, None, IfOk, OnOk, OnErr};
ghost use Rattle.sb_actor.specs.declared.acts.Act.TheVariants.{Answer};
ghost use Rattle.sb_actor.specs.Acts.{observation};
ghost use Rattle.sb_actor.specs.Observations.{Answered, Value, Done, Turn};
ghost use Rattle.sb_actor.specs.WorkerTable.{taken_in, IsAnswer};
ghost use Rattle.sb_book.specs.Histories.{JudgesBy};
ghost use Rattle.sb_core.specs.Shared.{changed, on_answer, turn_taken, Sets, Turns};
ghost use Rattle.sb_core.specs.Words.{loaded, exchanged, some_ready, words_of, IsWordThere};

use crate::words::TargetWords;
use sb_actor::{Act, Memory, Observed, WorkerState};
use sb_base::NoMemory;
use sb_book::{Book, decide};
use sb_call::Reply;
use sb_rule::Judge;
use sb_statements::Word;
use std::alloc::Global;
use std::marker::Model;

/// The channel words of each target, the target whose worker has the turn, and the book.
#[derive(Drop)]
pub(crate) struct Shared {
    pub(crate) words: Vec<TargetWords>,
    pub(crate) turn: Option<u32>,
    pub(crate) book: Book,
}

impl Model for Shared {
    ghost use Rattle.sb_core.specs.Shared.{SharedAt};

    ghost Value = { SharedAt };

    ghost view = { λ s. record { words = s.words.items; turn = s.turn; book = s.book } };
}

impl Shared {
    // A load.
    fn load(&self, target: u32, word: Word) -> Observed
        requires { IsWordThere self.now.words target word }
        ensures { observation result ≡ Value (loaded (words_of self.now.words target) word) }
    {
        Observed::Value(self.words[target as usize].load(word))
    }

    // A store.
    fn store(&mut self, target: u32, word: Word, value: u64) -> Observed
        requires { IsWordThere self.old.words target word }
        ensures seen { observation result ≡ Done }
        ensures shared { self.new ≡ changed self.old (Sets target word value) }
    {
        self.words[target as usize].store(word, value);
        Observed::Done
    }

    // An exchange.
    fn exchange(&mut self, target: u32, word: Word, from: u64, to: u64) -> Observed
        requires { IsWordThere self.old.words target word }
        ensures seen { observation result ≡ Value (loaded (words_of self.old.words target) word) }
        ensures shared { self.new ≡ changed self.old (Sets target word (exchanged (loaded (words_of self.old.words target) word) from to)) }
    {
        Observed::Value(self.words[target as usize].exchange(word, from, to))
    }

    /// The worker of a target takes the turn, if nobody has it.
    pub(crate) fn take_turn(&mut self, target: u32) -> Observed
        ensures seen { observation result ≡ Turn (is_none self.old.turn) }
        ensures shared { self.new ≡ changed self.old (Turns (turn_taken target self.old.turn)) }
    {
        match self.turn {
            Some(_) => Observed::Turn(false),
            None => {
                self.turn = Some(target);
                Observed::Turn(true)
            }
        }
    }

    /// The turn is given back.
    pub(crate) fn give_turn(&mut self) -> Observed
        ensures seen { observation result ≡ Done }
        ensures shared { self.new ≡ changed self.old (Turns None) }
    {
        self.turn = None;
        Observed::Done
    }

    /// The book answers the copy of a target's worker, and gives its reply. After an error nothing is changed.
    ///
    /// # Errors
    /// `NoMemory` if there was none for the call's strings, for the entry, or for what the call makes.
    #[inline(never)]
    pub(crate) fn answer_copy<J: Judge>(
        &mut self,
        alloc: Global,
        judge: &J,
        target: u32,
        worker: &WorkerState,
    ) -> Result<Reply, NoMemory>
        requires judge { JudgesBy (J.policies judge.now) self.old.book }
        requires target { target < length self.old.book.setting.policies }
        requires channel { worker.now.channel < slice_index self.old.book.setting.channels target }
        requires copy { is_some (taken_in worker.now.stage) ≡ true }
        ensures seen { IfOk result (λ reply. Answered reply ≡ (on_answer self.old target worker.now (taken_in worker.now.stage)).seen) }
        ensures shared { OnOk result (self.new ≡ (on_answer self.old target worker.now (taken_in worker.now.stage)).shared) }
        ensures err { OnErr result (self.new ≡ self.old) }
        ensures answer { IfOk result (λ reply. IsAnswer worker.now.stage (Answered reply)) }
    {
        let Some(taken) = worker.taken() else {
            unreachable!()
        };
        let decision = decide(alloc, judge, target, taken)?;
        let reply = self.book.answer(target, worker.channel(), taken, decision)?;
        Ok(reply)
    }

    /// Whether a state word is 3.
    pub(crate) fn some_ready(&self) -> bool
        ensures { result ≡ some_ready self.now.words }
    {
        self.words.iter().any(|words| words.has_ready())
    }
}

// Steps on words. Steps on the turn find nothing here, and leave all as it was.
impl Memory for Shared {
    ghost use Rattle.sb_core.specs.Shared.{IsActThere, on_word};

    ghost allows = { λ s a. IsActThere s.words a };

    ghost finds = { λ s a. (on_word s a).seen };

    ghost leaves = { λ s a. (on_word s a).shared };

    #[inline(always)]
    fn access(&mut self, act: Act) -> Observed {
        match act {
            Act::Load { target, word } => self.load(target, word),
            Act::Store {
                target,
                word,
                value,
            } => self.store(target, word, value),
            Act::Exchange {
                target,
                word,
                from,
                to,
            } => self.exchange(target, word, from, to),
            Act::Take | Act::Answer | Act::Give | Act::Idle => Observed::Done,
        }
    }
}
