// A thread of a target.
ghost use Rattle.std.specs.Prelude.{◌≡◌, ◌+◌, ◌<◌, ◌≤◌, ◌++◌, ◌∷◌, [], ℕ, length, true, slice_get, slice_index_or, Some, None, option_map, is_some, vec_capacity, IfSome};
ghost use Rattle.std.specs.Option.{option_to_list};
ghost use Rattle.sb_statements.specs.Limits.{most_statements};
ghost use Rattle.sb_statements.specs.Soundness.{channels_of};
ghost use Rattle.sb_statements.specs.declared.scripts.Script.{Script};
ghost use Rattle.sb_actor.specs.ThreadStages.{ThreadAt, Wait};
ghost use Rattle.sb_statements.specs.CleanTables.{IsCleanTable};
ghost use Rattle.sb_actor.specs.Acts.{observation};
ghost use Rattle.sb_actor.specs.Endings.{CanEnd, GoesOn, result_of};
ghost use Rattle.sb_actor.specs.Places.{statement_at, begins, direct_at, thread_start, is_finished, is_over};
ghost use Rattle.sb_actor.specs.ThreadTable.{thread_plan, thread_after, stray_row, after_round, after_try, after_wait, goes_on, reply_by, has_clean};

use crate::acts::{
    ABANDONED, ACKNOWLEDGED, Act, BUSY, FREE, Observed, READY, block_word, exchange, load,
    state_word, store,
};
use crate::endings::Ending;
use crate::marks::mark_at;
use crate::memory::Memory;
use crate::places::{clean_upto, sound_statement_at, statement_at, statements_of};
use crate::stages::ThreadStage;
use arrayvec::ArrayVec;
use sb_block::{FIRST_REPLY_WORD, REPLY_LENGTH, Words, put_block, read_reply};
use sb_call::Reply;
use sb_statements::{CallResult, CleanTable, SoundScript, Statement, StmtResult, sound_parts};
use std::marker::Model;

/// A thread of a target, which makes its statements one after another: a call tries to take a channel, fills it with its block,
/// hands it over, waits for the reply, fetches it and frees the channel. Contracts see its stage, with what belongs to it.
#[derive(Drop)]
pub struct ThreadState {
    target: u32,
    thread: u32,
    patience: u32,
    clean: ArrayVec<bool, 8>,
    place: u32,
    stage: ThreadStage,
    block: Words,
    reply: [u64; 12],
}

impl Model for ThreadState {
    ghost use Rattle.std.specs.Prelude.{◌≡◌, ◌<◌, ◌≤◌, length, true};
    ghost use Rattle.sb_actor.specs.Ranges.{IsSoundThreadStage};
    ghost use Rattle.sb_actor.specs.ThreadStages.{ThreadAt, is_placed, thread_stage};

    ghost Value = { ThreadAt };

    ghost view = { λ x. record {
      target = x.target;
      thread = x.thread;
      patience = x.patience;
      clean = x.clean.items;
      place = x.place;
      block = x.block;
      stage = thread_stage x.stage x.reply;
    } };

    ghost invariant = { λ x. (0 < length x.clean.items) × (length x.clean.items ≤ 8) × (0 < x.patience)
        × (length x.block ≤ 64) × (length x.reply ≡ 12) × (is_placed x.stage x.place ≡ true)
        × IsSoundThreadStage (length x.clean.items) x.patience x.block (thread_stage x.stage x.reply) };
}

fn has_clean(clean: &[bool]) -> bool
    ensures { result ≡ has_clean clean.now }
{
    clean.iter().any(|mark| *mark)
}

// How many channels a target has.
#[tactic(auto, using(crate::proofs::Soundness::sound_channels))]
fn channels_at(script: &SoundScript, target: u32) -> u32
    requires there { target < length script.now.targets }
    ensures channels { result ≡ channels_of (slice_get script.now.targets target) }
    ensures some { 0 < result }
    ensures few { result ≤ 8 }
{
    sound_parts();
    script.establish_sound();
    script.targets.as_slice()[target as usize].channels
}

// The patience of a script.
#[tactic(auto, using(crate::proofs::Soundness::sound_patience))]
fn patience_of(script: &SoundScript) -> u32
    ensures patience { result ≡ script.now.patience }
    ensures some { 0 < result }
{
    script.establish_sound();
    script.patience
}

// The step of a store, an exchange, a load or a wait statement.
fn stray_plan(statement: Option<&Statement>) -> Act
    ensures { (script : Script) (x : ThreadAt) (loads most : ℕ) → result ≡ (stray_row script x loads most (option_map (λ s. s.now) statement.entry)).step }
{
    match statement {
        Some(
            Statement::Store {
                target,
                word,
                value,
            },
        ) => store(*target, *word, *value),
        Some(
            Statement::Exchange {
                target,
                word,
                from,
                to,
            },
        ) => exchange(*target, *word, *from, *to),
        Some(Statement::Load { target, word }) | Some(Statement::Wait { target, word, .. }) => {
            load(*target, *word)
        }
        Some(Statement::Call { .. }) | None => Act::Idle,
    }
}

// Whether one of these channels is clean.
fn is_clean(clean: &[bool], channel: u32) -> bool
    requires { channel < length clean.now }
    ensures { result ≡ slice_index_or clean.now channel true }
{
    clean[channel as usize]
}

// What a fetched reply makes of the call with this mark.
fn reply_by(channel: u32, mark: u64, reply: Reply) -> CallResult
    ensures { result ≡ reply_by channel mark reply }
{
    if reply.mark == mark {
        CallResult::Reply { channel, reply }
    } else {
        CallResult::Foreign {
            channel,
            mark: reply.mark,
        }
    }
}

impl ThreadState {
    /// A thread before its first step, with the clean table of its script. The target and the thread are there.
    #[tactic(auto, using(crate::proofs::Soundness::few_targets, crate::proofs::Channels::clean_length))]
    pub fn with_table(
        script: &SoundScript,
        table: &CleanTable,
        target: u32,
        thread: u32,
    ) -> ThreadState
        requires table { IsCleanTable script.now table.now }
        requires there { target < length script.now.targets }
        ensures { result ≡ thread_start script.now target thread }
    {
        script.establish_sound();
        let channels = channels_at(script, target);
        let mut state = ThreadState {
            target,
            thread,
            patience: patience_of(script),
            clean: clean_upto(table, script, target, channels),
            place: 0,
            stage: ThreadStage::Over,
            block: Words::empty(),
            reply: [0; REPLY_LENGTH],
        };
        state.begin(script, 0);
        state
    }

    // Begins with the statement at a place.
    fn begin(&mut self, script: &SoundScript, place: u32)
        ensures { self.new ≡ begins script.now self.old place }
    {
        self.place = place;
        self.block.clear();
        self.stage = match sound_statement_at(
            script,
            self.target,
            self.thread as usize,
            place as usize,
        ) {
            Some(Statement::Call { tag, args }) => {
                let mark = mark_at(self.thread, place);
                put_block(&mut self.block, *tag, args.as_slice(), mark);
                ThreadStage::Try {
                    channel: 0,
                    rounds: 0,
                    all_abandoned: true,
                }
            }
            Some(Statement::Wait { most, .. }) => ThreadStage::Stray {
                loads: 0,
                most: *most,
            },
            Some(_) => ThreadStage::Stray { loads: 0, most: 1 },
            None => ThreadStage::Over,
        };
    }

    // The result of the statement that ends so.
    #[tactic(auto, using(crate::proofs::Fetched::fetched_whole))]
    fn result(&self, ending: Ending) -> StmtResult
        requires { CanEnd self.now.stage ending }
        ensures { result ≡ result_of self.now ending }
    {
        match ending {
            Ending::NoChannel => StmtResult::Call(CallResult::NoChannel),
            Ending::SendLost { channel, found } => {
                StmtResult::Call(CallResult::SendLost { channel, found })
            }
            Ending::TimedOut { channel } => StmtResult::Call(CallResult::TimedOut { channel }),
            Ending::Replied { channel } => {
                let mark = mark_at(self.thread, self.place);
                StmtResult::Call(reply_by(channel, mark, read_reply(&self.reply)))
            }
            Ending::Stored => StmtResult::Stored,
            Ending::Found(value) => StmtResult::Found(value),
            Ending::Met { loads } => StmtResult::Met { loads },
            Ending::Unmet { loads } => StmtResult::Unmet { loads },
        }
    }

    // The statement ends so, and the next one begins.
    #[inline(never)]
    fn end(&mut self, script: &SoundScript, ending: Ending, results: &mut Vec<StmtResult>)
        requires place { self.old.place < most_statements }
        requires can { CanEnd self.old.stage ending }
        requires room { length results.old.items < vec_capacity results.old }
        ensures thread { self.new ≡ begins script.now self.old (self.old.place + 1) }
        ensures results { results.new.items ≡ results.old.items ++ result_of self.old ending ∷ [] }
        ensures room { vec_capacity results.new ≡ vec_capacity results.old }
    {
        results.push_reserved(self.result(ending));
        self.begin(script, self.place + 1);
    }

    // After the last channel.
    fn after_round(&mut self, rounds: u32, all_abandoned: bool) -> Option<Ending>
        requires rounds { rounds < self.old.patience }
        requires block { 0 < length self.old.block }
        requires place { self.old.place < most_statements }
        ensures { (script : Script) → GoesOn script self.old (after_round script self.old rounds all_abandoned) self.new result }
    {
        let counts = !has_clean(self.clean.as_slice());
        if all_abandoned || counts && rounds + 1 == self.patience {
            return Some(Ending::NoChannel);
        }
        self.stage = ThreadStage::Try {
            channel: 0,
            rounds: if counts { rounds + 1 } else { rounds },
            all_abandoned: true,
        };
        None
    }

    // By what the exchange from free to busy found.
    fn after_try(
        &mut self,
        channel: u32,
        rounds: u32,
        all_abandoned: bool,
        found: u64,
    ) -> Option<Ending>
        requires channel { channel < length self.old.clean }
        requires rounds { rounds < self.old.patience }
        requires block { 0 < length self.old.block }
        requires place { self.old.place < most_statements }
        ensures { (script : Script) → GoesOn script self.old (after_try script self.old channel rounds all_abandoned found) self.new result }
    {
        if found == FREE {
            self.stage = ThreadStage::Fill { channel, at: 0 };
            return None;
        }
        let all_abandoned = all_abandoned & (found == ABANDONED);
        if channel as usize + 1 == self.clean.len() {
            return self.after_round(rounds, all_abandoned);
        }
        self.stage = ThreadStage::Try {
            channel: channel + 1,
            rounds,
            all_abandoned,
        };
        None
    }

    // By the state that a load found, at Wait after that many loads.
    #[inline(always)]
    fn after_wait(&mut self, channel: u32, loads: u32, state: u64)
        requires stage { self.old.stage ≡ Wait channel loads }
        ensures { self.new ≡ (goes_on self.old (after_wait self.old channel loads state)).thread }
    {
        if state == ACKNOWLEDGED {
            self.stage = ThreadStage::Fetch { channel, at: 0 };
        } else if !is_clean(self.clean.as_slice(), channel) {
            self.stage = if loads + 1 == self.patience {
                ThreadStage::Abandon { channel }
            } else {
                ThreadStage::Wait {
                    channel,
                    loads: loads + 1,
                }
            };
        }
    }

    // By what a store, an exchange, a load or a wait statement found after that many loads.
    fn after_stray(
        &mut self,
        script: &SoundScript,
        loads: u32,
        most: u32,
        observed: Observed,
    ) -> Option<Ending>
        requires loads { loads < most }
        requires place { self.old.place < most_statements }
        ensures { GoesOn script.now self.old ((stray_row script.now self.old loads most (statement_at script.now self.old.target self.old.thread self.old.place)).next (observation observed)) self.new result }
    {
        let found = observed.value();
        let loads = loads + 1;
        match self.statement(script) {
            Some(Statement::Store { .. }) => Some(Ending::Stored),
            Some(Statement::Exchange { .. }) | Some(Statement::Load { .. }) => {
                Some(Ending::Found(found))
            }
            Some(Statement::Wait { value, .. }) if found == *value => Some(Ending::Met { loads }),
            Some(Statement::Wait { .. }) if loads == most => Some(Ending::Unmet { loads }),
            Some(Statement::Wait { .. }) => {
                self.stage = ThreadStage::Stray { loads, most };
                None
            }
            Some(Statement::Call { .. }) | None => None,
        }
    }

    // Its statement, if not each has ended.
    fn statement<'s>(&self, script: &'s SoundScript) -> Option<&'s Statement>
        ensures { option_map (λ s. s.now) result ≡ statement_at script.now self.now.target self.now.thread self.now.place }
    {
        let (thread, place) = (self.thread as usize, self.place as usize);
        statement_at(script, self.target, thread, place)
    }

    /// The statement that the thread makes by a step on a word which the statement names: a store, an exchange, a load or a wait. None in
    /// a call, and after the last statement. The script is that of `with_table`.
    pub fn direct_statement<'s>(&self, script: &'s SoundScript) -> Option<&'s Statement>
        ensures { option_map (λ s. s.now) result ≡ direct_at script.now self.now }
    {
        match self.stage {
            ThreadStage::Stray { .. } => self.statement(script),
            _ => None,
        }
    }

    /// Its one next step. The script is that of `with_table`.
    #[inline(always)]
    pub fn plan(&self, script: &SoundScript) -> Act
        ensures plan { result ≡ thread_plan script.now self.now }
    {
        let target = self.target;
        match self.stage {
            ThreadStage::Try { channel, .. } => exchange(target, state_word(channel), FREE, BUSY),
            ThreadStage::Fill { channel, at } => {
                let value = self.block.as_slice()[at as usize];
                store(target, block_word(channel, at), value)
            }
            ThreadStage::Send { channel } => exchange(target, state_word(channel), BUSY, READY),
            ThreadStage::Wait { channel, .. } => load(target, state_word(channel)),
            ThreadStage::Fetch { channel, at } => {
                load(target, block_word(channel, FIRST_REPLY_WORD + at))
            }
            ThreadStage::Free { channel } => store(target, state_word(channel), FREE),
            ThreadStage::Abandon { channel } => store(target, state_word(channel), ABANDONED),
            ThreadStage::Stray { .. } => stray_plan(self.statement(script)),
            ThreadStage::Over => Act::Idle,
        }
    }

    // Makes its next step and goes on by what that finds, or returns how that ends the statement, and then stays as it is.
    #[inline(always)]
    #[tactic(auto, using(crate::proofs::Fetched::last_word))]
    fn go_on<M: Memory>(&mut self, script: &SoundScript, memory: &mut M) -> Option<Ending>
        requires allowed { M.allows memory.old (thread_plan script.now self.old) }
        ensures next { GoesOn script.now self.old (thread_after script.now self.old (M.finds memory.old (thread_plan script.now self.old))) self.new result }
        ensures place { IfSome result (λ _. self.old.place < most_statements) }
        ensures memory { memory.new ≡ M.leaves memory.old (thread_plan script.now self.old) }
    {
        let act = self.plan(script);
        match self.stage {
            ThreadStage::Try {
                channel,
                rounds,
                all_abandoned,
            } => {
                let found = memory.access(act).value();
                return self.after_try(channel, rounds, all_abandoned, found);
            }
            ThreadStage::Fill { channel, at } if at as usize + 1 == self.block.len() => {
                memory.access(act);
                self.stage = ThreadStage::Send { channel };
            }
            ThreadStage::Fill { channel, at } => {
                memory.access(act);
                self.stage = ThreadStage::Fill {
                    channel,
                    at: at + 1,
                };
            }
            ThreadStage::Send { channel } => {
                let found = memory.access(act).value();
                if found != BUSY {
                    return Some(Ending::SendLost { channel, found });
                }
                self.stage = ThreadStage::Wait { channel, loads: 0 };
            }
            ThreadStage::Wait { channel, loads } => {
                let state = memory.access(act).value();
                self.after_wait(channel, loads, state);
            }
            ThreadStage::Fetch { channel, at } if at as usize + 1 == REPLY_LENGTH => {
                self.reply[at as usize] = memory.access(act).value();
                self.stage = ThreadStage::Free { channel };
            }
            ThreadStage::Fetch { channel, at } => {
                self.reply[at as usize] = memory.access(act).value();
                self.stage = ThreadStage::Fetch {
                    channel,
                    at: at + 1,
                };
            }
            ThreadStage::Free { channel } => {
                memory.access(act);
                return Some(Ending::Replied { channel });
            }
            ThreadStage::Abandon { channel } => {
                memory.access(act);
                return Some(Ending::TimedOut { channel });
            }
            ThreadStage::Stray { loads, most } => {
                let observed = memory.access(act);
                return self.after_stray(script, loads, most, observed);
            }
            ThreadStage::Over => {
                memory.access(act);
            }
        }
        None
    }

    /// Makes its next step, which is one row of its table. If that ends the statement, its result is put after `results`, which must have
    /// room for it, and true is returned. The script is that of `with_table`.
    #[inline(always)]
    pub fn step<M: Memory>(
        &mut self,
        script: &SoundScript,
        memory: &mut M,
        results: &mut Vec<StmtResult>,
    ) -> bool
        requires allowed { M.allows memory.old (thread_plan script.now self.old) }
        requires room { IfSome (thread_after script.now self.old (M.finds memory.old (thread_plan script.now self.old))).ended (λ r. length results.old.items < vec_capacity results.old) }
        ensures memory { memory.new ≡ M.leaves memory.old (thread_plan script.now self.old) }
        ensures thread { self.new ≡ (thread_after script.now self.old (M.finds memory.old (thread_plan script.now self.old))).thread }
        ensures results { results.new.items ≡ results.old.items ++ option_to_list (thread_after script.now self.old (M.finds memory.old (thread_plan script.now self.old))).ended }
        ensures room { vec_capacity results.new ≡ vec_capacity results.old }
        ensures ended { result ≡ is_some (thread_after script.now self.old (M.finds memory.old (thread_plan script.now self.old))).ended }
    {
        match self.go_on(script, memory) {
            Some(ending) => {
                self.end(script, ending, results);
                true
            }
            None => false,
        }
    }

    /// Goes on by what its next step found, which was made elsewhere. Results are as those of `step`.
    pub fn after(
        &mut self,
        script: &SoundScript,
        observed: Observed,
        results: &mut Vec<StmtResult>,
    ) -> bool
        requires room { IfSome (thread_after script.now self.old (observation observed)).ended (λ r. length results.old.items < vec_capacity results.old) }
        ensures thread { self.new ≡ (thread_after script.now self.old (observation observed)).thread }
        ensures results { results.new.items ≡ results.old.items ++ option_to_list (thread_after script.now self.old (observation observed)).ended }
        ensures room { vec_capacity results.new ≡ vec_capacity results.old }
        ensures ended { result ≡ is_some (thread_after script.now self.old (observation observed)).ended }
    {
        let mut found = observed;
        self.step(script, &mut found, results)
    }

    /// The target, from 0.
    pub fn target(&self) -> u32
        ensures { result ≡ self.now.target }
    {
        self.target
    }

    /// The thread, from 0.
    pub fn thread(&self) -> u32
        ensures { result ≡ self.now.thread }
    {
        self.thread
    }

    /// The place of its present statement, from 0. The number of statements if it is finished.
    pub fn place(&self) -> u32
        ensures { result ≡ self.now.place }
    {
        self.place
    }

    /// Whether its stage is that after the last statement.
    pub fn is_over(&self) -> bool
        ensures { result ≡ is_over self.now.stage }
    {
        matches!(self.stage, ThreadStage::Over)
    }

    /// Whether each statement has ended. The script is that of `with_table`.
    pub fn finished(&self, script: &SoundScript) -> bool
        ensures { result ≡ is_finished script.now self.now }
    {
        self.place as usize >= statements_of(script, self.target, self.thread as usize).len()
    }
}
