// Reading the lines below the first.
ghost use Rattle.std.specs.Prelude.{◌≡◌};
ghost use Rattle.std.specs.List.{position};
ghost use Rattle.sb_rule.specs.WellMade.{is_named};
ghost use Rattle.sb_scripttext.specs.Arguments.{call};
ghost use Rattle.sb_scripttext.specs.Lines.{new_name_at, policy_number, policy_at, set_patience, add_target, add_thread, is_line_word, first_word_fault, refused_start, start_line, statement_line, plain_line, line_of};
ghost use Rattle.sb_scripttext.specs.Drafts.{statement_at};
ghost use Rattle.sb_scripttext.specs.Openings.{dir, file, key, event};
ghost use Rattle.sb_scripttext.specs.Statements.{store, exchange, load, wait};
ghost use Rattle.sb_base.specs.Refusals.{Gives};
ghost use Rattle.sb_text.specs.Steps.{Reads, Becomes};
ghost use Rattle.sb_text.specs.Tokens.{tokens_of};

use crate::arguments::call;
use crate::drafts::{Draft, StatementAt};
use crate::faults::ScriptKind::{BadNumber, BadStart, NoSuchPolicy, SameName, UnknownWord};
use crate::faults::{KindRefused, LineRefused, ScriptKind};
use crate::openings::{dir, event, file, key};
use crate::statements::{exchange, load, store, wait};
use crate::steps::{BROKEN, at_token, number_within};
use sb_call::ShortName;
use sb_rule::Policy;
use sb_statements::{MAX_CHANNELS, MAX_PATIENCE, StartLine, Statement, TargetScript, Threads};
use sb_text::{Line, Tokens, WordFault, end_at, or_fails, word_at};
use std::alloc::Global;

// The faults of a quoted token, of one that is not there, of an extra one, and of a line that is out of place.
const QUOTED: ScriptKind = UnknownWord(WordFault::Quoted);

const MISSING: ScriptKind = UnknownWord(WordFault::Missing);

const EXTRA: ScriptKind = UnknownWord(WordFault::Extra);

const MISPLACED: ScriptKind = UnknownWord(WordFault::Misplaced);

// NAME: a short name that no target so far has.
#[tactic(auto, unfolding(crate::specs::Lines::new_name_at))]
fn new_name_at(draft: &Draft, tokens: &mut Tokens) -> Result<ShortName, LineRefused>
    ensures { Reads (new_name_at draft.now.targets tokens.old) result tokens.new }
{
    let due = tokens.copy();
    let word = word_at(QUOTED, BROKEN, MISSING, tokens)?;
    let name = or_fails(&due, UnknownWord(WordFault::Unknown), ShortName::new(word))?;
    if draft.is_named(word) {
        return Err(due.fail(SameName));
    }
    Ok(name)
}

// The place of the first policy of this name, from 0.
fn policy_place(name: &[u8], policies: &[Policy]) -> Option<usize>
    ensures { result ≡ position (is_named name.now) policies.now }
{
    policies
        .iter()
        .position(|policy| policy.name.bytes() == name)
}

// The number of the policy at this place.
fn policy_number(place: usize) -> Result<u32, ScriptKind>
    ensures { result ≡ policy_number place }
{
    u32::try_from(place).ok().ok_or(NoSuchPolicy)
}

// POLICY: the number of the policy of this name.
#[tactic(auto, unfolding(crate::specs::Lines::policy_at))]
fn policy_at(policies: &[Policy], tokens: &mut Tokens) -> Result<u32, LineRefused>
    ensures { Reads (policy_at policies.now tokens.old) result tokens.new }
{
    let due = tokens.copy();
    let word = word_at(NoSuchPolicy, BROKEN, MISSING, tokens)?;
    let place = or_fails(&due, NoSuchPolicy, policy_place(word, policies))?;
    at_token(&due, policy_number(place))
}

// `patience N`, after its first word: before the first target and once.
#[tactic(auto, unfolding(crate::specs::Lines::set_patience, crate::specs::Lines::patience))]
fn set_patience(draft: &mut Draft, line: &Tokens, tokens: &mut Tokens) -> Result<(), LineRefused>
    ensures { Becomes (set_patience draft.old line.now tokens.old) result draft.new }
{
    if draft.patience.is_some() {
        return Err(line.fail(UnknownWord(WordFault::Repeated)));
    }
    if !draft.is_opening() {
        return Err(line.fail(MISPLACED));
    }
    let patience = number_within(1, u64::from(MAX_PATIENCE), BadNumber, MISSING, tokens)?;
    end_at(EXTRA, BROKEN, tokens)?;
    draft.patience = Some(patience as u32);
    Ok(())
}

// `target NAME POLICY CHANNELS`, after its first word.
#[tactic(auto, unfolding(crate::specs::Lines::add_target, crate::specs::Lines::heading))]
fn add_target(
    alloc: Global,
    policies: &[Policy],
    draft: &mut Draft,
    line: &Tokens,
    tokens: &mut Tokens,
) -> Result<(), LineRefused>
    ensures { Becomes (add_target policies.now draft.old line.now tokens.old) result draft.new }
{
    let name = new_name_at(draft, tokens)?;
    let policy = policy_at(policies, tokens)?;
    let channels = number_within(1, u64::from(MAX_CHANNELS), BadNumber, MISSING, tokens)?;
    end_at(EXTRA, BROKEN, tokens)?;
    let target = TargetScript {
        name,
        policy,
        channels: channels as u32,
        threads: Threads::empty(alloc),
    };
    match draft.add_target(target) {
        Ok(()) => Ok(()),
        Err(refused) => Err(line.refuse(refused)),
    }
}

// A `thread` line, after a target.
#[tactic(auto, unfolding(crate::specs::Lines::add_thread))]
fn add_thread(
    alloc: Global,
    draft: &mut Draft,
    line: &Tokens,
    tokens: &Tokens,
) -> Result<(), LineRefused>
    ensures { Becomes (add_thread draft.old line.now tokens.now) result draft.new }
{
    if draft.is_opening() {
        return Err(line.fail(MISPLACED));
    }
    end_at(EXTRA, BROKEN, tokens)?;
    match draft.add_thread(alloc) {
        Ok(()) => Ok(()),
        Err(refused) => Err(line.refuse(refused)),
    }
}

// Whether the word begins a line that is allowed elsewhere in a script.
fn is_line_word(word: &[u8]) -> bool
    ensures { result ≡ is_line_word word.now }
{
    word == b"dir".as_slice()
        || word == b"file".as_slice()
        || word == b"key".as_slice()
        || word == b"event".as_slice()
        || word == b"call".as_slice()
        || word == b"store".as_slice()
        || word == b"exchange".as_slice()
        || word == b"load".as_slice()
        || word == b"wait".as_slice()
}

// Why a line that begins with this word is out of place.
fn first_word_fault(word: &[u8]) -> ScriptKind
    ensures { result ≡ first_word_fault word.now }
{
    if is_line_word(word) {
        MISPLACED
    } else {
        UnknownWord(WordFault::Unknown)
    }
}

// The refusal of an opening line: a bad start is told at the name, and all else at the first word.
fn refuse_start(line: &Tokens, tokens: &Tokens, refused: KindRefused) -> LineRefused
    ensures { result ≡ refused_start line.now tokens.now refused }
{
    match refused {
        KindRefused::Fault(BadStart(why)) => tokens.fail(BadStart(why)),
        refused => line.refuse(refused),
    }
}

// The object of an opening line that begins with this word.
#[tactic(auto, unfolding(crate::specs::Lines::start_line))]
fn start_line(
    alloc: Global,
    word: &[u8],
    line: &Tokens,
    tokens: &mut Tokens,
) -> Result<StartLine, LineRefused>
    ensures { Gives (start_line word.now line.now tokens.old) result }
{
    if word == b"dir".as_slice() {
        dir(alloc, tokens)
    } else if word == b"file".as_slice() {
        file(alloc, tokens)
    } else if word == b"key".as_slice() {
        key(alloc, tokens)
    } else if word == b"event".as_slice() {
        event(alloc, tokens)
    } else {
        Err(line.fail(first_word_fault(word)))
    }
}

// The statement of a line that begins with this word.
#[tactic(auto, unfolding(crate::specs::Lines::statement_line))]
fn statement_line(
    alloc: Global,
    word: &[u8],
    line: &Tokens,
    tokens: &mut Tokens,
) -> Result<Statement, LineRefused>
    ensures { Gives (statement_line word.now line.now tokens.old) result }
{
    if word == b"call".as_slice() {
        call(alloc, line, tokens)
    } else if word == b"store".as_slice() {
        store(tokens)
    } else if word == b"exchange".as_slice() {
        exchange(tokens)
    } else if word == b"load".as_slice() {
        load(tokens)
    } else if word == b"wait".as_slice() {
        wait(tokens)
    } else {
        Err(line.fail(first_word_fault(word)))
    }
}

// Where the statement of a line is, whose tokens after its first word are these.
fn statement_at(number: u32, tokens: &Tokens) -> StatementAt
    ensures { result ≡ statement_at number tokens.now }
{
    let mut after = tokens.copy();
    after.pass();
    StatementAt {
        line: number,
        target: tokens.place(),
        channel: after.place(),
    }
}

// In a thread a statement, before the first target an opening line.
#[tactic(auto, unfolding(crate::specs::Lines::plain_line), using(crate::proofs::Sound::start_named))]
fn plain_line(
    alloc: Global,
    word: &[u8],
    draft: &mut Draft,
    number: u32,
    line: &Tokens,
    tokens: &mut Tokens,
) -> Result<(), LineRefused>
    ensures { Becomes (plain_line word.now draft.old number line.now tokens.old) result draft.new }
{
    let others = tokens.copy();
    if draft.is_in_thread() {
        let at = statement_at(number, tokens);
        let statement = statement_line(alloc, word, line, tokens)?;
        return match draft.add_statement(at, statement) {
            Ok(()) => Ok(()),
            Err(refused) => Err(line.refuse(refused)),
        };
    }
    if !draft.is_opening() {
        return Err(line.fail(first_word_fault(word)));
    }
    let start = start_line(alloc, word, line, tokens)?;
    match draft.add_start(alloc, start) {
        Ok(()) => Ok(()),
        Err(refused) => Err(refuse_start(line, &others, refused)),
    }
}

/// What a line adds to what was read so far. After an error the draft is unspecified.
#[tactic(auto, unfolding(crate::specs::Lines::line_of))]
pub(crate) fn line_of(
    alloc: Global,
    policies: &[Policy],
    draft: &mut Draft,
    line: &Line,
) -> Result<(), LineRefused>
    ensures { Becomes (line_of policies.now draft.old line.now.number (tokens_of line.now.text.now)) result draft.new }
{
    let first = line.tokens();
    let mut tokens = first.copy();
    let word = word_at(QUOTED, BROKEN, MISSING, &mut tokens)?;
    if word == b"patience".as_slice() {
        return set_patience(draft, &first, &mut tokens);
    }
    if word == b"target".as_slice() {
        return add_target(alloc, policies, draft, &first, &mut tokens);
    }
    if word == b"thread".as_slice() {
        return add_thread(alloc, draft, &first, &tokens);
    }
    plain_line(alloc, word, draft, line.number, &first, &mut tokens)
}
