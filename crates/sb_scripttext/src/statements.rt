// `store`, `exchange`, `load` and `wait`: words of channels that are stored and loaded directly.
ghost use Rattle.std.specs.Prelude.{◌≡◌};
ghost use Rattle.sb_scripttext.specs.Statements.{short, value_at, short_at, place_of, place_at, target_word_at, store, exchange, load, wait};
ghost use Rattle.sb_base.specs.Refusals.{Gives};
ghost use Rattle.sb_text.specs.Steps.{Reads};

use crate::faults::ScriptKind::{BadNumber, NoSuchWord, WrongArgs};
use crate::faults::{LineRefused, ScriptKind};
use crate::steps::{BROKEN, at_line_end, at_token, number_at, within};
use sb_statements::{MAX_PATIENCE, Statement, Word};
use sb_text::{Tokens, WordFault, end_at, number_of, word_due};

const LAST_BLOCK_WORD: u64 = 63;

// The faults of a token that is not there, and of an extra one.
const MISSING: ScriptKind = WrongArgs(WordFault::Missing);

const EXTRA: ScriptKind = WrongArgs(WordFault::Extra);

// The number of a target or a channel.
fn short(number: u64) -> u32
    ensures { result ≡ short number }
{
    u32::try_from(number).unwrap_or(u32::MAX)
}

// V: a value.
fn value_at(tokens: &mut Tokens) -> Result<u64, LineRefused>
    ensures { Reads (value_at tokens.old) result tokens.new }
{
    number_at(BadNumber, MISSING, tokens)
}

// T or C: a target or a channel.
#[tactic(auto, unfolding(crate::specs::Statements::short_at))]
fn short_at(tokens: &mut Tokens) -> Result<u32, LineRefused>
    ensures { Reads (short_at tokens.old) result tokens.new }
{
    Ok(short(value_at(tokens)?))
}

// W as a word: its place in the channel.
fn place_of(word: &[u8]) -> Result<u32, ScriptKind>
    ensures { result ≡ place_of word.now }
{
    if word == b"state".as_slice() {
        return Ok(0);
    }
    let number = number_of(word).ok_or(BadNumber)?;
    if number <= LAST_BLOCK_WORD {
        Ok(1 + number as u32)
    } else {
        Err(NoSuchWord)
    }
}

// W: the place of a word in its channel.
#[tactic(auto, unfolding(crate::specs::Statements::place_at))]
fn place_at(tokens: &mut Tokens) -> Result<u32, LineRefused>
    ensures { Reads (place_at tokens.old) result tokens.new }
{
    let word = word_due(BadNumber, BROKEN, MISSING, tokens)?;
    let place = at_token(tokens, place_of(word))?;
    tokens.pass();
    Ok(place)
}

// T C W: a target, and a word of one of its channels.
#[tactic(auto, unfolding(crate::specs::Statements::target_word_at))]
fn target_word_at(tokens: &mut Tokens) -> Result<(u32, Word), LineRefused>
    ensures { Reads (target_word_at tokens.old) result tokens.new }
{
    let target = short_at(tokens)?;
    let channel = short_at(tokens)?;
    let at = place_at(tokens)?;
    Ok((target, Word { channel, at }))
}

/// `store T C W V`, after its first word.
#[tactic(auto, unfolding(crate::specs::Statements::store))]
pub(crate) fn store(tokens: &mut Tokens) -> Result<Statement, LineRefused>
    ensures { Gives (store tokens.old) result }
{
    let (target, word) = target_word_at(tokens)?;
    let value = value_at(tokens)?;
    let store = Statement::Store {
        target,
        word,
        value,
    };
    at_line_end(EXTRA, store, tokens)
}

/// `exchange T C W FROM TO`, after its first word.
#[tactic(auto, unfolding(crate::specs::Statements::exchange))]
pub(crate) fn exchange(tokens: &mut Tokens) -> Result<Statement, LineRefused>
    ensures { Gives (exchange tokens.old) result }
{
    let (target, word) = target_word_at(tokens)?;
    let from = value_at(tokens)?;
    let to = value_at(tokens)?;
    let exchange = Statement::Exchange {
        target,
        word,
        from,
        to,
    };
    at_line_end(EXTRA, exchange, tokens)
}

/// `load T C W`, after its first word.
#[tactic(auto, unfolding(crate::specs::Statements::load))]
pub(crate) fn load(tokens: &mut Tokens) -> Result<Statement, LineRefused>
    ensures { Gives (load tokens.old) result }
{
    let (target, word) = target_word_at(tokens)?;
    at_line_end(EXTRA, Statement::Load { target, word }, tokens)
}

/// `wait T C W V N`, after its first word.
#[tactic(auto, unfolding(crate::specs::Statements::wait))]
pub(crate) fn wait(tokens: &mut Tokens) -> Result<Statement, LineRefused>
    ensures { Gives (wait tokens.old) result }
{
    let (target, word) = target_word_at(tokens)?;
    let value = value_at(tokens)?;
    let due = tokens.copy();
    let loads = value_at(tokens)?;
    end_at(EXTRA, BROKEN, tokens)?;
    let most = at_token(&due, within(1, u64::from(MAX_PATIENCE), loads))?;
    Ok(Statement::Wait {
        target,
        word,
        value,
        most: most as u32,
    })
}
