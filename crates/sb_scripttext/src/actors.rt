// The names of actors.
ghost use Rattle.std.specs.Prelude.{◌≡◌, ◌≤◌, length};
ghost use Rattle.std.specs.List.{position_or_len, before_first, after_first};
ghost use Rattle.sb_scripttext.specs.Actors.{is_dot, number_32, thread_named, actor_named, actor_of};

use sb_statements::{Actor, Script, is_there};
use sb_text::decimal_of;

// The number of a target or of a thread.
fn number_32(word: &[u8]) -> Option<u32>
    ensures { result ≡ number_32 word.now }
{
    u32::try_from(decimal_of(word)?).ok()
}

// How many bytes precede the first dot, all if there is none.
fn dot_at(word: &[u8]) -> usize
    ensures value { result ≡ position_or_len is_dot word.now }
    ensures within { result ≤ length word.now }
{
    word.iter()
        .position(|byte| *byte == b'.')
        .unwrap_or(word.len())
}

// What is after the first dot, nothing if there is none.
fn after_dot(word: &[u8]) -> &[u8]
    ensures { result.now ≡ after_first is_dot word.now }
{
    let at = dot_at(word);
    if at < word.len() {
        &word[at + 1..]
    } else {
        &[]
    }
}

// What precedes the first dot.
fn before_dot(word: &[u8]) -> &[u8]
    ensures { result.now ≡ before_first is_dot word.now }
{
    &word[..dot_at(word)]
}

// `T.K` names thread K of target T.
fn thread_named(word: &[u8]) -> Option<Actor>
    ensures { result ≡ thread_named word.now }
{
    let target = number_32(before_dot(word))?;
    let thread = number_32(after_dot(word))?;
    Some(Actor::Thread { target, thread })
}

// `bT` names the worker of target T, and `tT.K` its thread K.
fn actor_named(word: &[u8]) -> Option<Actor>
    ensures { result ≡ actor_named word.now }
{
    match word {
        [b'b', digits @ ..] => {
            let target = number_32(digits)?;
            Some(Actor::Worker { target })
        }
        [b't', numbers @ ..] => thread_named(numbers),
        _ => None,
    }
}

/// The actor of the script that a word names.
pub(crate) fn actor_of(script: &Script, word: &[u8]) -> Option<Actor>
    ensures { result ≡ actor_of script.now.targets word.now }
{
    let actor = actor_named(word)?;
    if is_there(script, actor) {
        Some(actor)
    } else {
        None
    }
}
