// The statements of a thread.
ghost use Rattle.std.specs.Prelude.{◌≡◌, ◌<◌, ◌≤◌, length, true, option_map, IfSome};
ghost use Rattle.sb_actor.specs.Found.{AreFound, IsFound};
ghost use Rattle.sb_actor.specs.Places.{statements_of, statement_at, clean_upto};
ghost use Rattle.sb_statements.specs.CleanTables.{IsCleanTable};

use arrayvec::ArrayVec;
use sb_statements::{CleanTable, SoundScript, Statement, sound_parts};

/// The statements of a thread, none if it is not there.
pub(crate) fn statements_of(script: &SoundScript, target: u32, thread: usize) -> &[Statement]
    ensures { result.now ≡ statements_of script.now target thread }
{
    let Some(target) = script.targets.as_slice().get(target as usize) else {
        return &[];
    };
    match target.threads.as_slice().get(thread) {
        Some(statements) => statements.as_slice(),
        None => &[],
    }
}

/// The statement at a place of a thread of a target, if there is one. All are numbered from 0.
pub fn statement_at(
    script: &SoundScript,
    target: u32,
    thread: usize,
    place: usize,
) -> Option<&Statement>
    ensures { option_map (λ s. s.now) result ≡ statement_at script.now target thread place }
{
    statements_of(script, target, thread).get(place)
}

/// What holds of each statement of a script by its place: it is sound, a call encodes, and it is one of at most 4,096 of one of at most 4
/// threads of one of at most 8 targets. It does nothing.
pub fn establish_found(script: &SoundScript)
    ensures { AreFound script.now }
{
    sound_parts();
    script.establish_sound();
}

/// The statement at a place of a thread of a target, if there is one, with what is known of it.
pub fn sound_statement_at(
    script: &SoundScript,
    target: u32,
    thread: usize,
    place: usize,
) -> Option<&Statement>
    ensures value { option_map (λ s. s.now) result ≡ statement_at script.now target thread place }
    ensures found { IfSome result (λ s. IsFound script.now.targets target thread place s.now) }
{
    establish_found(script);
    statement_at(script, target, thread, place)
}

/// Of the channels of a target, in order, whether each is clean. There are at most 8.
#[tactic(auto, using(crate::proofs::Channels::clean_length, crate::proofs::Channels::clean_more))]
pub(crate) fn clean_upto(
    table: &CleanTable,
    script: &SoundScript,
    target: u32,
    channels: u32,
) -> ArrayVec<bool, 8>
    requires table { IsCleanTable script.now table.now }
    requires target { target < 8 }
    requires few { channels ≤ 8 }
    ensures { result.items ≡ clean_upto script.now target channels }
{
    let _script = script;
    let mut clean = ArrayVec::new();
    for channel in 0..channels {
        clean.push(table.is_clean(target, channel));
    }
    clean
}
