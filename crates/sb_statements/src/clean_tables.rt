// Which channels of a script are clean, found in one walk over its statements.
ghost use Rattle.std.specs.Prelude.{◌≡◌, ◌&&◌, ◌==◌, ◌<◌, true, replicate};
ghost use Rattle.sb_statements.specs.CleanTables.{clean_at, ClearsWritten, IsCleanTable, some_writes};
ghost use Rattle.sb_statements.specs.Scripts.{writes_channel};

use crate::limits::{MAX_CHANNELS, MAX_TARGETS};
use crate::placed_statements::StatementCursor;
use crate::sound_scripts::SoundScript;
use crate::statements::Statement;
use std::marker::Model;

/// For each of 8 targets and each of its 8 channels whether the channel is clean.
#[derive(Drop)]
pub struct CleanTable {
    table: [[bool; 8]; 8],
}

impl Model for CleanTable {
    ghost use Rattle.std.specs.Prelude.{◌≡◌, ◌<◌, ℕ, List, Bool, [], length, slice_index_or};

    ghost Value = { List (List Bool) };

    ghost view = { λ m. m.table };

    ghost invariant = { λ m. (length m.table ≡ 8) × ((target : ℕ) → target < 8 → length (slice_index_or m.table target []) ≡ 8) };
}

impl CleanTable {
    // All channels are clean.
    fn all() -> CleanTable
        ensures { result ≡ replicate 8 (replicate 8 true) }
    {
        CleanTable {
            table: [[true; 8]; 8],
        }
    }

    /// Whether the channel of a target is clean. One that is not there is.
    pub fn is_clean(&self, target: u32, channel: u32) -> bool
        ensures { result ≡ clean_at self.now target channel }
    {
        match self.table.get(target as usize) {
            Some(table) => *table.get(channel as usize).unwrap_or(&true),
            None => true,
        }
    }

    // The channel of a target is written to. A sound script has no target or channel past the last.
    fn clear(&mut self, target: u32, channel: u32)
        ensures { ClearsWritten (λ t c. target == t && channel == c) self.old self.new }
    {
        if (target as usize) < MAX_TARGETS && channel < MAX_CHANNELS {
            self.table[target as usize][channel as usize] = false;
        }
    }

    fn note(&mut self, statement: &Statement)
        ensures { ClearsWritten (λ t c. writes_channel t c statement.now) self.old self.new }
    {
        match statement {
            Statement::Store { target, word, .. } | Statement::Exchange { target, word, .. } => {
                self.clear(*target, word.channel)
            }
            _ => {}
        }
    }

    fn note_all(&mut self, statements: StatementCursor<'_>)
        ensures { ClearsWritten (some_writes statements.entry) self.old self.new }
    {
        let mut rest = statements;
        while let Some((first, later)) = rest.split_first() {
            self.note(first.statement);
            rest = later;
        }
    }
}

/// Which channels of a script are clean: the answers of `clean` for all channels of 8 targets, in one walk over the
/// statements.
#[tactic(auto, using(crate::proofs::PlacedLemmas::placed_writes))]
pub fn clean_table(script: &SoundScript) -> CleanTable
    ensures { IsCleanTable script.now result }
{
    let mut table = CleanTable::all();
    table.note_all(script.statements());
    table
}
