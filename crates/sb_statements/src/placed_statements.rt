// The statements of a script one after another, each with its place.
ghost use Rattle.std.specs.Prelude.{◌≡◌, ◌≤◌, ◌∷◌, ◌++◌, [], List, length, slice_get, true, MatchOption, Some, IfOk, IfErr, option_map};
ghost use Rattle.std.specs.List.{list_all};
ghost use Rattle.sb_statements.specs.Limits.{most_threads};
ghost use Rattle.sb_statements.specs.PlacedStatements.{Placed, is_short_thread, placed, placed_in_threads, placed_statements};

use crate::sound_scripts::SoundScript;
use crate::statements::{Statement, Statements};
use std::marker::Model;

/// A statement of a script, and where it is: its target, its thread and its place there, each numbered from 0.
#[derive(Clone, Copy)]
pub struct PlacedStatement<'a> {
    /// The number of the target, less than 8.
    pub target: u32,
    /// The number of the thread among those of the target, less than 4.
    pub thread: u32,
    /// The number of the statement among those of the thread, less than 4,096.
    pub place: u32,
    /// The statement.
    pub statement: &'a Statement,
}

// Statement `n` of these threads of a target, counted from 0 over all of them, or how far `n` is past the last.
#[tactic(auto, using(crate::proofs::PlacedLemmas::here, crate::proofs::PlacedLemmas::later))]
fn nth_in_threads(
    target: u32,
    threads: &[Statements],
    n: usize,
) -> Result<PlacedStatement<'_>, usize>
    requires few { length threads.now ≤ most_threads }
    requires short { list_all is_short_thread threads.now ≡ true }
    ensures here { IfOk result (λ p. (rest : List Placed) → slice_get (placed_in_threads target 0 threads.now ++ rest) n ≡ Some (placed p)) }
    ensures later { IfErr result (λ left. (rest : List Placed) → slice_get (placed_in_threads target 0 threads.now ++ rest) n ≡ slice_get rest left) }
{
    let mut left = n;
    let mut thread = 0;
    let mut rest = threads;
    while let Some((statements, more)) = rest.split_first() {
        let statements = statements.as_slice();
        if let Some(statement) = statements.get(left) {
            return Ok(PlacedStatement {
                target,
                thread,
                place: left as u32,
                statement,
            });
        }
        left -= statements.len();
        thread += 1;
        rest = more;
    }
    Err(left)
}

impl SoundScript {
    /// Statement `n` by target, thread and place, counted from 0, or None if there are not that many. It goes past whole threads.
    #[tactic(auto, using(crate::proofs::PlacedLemmas::few_and_short))]
    pub fn nth_statement(&self, n: usize) -> Option<PlacedStatement<'_>>
        ensures { option_map placed result ≡ slice_get (placed_statements self.now) n }
    {
        self.establish_sound();
        let mut left = n;
        let mut target = 0;
        let mut rest = self.targets.as_slice();
        while let Some((script, more)) = rest.split_first() {
            match nth_in_threads(target, script.threads.as_slice(), left) {
                Ok(found) => return Some(found),
                Err(later) => left = later,
            }
            target += 1;
            rest = more;
        }
        None
    }

    /// The statements, by target, thread and place.
    pub fn statements(&self) -> StatementCursor<'_>
        ensures { result ≡ placed_statements self.now }
    {
        StatementCursor {
            script: self,
            next: 0,
        }
    }
}

/// The statements of a script that are left, by target, thread and place. Contracts see the list of them.
pub struct StatementCursor<'a> {
    script: &'a SoundScript,
    // The number of the first statement that is left.
    next: usize,
}

impl<'a> Drop for StatementCursor<'a> {
    fn drop(self) {
        let StatementCursor { script: _, next: _ } = self;
    }
}

impl<'a> Model for StatementCursor<'a> {
    ghost use Rattle.std.specs.Prelude.{List, drop};
    ghost use Rattle.sb_statements.specs.PlacedStatements.{Placed, placed_statements};

    ghost Value = { List Placed };

    ghost view = { λ c. drop c.next (placed_statements c.script.now) };
}

impl<'a> StatementCursor<'a> {
    /// The first statement and those after it, or None if there are none. It goes past at most 32 threads.
    #[tactic(auto, using(crate::proofs::PlacedLemmas::first_left, crate::proofs::PlacedLemmas::none_left, crate::proofs::PlacedLemmas::few_statements))]
    pub fn split_first(&self) -> Option<(PlacedStatement<'a>, StatementCursor<'a>)>
        ensures { MatchOption result (self.now ≡ []) (λ parts. self.now ≡ placed parts.0 ∷ parts.1) }
    {
        self.script.establish_sound();
        let first = self.script.nth_statement(self.next)?;
        let later = StatementCursor {
            script: self.script,
            next: self.next + 1,
        };
        Some((first, later))
    }
}
