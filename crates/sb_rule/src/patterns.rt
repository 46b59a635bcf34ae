// Patterns: read from a text, written as one, and matched.
ghost use Rattle.std.specs.Prelude.{◌≡◌, ◌≤◌, length, true, IfOk, Ok};
ghost use Rattle.sb_base.specs.Refusals.{Gives};
ghost use Rattle.sb_rule.specs.PatternLimits.{most_units};
ghost use Rattle.sb_rule.specs.Matching.{matches};
ghost use Rattle.sb_rule.specs.PatternReading.{reading, text_of, is_pattern};

use crate::cells::Cell;
use crate::matching::matches;
use crate::pattern_faults::PatternRefused;
use crate::pattern_reading::{cells_of, fault_of, units_of};
use sb_base::{NoMemory, Wide};
use std::alloc::{AllocError, Global};
use std::marker::Model;

/// A pattern over wide strings, seen as its list of cells.
pub struct Pattern {
    cells: Vec<Cell>,
}

impl Drop for Pattern {
    fn drop(self) {
        let Pattern { cells: _ } = self;
    }
}

impl Model for Pattern {
    ghost use Rattle.std.specs.Prelude.{◌≡◌, List, true};
    ghost use Rattle.sb_rule.specs.declared.cells.Cell.{Cell};
    ghost use Rattle.sb_rule.specs.PatternReading.{is_pattern};

    ghost Value = { List Cell };

    ghost view = { λ p. p.cells.items };

    ghost invariant = { λ p. is_pattern p.cells.items ≡ true };
}

impl Pattern {
    /// The pattern of a text: `*` is any run of units, `?` is one unit, `/?` is a question mark, and any other unit,
    /// also a `/` before anything else, is itself. This is the notation of the policy rules of Chromium's Windows
    /// sandbox, except that two stars in a row and a star before a question mark are refused.
    ///
    /// # Errors
    /// `TooLong` exactly if the text has more than 256 units. Otherwise `DoubleStar` or `StarQuestion` exactly if
    /// a `*` is followed by `*` or by `?`, with the index of the leftmost such star. `NoMemory` if there is none for
    /// the cells.
    pub fn read(alloc: Global, text: &[u16]) -> Result<Pattern, PatternRefused>
        ensures { Gives (reading text.now) result }
    {
        if let Some(fault) = fault_of(text) {
            return Err(PatternRefused::Fault(fault));
        }
        let cells = cells_of(alloc, text)?;
        Ok(Pattern { cells })
    }

    #[tactic(auto, using(crate::proofs::PatternTexts::text_read))]
    /// The text of the pattern, which is read as this pattern. For a pattern that was read it is the text that was read.
    ///
    /// # Errors
    /// `NoMemory` if there is none for the text.
    pub fn text(&self, alloc: Global) -> Result<Wide, NoMemory>
        ensures text { IfOk result (λ text. text ≡ text_of self.now) }
        ensures read { IfOk result (λ text. reading text ≡ Ok self.now) }
    {
        let cells = self.cells();
        let units = units_of(alloc, cells)?;
        Ok(Wide::new(units))
    }

    #[tactic(auto, using(crate::proofs::PatternTexts::few_cells))]
    /// The cells, in order: at most 256, with no `*` before `*` or `?`, no literal `*`, and no literal `/` before `?`.
    pub fn cells(&self) -> &[Cell]
        ensures cells { result.now ≡ self.now }
        ensures pattern { is_pattern self.now ≡ true }
        ensures most { length self.now ≤ most_units }
    {
        &self.cells
    }

    /// Whether the pattern matches the units, all of them: a literal matches a unit that is equal after folding, `?` any one
    /// unit, and `*` any run of units, the empty one included. It does not allocate, and one step for each cell and unit.
    pub fn matches_plain(&self, units: &[u16]) -> bool
        ensures { result ≡ matches self.now units.now }
    {
        matches(self.cells(), units)
    }
}

impl Clone for Pattern {
    ghost is_clone = { λ pattern clone. clone ≡ pattern };

    fn clone(&self) -> Result<Pattern, AllocError> {
        let cells = Vec::from_slice(*self.cells.allocator(), &self.cells)?;
        Ok(Pattern { cells })
    }
}

impl PartialEq for Pattern {
    ghost use Rattle.sb_base.specs.Deciding.{laws_of_decides};
    ghost use Rattle.sb_rule.specs.Cells.{same_cells, cells_decide};

    ghost eq = { same_cells };

    ghost laws = { laws_of_decides same_cells cells_decide };

    fn eq(&self, other: &Pattern) -> bool {
        self.cells == other.cells
    }
}
