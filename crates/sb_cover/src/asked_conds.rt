// Conditions of rules, by their numbers.
ghost use Rattle.std.specs.Prelude.{◌≡◌, ◌≤◌, ◌^◌, ℕ, true, false, length, map};
ghost use Rattle.sb_cover.specs.AskedConds.{cells_of_cond};
ghost use Rattle.sb_cover.specs.Letters.{IsStandIn};
ghost use Rattle.sb_cover.specs.Positions.{cells_at, AreShort};
ghost use Rattle.sb_cover.specs.Shown.{are_plain};

use crate::positions::Cells;
use sb_rule::Cond;

/// A condition of a rule, which is asked of the arguments of a call or of these with the access cut.
pub(crate) struct AskedCond {
    /// The condition.
    pub cond: Cond,
    /// Whether the second argument, the access, is cut to the bits that only read.
    pub is_cut: bool,
}

impl Drop for AskedCond {
    fn drop(self) {
        let AskedCond { cond: _, is_cut: _ } = self;
    }
}

/// Conditions, numbered from 0, with the cells that strings have to match.
pub(crate) struct CondTable {
    /// The conditions.
    pub conds: Vec<AskedCond>,
    /// For each condition the cells, none if it is one on a number.
    pub patterns: Vec<Cells>,
    /// A unit that no pattern names, which is tried in place of all others.
    pub other: u16,
    /// Whether a script can have all that the patterns name.
    pub is_plain: bool,
    ghost cells: { patterns.items ≡ map cells_of_cond conds.items },
    ghost few: { length patterns.items ≤ 2 ^ 20 },
    ghost short: { AreShort patterns.items },
    ghost stands: { IsStandIn patterns.items other },
    ghost plain: { is_plain ≡ true → (k : ℕ) → are_plain false (cells_at patterns.items k) ≡ true },
}

impl Drop for CondTable {
    fn drop(self) {
        let CondTable {
            conds: _,
            patterns: _,
            other: _,
            is_plain: _,
        } = self;
    }
}
