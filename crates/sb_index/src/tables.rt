// Tables: a set of rules for each range of the values of one feature.
ghost use Rattle.std.specs.Prelude.{◌≡◌, ◌≤◌, ◌+◌, ◌*◌, ◌&&◌, ℕ, [], true, length, slice_index_or, IfOk};
ghost use Rattle.sb_call.specs.Arguments.{arg_at};
ghost use Rattle.sb_rule.specs.Limits.{most_rules};
ghost use Rattle.sb_index.specs.Questions.{value_of, number_in, units_in};
ghost use Rattle.sb_index.specs.Bounds.{first_of, last_of};
ghost use Rattle.sb_index.specs.Questions.{meets};
ghost use Rattle.sb_index.specs.Sets.{has};
ghost use Rattle.sb_index.specs.Tables.{IsTable, rules_for};
ghost use Rattle.sb_index.specs.declared.questions.Question.TheVariants.{Within};

use crate::bounds::Bounds;
use crate::fronts::{key, rest_after};
use crate::questions::Feature;
use crate::sets::RuleSet;
use crate::slots::marks_of;
use sb_base::NoMemory;
use sb_call::{Arg, CallTag};
use sb_rule::Rule;
use std::alloc::Global;

/// The values of a feature, divided by bounds, and for each part the rules that may hold of it.
#[derive(Drop)]
pub struct Table {
    /// The feature.
    pub feature: Feature,
    /// The bounds: each is the first value of a part.
    pub bounds: Bounds,
    /// The sets, one more than there are bounds.
    pub sets: Vec<RuleSet>,
}

// The number of a parameter. A string counts as 0.
fn number_in(args: &[Arg], param: u32) -> u64
    ensures { result ≡ number_in (arg_at args.now param) }
{
    match args.get(param as usize) {
        Some(Arg::Num(number)) => *number,
        _ => 0,
    }
}

/// The units of the string of a parameter. A number has none.
pub fn units_in(args: &[Arg], param: u32) -> &[u16]
    ensures { result.now ≡ units_in (arg_at args.now param) }
{
    match args.get(param as usize) {
        Some(Arg::Str(text)) => text.as_units(),
        _ => &[],
    }
}

fn value_of(feature: Feature, args: &[Arg]) -> u64
    ensures { result ≡ value_of feature args.now }
{
    match feature {
        Feature::Number { param } => number_in(args, param),
        Feature::Front { param, skip } => key(rest_after(units_in(args, param), skip)),
    }
}

impl Table {
    /// The table of a feature with these bounds for the rules of a tag.
    ///
    /// # Errors
    /// `NoMemory` if there was none for the table.
    pub fn new(
        alloc: Global,
        rules: &[Rule],
        tag: CallTag,
        feature: Feature,
        bounds: Bounds,
    ) -> Result<Table, NoMemory>
        requires rules { length rules.now ≤ most_rules }
        requires bounds { length bounds ≤ 2 * length (rules_for tag rules.now) }
        ensures { IfOk result (λ table. IsTable rules.now tag table) }
    {
        let marks = marks_of(alloc, rules, tag, feature, &bounds)?;
        let sets = marks.sets(alloc, bounds.len() + 1)?;
        Ok(Table {
            feature,
            bounds,
            sets,
        })
    }

    #[tactic(auto, using(crate::proofs::TableLemmas::slot_found))]
    /// Takes the rules out of a set that are not in the set of the slot of these arguments.
    pub fn narrow(&self, args: &[Arg], set: &mut RuleSet)
        requires { length self.now.sets.items ≡ length self.now.bounds + 1 }
        ensures { (slot : ℕ) × (slot ≤ length self.now.bounds)
            × (meets (Within self.now.feature (first_of self.now.bounds slot) (last_of self.now.bounds slot)) args.now ≡ true)
            × ((k : ℕ) → has set.new k ≡ (has set.old k && has (slice_index_or self.now.sets.items slot []) k)) }
    {
        let slot = self.bounds.slot_of(value_of(self.feature, args));
        set.intersect(&self.sets[slot]);
    }
}
