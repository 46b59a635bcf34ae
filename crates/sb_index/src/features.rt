// Which features tell the rules of a call apart, and the bounds of the ranges of their values. An index may have any features; they
// decide how many rules it leaves out.
ghost use Rattle.std.specs.Prelude.{◌≡◌, ◌≤◌, ◌*◌, length, IfOk};
ghost use Rattle.sb_index.specs.Bounds.{most_bounds};
ghost use Rattle.sb_index.specs.Tables.{rules_for};

use crate::bounds::Bounds;
use crate::questions::Feature;
use crate::values::{Values, values_of};
use sb_base::NoMemory;
use sb_call::{CallTag, ParamKind};
use sb_rule::{MAX_RULES, Rule};
use std::alloc::Global;

// The most units that are skipped before a front.
const MAX_SKIPPED: usize = 48;

// The numbers from `lo` to `hi` begin at `lo` and end before the number after `hi`. That after the highest is 0, which is no bound.
fn push_range(bounds: &mut Vec<u64>, lo: u64, hi: u64) -> Result<(), NoMemory> {
    bounds.extend_from_slice(&[lo, hi.wrapping_add(1)])?;
    Ok(())
}

fn push_values(bounds: &mut Vec<u64>, values: Values<'_>) -> Result<(), NoMemory> {
    match values {
        Values::Among(numbers) => {
            for number in numbers {
                push_range(bounds, *number, *number)?;
            }
            Ok(())
        }
        Values::Between { lo, hi } => push_range(bounds, lo, hi),
    }
}

fn push_rule(bounds: &mut Vec<u64>, feature: Feature, rule: &Rule) -> Result<(), NoMemory> {
    for cond in &rule.conds {
        if let Some(values) = values_of(feature, cond) {
            push_values(bounds, values)?;
        }
    }
    Ok(())
}

// How many rules are for a tag.
fn count_for(rules: &[Rule], tag: CallTag) -> usize
    ensures { result ≡ length (rules_for tag rules.now) }
{
    let mut count = 0;
    for rule in rules {
        if rule.is_for(tag) {
            count += 1;
        }
    }
    count
}

// How many bounds a table may have, so that those of a policy are few together: two for each rule for the tag.
fn bounds_for(rules: &[Rule], tag: CallTag) -> usize
    ensures most { result ≤ most_bounds }
    ensures few { result ≤ 2 * length (rules_for tag rules.now) }
{
    2 * count_for(rules, tag).min(MAX_RULES)
}

/// The bounds of a feature for the rules of a tag, in order and each once: at most two for each rule.
#[tactic(auto, using(crate::proofs::BoundLemmas::not_more))]
pub fn bounds_of(
    alloc: Global,
    rules: &[Rule],
    tag: CallTag,
    feature: Feature,
) -> Result<Bounds, NoMemory>
    ensures { IfOk result (λ bounds. length bounds ≤ 2 * length (rules_for tag rules.now)) }
{
    let mut bounds = Vec::new(alloc);
    for rule in rules {
        if rule.is_for(tag) {
            push_rule(&mut bounds, feature, rule)?;
        }
    }
    bounds.sort_unstable();
    Bounds::new(alloc, &bounds, bounds_for(rules, tag))
}

// The front of a parameter that has the most bounds: the first, if several have as many.
fn best_front(
    alloc: Global,
    rules: &[Rule],
    tag: CallTag,
    param: u32,
) -> Result<Feature, NoMemory> {
    let mut best = Feature::Front { param, skip: 0 };
    let mut most = 0;
    let full = bounds_for(rules, tag);
    for skip in 0..MAX_SKIPPED {
        if most >= full {
            break;
        }
        let feature = Feature::Front { param, skip };
        let count = bounds_of(alloc, rules, tag, feature)?.len();
        if count > most {
            most = count;
            best = feature;
        }
    }
    Ok(best)
}

/// The feature of a parameter that is worth a table.
pub fn feature_of(
    alloc: Global,
    rules: &[Rule],
    tag: CallTag,
    param: u32,
    kind: ParamKind,
) -> Result<Feature, NoMemory> {
    match kind {
        ParamKind::Num | ParamKind::Handle => Ok(Feature::Number { param }),
        ParamKind::Text | ParamKind::Name => best_front(alloc, rules, tag, param),
    }
}
