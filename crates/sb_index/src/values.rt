// What a condition says of the values of a feature.
ghost use Rattle.std.specs.Prelude.{◌≡◌, ◌&&◌, ℕ, Bool, Some};
ghost use Rattle.std.specs.List.{list_all, list_any};
ghost use Rattle.sb_index.specs.Questions.{cond_may_pass, front_may_lie, lies, number_may_lie};
ghost use Rattle.sb_index.specs.Values.{AreAdmitted, AreValues, may_lie};
ghost use Rattle.sb_index.specs.declared.questions.Question.TheVariants.{Within};

use crate::fronts::{edge, key, past, rest_after};
use crate::questions::Feature;
use sb_rule::{Cond, Test};

/// Values of a feature.
#[derive(Clone, Copy)]
pub enum Values<'a> {
    /// Some numbers.
    Among(&'a [u64]),
    /// The numbers from `lo` to `hi`, both included.
    Between { lo: u64, hi: u64 },
}

impl<'a> Values<'a> {
    /// Whether one of the values is from `first` to `last`.
    pub fn lie(self, first: u64, last: u64) -> bool
        ensures { result ≡ may_lie self.entry first last }
    {
        match self {
            Values::Among(numbers) => one_lies(numbers, first, last),
            Values::Between { lo, hi } => lo <= last && first <= hi,
        }
    }
}

fn lies(first: u64, last: u64, number: u64) -> bool
    ensures { result ≡ lies first last number }
{
    first <= number && number <= last
}

fn one_lies(numbers: &[u64], first: u64, last: u64) -> bool
    ensures { result ≡ list_any (lies first last) numbers.now }
{
    numbers.iter().any(|number| lies(first, last, *number))
}

fn numbers_of(test: &Test) -> Option<Values<'_>>
    ensures { AreValues result (number_may_lie test.now) }
{
    match test {
        Test::OneOf(numbers) => Some(Values::Among(numbers)),
        Test::Range { lo, hi } => Some(Values::Between { lo: *lo, hi: *hi }),
        Test::Mask(_) | Test::Equal(_) | Test::Like(_) => None,
    }
}

#[tactic(auto, using(crate::proofs::ValueLemmas::one_value))]
fn fronts_of(test: &Test, skip: usize) -> Option<Values<'_>>
    ensures { AreValues result (front_may_lie test.now skip) }
{
    match test {
        Test::OneOf(_) | Test::Range { .. } | Test::Mask(_) => None,
        Test::Equal(text) => {
            let key = key(rest_after(text.as_units(), skip));
            Some(Values::Between { lo: key, hi: key })
        }
        Test::Like(pattern) => {
            let cells = past(pattern.cells(), skip);
            Some(Values::Between {
                lo: edge(cells, 0),
                hi: edge(cells, 65535),
            })
        }
    }
}

/// The values that a condition admits. None if it does not restrict the feature.
#[tactic(auto, using(crate::proofs::ValueLemmas::not_asked))]
pub fn values_of(feature: Feature, cond: &Cond) -> Option<Values<'_>>
    ensures { AreValues result (λ first last. cond_may_pass (Within feature first last) cond.now) }
{
    if cond.negated {
        return None;
    }
    match feature {
        Feature::Number { param } if cond.param == param => numbers_of(&cond.test),
        Feature::Front { param, skip } if cond.param == param => fronts_of(&cond.test, skip),
        _ => None,
    }
}

// Whether a condition admits a value from `first` to `last`, or does not restrict the feature.
fn cond_passes(feature: Feature, cond: &Cond, first: u64, last: u64) -> bool
    ensures { result ≡ cond_may_pass (Within feature first last) cond.now }
{
    match values_of(feature, cond) {
        Some(values) => values.lie(first, last),
        None => true,
    }
}

/// Whether each of some conditions admits a value from `first` to `last`, or does not restrict the feature.
pub fn conds_pass(feature: Feature, conds: &[Cond], first: u64, last: u64) -> bool
    ensures { result ≡ list_all (cond_may_pass (Within feature first last)) conds.now }
{
    conds
        .iter()
        .all(|cond| cond_passes(feature, cond, first, last))
}

// The values that are among these, if there are some, and among those of one more condition: exactly, or of two lists of numbers the
// first.
#[tactic(auto, using(crate::proofs::ValueLemmas::ranges_meet, crate::proofs::ValueLemmas::left_lies, crate::proofs::ValueLemmas::right_lies, crate::proofs::ValueLemmas::first_values))]
fn meet<'a>(all: Option<Values<'a>>, values: Values<'a>) -> Values<'a>
    ensures { (first : ℕ) (last : ℕ) (admits : Bool) → AreAdmitted all.entry first last admits
        → AreAdmitted (Some result) first last (admits && may_lie values.entry first last) }
{
    match all {
        None => values,
        Some(Values::Among(numbers)) => Values::Among(numbers),
        Some(Values::Between { lo, hi }) => match values {
            Values::Among(numbers) => Values::Among(numbers),
            Values::Between { lo: low, hi: high } => Values::Between {
                lo: lo.max(low),
                hi: hi.min(high),
            },
        },
    }
}

/// The values that all of some conditions admit: a range, or if one of them has a list of numbers the numbers of a list. None if they
/// do not concern the feature.
pub fn values_of_all(feature: Feature, conds: &[Cond]) -> Option<Values<'_>>
    ensures { (first : ℕ) (last : ℕ) → AreAdmitted result first last (list_all (cond_may_pass (Within feature first last)) conds.now) }
{
    let mut all = None;
    for cond in conds {
        if let Some(values) = values_of(feature, cond) {
            all = Some(meet(all, values));
        }
    }
    all
}
