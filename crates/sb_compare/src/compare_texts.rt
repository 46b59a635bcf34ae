// What `compare` writes.
ghost use Rattle.std.specs.Prelude.{◌≡◌, ◌≤◌, ◌++◌, ◌+◌, List, true, length, codes, not, IfErr, IfOk, OnOk};
ghost use Rattle.std.specs.List.{count_by, flat_map, list_all, list_any};
ghost use Rattle.sb_rule.specs.WellMade.{is_named, is_well_made};
ghost use Rattle.sb_compare.specs.CompareTexts.{compare_text, count_both, count_only, is_in, is_less, is_more, only_line, only_lines, total_head, total_line};
ghost use Rattle.sb_compare.specs.ChangeLines.{change_line};
ghost use Rattle.sb_compare.specs.Comparing.{AreCompared};
ghost use Rattle.sb_compare.specs.Faults.{WasExceeded};
ghost use Rattle.sb_compare.specs.declared.changes.ShownChange.{ShownChange};

use crate::answers::performs_more;
use crate::change_lines::put_change;
use crate::changes::ShownChange;
use crate::comparing::compared;
use crate::faults::CompareFault;
use sb_base::{NoMemory, put_named};
use sb_cover::Budget;
use sb_rule::{Policy, WellMadePolicies};
use std::alloc::Global;

/// What `compare` writes, and what it counts.
#[derive(Drop)]
pub struct Comparison {
    /// The lines, each with its LF.
    pub text: Vec<u8>,
    /// How many lines tell of a change.
    pub changed: usize,
    /// How many policies are in the old list alone.
    pub only_old: usize,
    /// How many policies are in the new list alone.
    pub only_new: usize,
}

fn is_more(shown: &ShownChange) -> bool
    ensures { result ≡ is_more shown.now }
{
    performs_more(shown.change.old, shown.change.new)
}

fn is_less(shown: &ShownChange) -> bool
    ensures { result ≡ is_less shown.now }
{
    performs_more(shown.change.new, shown.change.old)
}

fn count_more(shown: &[ShownChange]) -> usize
    ensures { result ≡ count_by is_more shown.now }
{
    shown.iter().filter(|change| is_more(change)).count()
}

fn count_less(shown: &[ShownChange]) -> usize
    ensures { result ≡ count_by is_less shown.now }
{
    shown.iter().filter(|change| is_less(change)).count()
}

fn is_in(policies: &[Policy], policy: &Policy) -> bool
    ensures { result ≡ is_in policies.now policy.now }
{
    policies.iter().any(|other| other.name == policy.name)
}

fn count_both(theirs: &[Policy], ours: &[Policy]) -> usize
    ensures { result ≡ count_both theirs.now ours.now }
{
    ours.iter().filter(|policy| is_in(theirs, policy)).count()
}

fn count_only(theirs: &[Policy], ours: &[Policy]) -> usize
    ensures { result ≡ count_only theirs.now ours.now }
{
    ours.iter().filter(|policy| !is_in(theirs, policy)).count()
}

// Each of these appends to the text. After an error the text may end anywhere.

fn put_only(text: &mut Vec<u8>, word: &[u8], policy: &Policy) -> Result<(), NoMemory>
    ensures { OnOk result (text.new.items ≡ text.old.items ++ only_line word.now policy.now) }
{
    text.extend_from_slice(b"only ")?;
    text.extend_from_slice(word)?;
    text.extend_from_slice(b" policy ")?;
    text.extend_from_slice(policy.name.bytes())?;
    text.push(b'\n')?;
    Ok(())
}

fn put_onlies(
    text: &mut Vec<u8>,
    word: &[u8],
    theirs: &[Policy],
    ours: &[Policy],
) -> Result<(), NoMemory>
    ensures { OnOk result (text.new.items ≡ text.old.items ++ only_lines word.now theirs.now ours.now) }
{
    for policy in ours {
        if !is_in(theirs, policy) {
            put_only(text, word, policy)?;
        }
    }
    Ok(())
}

fn put_changes(text: &mut Vec<u8>, shown: &[ShownChange]) -> Result<(), NoMemory>
    ensures { OnOk result (text.new.items ≡ text.old.items ++ flat_map change_line shown.now) }
{
    for change in shown {
        put_change(text, change)?;
    }
    Ok(())
}

fn put_total_head(
    text: &mut Vec<u8>,
    policies: usize,
    shown: &[ShownChange],
) -> Result<(), NoMemory>
    ensures { OnOk result (text.new.items ≡ text.old.items ++ total_head policies shown.now) }
{
    put_named(text, b"compare policies ", policies as u64)?;
    put_named(text, b" changed ", shown.len() as u64)?;
    Ok(())
}

fn put_total(text: &mut Vec<u8>, policies: usize, shown: &[ShownChange]) -> Result<(), NoMemory>
    ensures { OnOk result (text.new.items ≡ text.old.items ++ total_line policies shown.now) }
{
    put_total_head(text, policies, shown)?;
    put_named(text, b" more ", count_more(shown) as u64)?;
    put_named(text, b" less ", count_less(shown) as u64)?;
    text.push(b'\n')?;
    Ok(())
}

fn text_of(
    alloc: Global,
    olds: &[Policy],
    news: &[Policy],
    shown: &[ShownChange],
) -> Result<Vec<u8>, NoMemory>
    ensures { IfOk result (λ text. text.items ≡ compare_text olds.now news.now shown.now) }
{
    let mut text = Vec::new(alloc);
    put_changes(&mut text, shown)?;
    put_onlies(&mut text, b"OLD", news, olds)?;
    put_onlies(&mut text, b"NEW", olds, news)?;
    put_total(&mut text, count_both(olds, news), shown)?;
    Ok(text)
}

// What two lists of policies do differently.
fn compare_lists(
    alloc: Global,
    olds: &[Policy],
    news: &[Policy],
    budget: &mut Budget,
) -> Result<Comparison, CompareFault>
    requires olds { list_all is_well_made olds.now ≡ true }
    requires news { list_all is_well_made news.now ≡ true }
    ensures text { IfOk result (λ comparison. (shown : List ShownChange) × AreCompared olds.now news.now shown
        × (comparison.text.items ≡ compare_text olds.now news.now shown) × (comparison.changed ≡ length shown)) }
    ensures only_old { IfOk result (λ comparison. comparison.only_old ≡ count_only news.now olds.now) }
    ensures only_new { IfOk result (λ comparison. comparison.only_new ≡ count_only olds.now news.now) }
    ensures exceeded { IfErr result (WasExceeded budget.new.is_exceeded) }
{
    let shown = compared(alloc, olds, news, budget)?;
    let text = text_of(alloc, olds, news, &shown)?;
    Ok(Comparison {
        text,
        changed: shown.len(),
        only_old: count_only(news, olds),
        only_new: count_only(olds, news),
    })
}

/// What old and new policies do differently: a line for each change of each policy whose name both have, a line for each policy whose name one of them has alone,
/// and a line of totals.
///
/// # Errors
/// `NoMemory` if there was none for it; `TooComplex` only if the budget is exceeded.
#[tactic(auto, using(crate::proofs::ComparedLemmas::all_made))]
pub fn compare(
    alloc: Global,
    olds: &WellMadePolicies,
    news: &WellMadePolicies,
    budget: &mut Budget,
) -> Result<Comparison, CompareFault>
    ensures text { IfOk result (λ comparison. (shown : List ShownChange) × AreCompared olds.now.list news.now.list shown
        × (comparison.text.items ≡ compare_text olds.now.list news.now.list shown) × (comparison.changed ≡ length shown)) }
    ensures only_old { IfOk result (λ comparison. comparison.only_old ≡ count_only news.now.list olds.now.list) }
    ensures only_new { IfOk result (λ comparison. comparison.only_new ≡ count_only olds.now.list news.now.list) }
    ensures exceeded { IfErr result (WasExceeded budget.new.is_exceeded) }
{
    compare_lists(alloc, &olds.policies().list, &news.policies().list, budget)
}
