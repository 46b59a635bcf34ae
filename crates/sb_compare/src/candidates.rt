// Which changes calls of a tag can have.
ghost use Rattle.std.specs.Prelude.{◌≡◌, ◌++◌, IfOk, OnOk, map};
ghost use Rattle.std.specs.List.{filter, flat_map};
ghost use Rattle.sb_rule.specs.Verdicts.{is_for, verdict_by_rule};
ghost use Rattle.sb_compare.specs.Candidates.{both_of, candidates, changes_from, verdicts};

use crate::changes::Change;
use sb_base::NoMemory;
use sb_call::CallTag;
use sb_rule::{Policy, Rule, Verdict};
use std::alloc::Global;

/// The verdicts that calls of a tag can have: those of the rules for it, in order, and then no rule.
///
/// # Errors
/// `NoMemory` if there was none for them.
pub(crate) fn verdicts(
    alloc: Global,
    tag: CallTag,
    rules: &[Rule],
) -> Result<Vec<Verdict>, NoMemory>
    ensures { IfOk result (λ all. all.items ≡ verdicts tag rules.now) }
{
    let mut all = Vec::new(alloc);
    for rule in rules {
        if rule.is_for(tag) {
            all.push(Verdict::Rule {
                line: rule.line,
                action: rule.action,
            })?;
        }
    }
    all.push(Verdict::NoRule)?;
    Ok(all)
}

// Puts a pair of verdicts, first of calls that do no more than read and then of the others.
fn put_both(changes: &mut Vec<Change>, old: Verdict, new: Verdict) -> Result<(), NoMemory>
    ensures { OnOk result (changes.new.items ≡ changes.old.items ++ both_of old new) }
{
    changes.push(Change {
        old,
        new,
        writes: false,
    })?;
    changes.push(Change {
        old,
        new,
        writes: true,
    })?;
    Ok(())
}

// Puts an old verdict with each new one.
fn put_from(changes: &mut Vec<Change>, news: &[Verdict], old: Verdict) -> Result<(), NoMemory>
    ensures { OnOk result (changes.new.items ≡ changes.old.items ++ changes_from news.now old) }
{
    for new in news {
        put_both(changes, old, *new)?;
    }
    Ok(())
}

/// The changes that calls of a tag can have, in the order of the old verdict, then of the new one, then first those of calls that do no more than read.
///
/// # Errors
/// `NoMemory` if there was none for them.
pub(crate) fn possible_changes(
    alloc: Global,
    tag: CallTag,
    old: &Policy,
    new: &Policy,
) -> Result<Vec<Change>, NoMemory>
    ensures { IfOk result (λ changes. changes.items ≡ candidates tag old.now new.now) }
{
    let olds = verdicts(alloc, tag, &old.rules)?;
    let news = verdicts(alloc, tag, &new.rules)?;
    let mut changes = Vec::new(alloc);
    for verdict in &olds {
        put_from(&mut changes, &news, *verdict)?;
    }
    Ok(changes)
}
