// `why`: each entry of a run, or one, with what led to it.
ghost use Rattle.std.specs.Prelude.{◌≡◌, IfOk, OnOk};
ghost use Rattle.sb_explain.specs.Lines.{granted_lines, reason_lines};
ghost use Rattle.sb_explain.specs.Reasons.{reasons};
ghost use Rattle.sb_explain.specs.Listings.{listed, most_lines, with_lines};
ghost use Rattle.sb_explain.specs.Why.{asked_lines, call_lines, copy_lines, entry_lines, has_entry, lines_of_entry, rules_of, why_lines};

use crate::line_numbers::ScriptLines;
use crate::lines::{
    copy_line, fails_line, granted_line, holds_line, mark_line, no_entry_line, refused_line,
};
use crate::listings::Listing;
use crate::reasons::{Reason, Reasons};
use sb_base::NoMemory;
use sb_block::{BlockCopy, BlockRefused, decode};
use sb_book::{Entries, EntryView, ReadyScript};
use sb_call::{Arg, CallTag};
use sb_rule::{Action, Rule};
use sb_transcript::entry_line;
use std::alloc::Global;

// The arguments that are granted, if the rule that decides is `readonly`.
fn put_granted(
    alloc: Global,
    listing: &mut Listing,
    action: Action,
    tag: CallTag,
    args: &[Arg],
) -> Result<(), NoMemory>
    ensures { OnOk result (listing.new ≡ with_lines most_lines listing.old (granted_lines tag args.now action)) }
{
    match action {
        Action::ReadOnly => listing.push(&granted_line(alloc, tag, args)?),
        Action::Allow | Action::Deny | Action::Alarm | Action::Fake => Ok(()),
    }
}

// What each rule for a call says of it, up to the one that decides.
fn put_reasons(
    alloc: Global,
    listing: &mut Listing,
    rules: &[Rule],
    tag: CallTag,
    args: &[Arg],
) -> Result<(), NoMemory>
    ensures { OnOk result (listing.new ≡ with_lines most_lines listing.old (reason_lines tag args.now (reasons rules.now tag args.now))) }
{
    let mut reasons = Reasons::new(rules, tag, args);
    while let Some(reason) = reasons.next() {
        match reason {
            Reason::Fails(rule, cond) => {
                listing.push(&fails_line(alloc, tag, args, rule, cond)?)?
            }
            Reason::Holds(rule) => {
                listing.push(&holds_line(alloc, rule)?)?;
                return put_granted(alloc, listing, rule.action, tag, args);
            }
        }
    }
    listing.push(b"  no rule holds\n")
}

/// The lines of a call: the call itself, and what each of these rules for it says, up to the one that decides.
pub(crate) fn put_call(
    alloc: Global,
    listing: &mut Listing,
    rules: &[Rule],
    tag: CallTag,
    args: &[Arg],
) -> Result<(), NoMemory>
    ensures { OnOk result (listing.new ≡ with_lines most_lines listing.old (call_lines rules.now tag args.now)) }
{
    listing.push(&copy_line(alloc, tag, args)?)?;
    put_reasons(alloc, listing, rules, tag, args)
}

// The lines of a copy: its fault, or its call.
fn put_copy(
    alloc: Global,
    listing: &mut Listing,
    rules: &[Rule],
    taken: &BlockCopy,
) -> Result<(), NoMemory>
    ensures { OnOk result (listing.new ≡ with_lines most_lines listing.old (copy_lines rules.now taken.now)) }
{
    match decode(alloc, taken) {
        Ok(call) => put_call(alloc, listing, rules, call.tag, call.args.as_slice()),
        Err(BlockRefused::Fault(fault)) => listing.push(&refused_line(alloc, fault, taken)?),
        Err(BlockRefused::NoMemory) => Err(NoMemory),
    }
}

// The rules of the policy of a target, none if it is not there.
fn rules_of(ready: &ReadyScript, target: u32) -> &[Rule]
    ensures { result.now ≡ rules_of ready.now.policies ready.now.script target }
{
    let Some(target) = ready.script().targets.as_slice().get(target as usize) else {
        return &[];
    };
    match ready
        .policies()
        .policies()
        .list
        .as_slice()
        .get(target.policy as usize)
    {
        Some(policy) => policy.rules.as_slice(),
        None => &[],
    }
}

/// Appends the lines of entry `n` of a run: its line in the transcript, the call that its mark belongs to, and its copy with what the rules say of it.
///
/// # Errors
/// `NoMemory` if there was none for them; then a part may have been appended.
pub fn put_entry(
    alloc: Global,
    listing: &mut Listing,
    explained: ScriptLines<'_>,
    n: u64,
    entry: &EntryView<'_>,
) -> Result<(), NoMemory>
    ensures { OnOk result (listing.new ≡ with_lines most_lines listing.old
        (lines_of_entry explained.entry.ready.now.policies explained.entry.ready.now.script explained.entry.lines.now n entry.now)) }
{
    let ready = explained.ready;
    listing.push(&entry_line(alloc, ready.script(), n, entry)?)?;
    listing.push(&mark_line(alloc, explained, entry.target(), entry.mark())?)?;
    put_copy(
        alloc,
        listing,
        rules_of(ready, entry.target()),
        &entry.taken(),
    )
}

/// Appends the lines of all entries of a run.
///
/// # Errors
/// `NoMemory` if there was none for them; then a part may have been appended.
#[tactic(auto, using(crate::proofs::Capping::entry_more))]
pub fn put_entries(
    alloc: Global,
    listing: &mut Listing,
    explained: ScriptLines<'_>,
    entries: &Entries,
) -> Result<(), NoMemory>
    ensures { OnOk result (listing.new ≡ with_lines most_lines listing.old
        (entry_lines explained.entry.ready.now.policies explained.entry.ready.now.script explained.entry.lines.now 0 entries.now)) }
{
    let count = entries.len() as u64;
    let mut n = 0;
    let mut rest = entries.as_slice();
    while let Some((entry, later)) = rest.split_first() {
        put_entry(alloc, listing, explained, n, &entry)?;
        n += 1;
        rest = later;
    }
    Ok(())
}

// The lines of the entry of this number, from 0, or the one line that there is none.
fn put_asked(
    alloc: Global,
    listing: &mut Listing,
    explained: ScriptLines<'_>,
    entries: &Entries,
    asked: u64,
) -> Result<(), NoMemory>
    ensures { OnOk result (listing.new ≡ with_lines most_lines listing.old
        (asked_lines explained.entry.ready.now.policies explained.entry.ready.now.script explained.entry.lines.now entries.now asked)) }
{
    match entries.as_slice().get(asked as usize) {
        Some(entry) => put_entry(alloc, listing, explained, asked, &entry),
        None => listing.push(&no_entry_line(alloc, asked, entries.len() as u64)?),
    }
}

/// Whether there is the entry that is asked for, numbered from 0. If none is asked for, nothing is lacking. `why` is done exactly if this is so.
pub fn has_entry(entries: &Entries, asked: Option<u64>) -> bool
    ensures { result ≡ has_entry entries.now asked }
{
    match asked {
        None => true,
        Some(asked) => asked < entries.len() as u64,
    }
}

// The lines of all entries of a run, or of the one that is asked for.
fn put_why(
    alloc: Global,
    listing: &mut Listing,
    explained: ScriptLines<'_>,
    entries: &Entries,
    asked: Option<u64>,
) -> Result<(), NoMemory>
    ensures { OnOk result (listing.new ≡ with_lines most_lines listing.old
        (why_lines explained.entry.ready.now.policies explained.entry.ready.now.script explained.entry.lines.now entries.now asked)) }
{
    match asked {
        None => put_entries(alloc, listing, explained, entries),
        Some(asked) => put_asked(alloc, listing, explained, entries, asked),
    }
}

/// The text of `why`: the lines of all entries of a run, in order, or those of the entry that is asked for, numbered from 0; if there is no such entry, the one
/// line that tells so. After 4,000,000 lines a last line `more` is in place of the others.
///
/// # Errors
/// `NoMemory` if there was none for the text.
#[tactic(auto, using(crate::proofs::Capping::listed_text))]
pub fn why_text(
    alloc: Global,
    explained: ScriptLines<'_>,
    entries: &Entries,
    asked: Option<u64>,
) -> Result<Vec<u8>, NoMemory>
    ensures { IfOk result (λ text. text.items ≡
        listed (why_lines explained.entry.ready.now.policies explained.entry.ready.now.script explained.entry.lines.now entries.now asked)) }
{
    let mut listing = Listing::new(alloc);
    put_why(alloc, &mut listing, explained, entries, asked)?;
    let text = listing.into_text()?;
    Ok(text)
}
