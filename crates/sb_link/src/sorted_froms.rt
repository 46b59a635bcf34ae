// The FROMs of links in order, and the walk over them that finds the longest which applies to a name.
ghost use Rattle.std.specs.Prelude.{◌≡◌, ◌+◌, ◌<◌, ◌≤◌, ◌^◌, ◌++◌, ◌∷◌, IfOk, None, OnOk, [], drop, length, not, ◌==◌, option_map};
ghost use Rattle.sb_base.specs.Wide.{folded};
ghost use Rattle.sb_link.specs.Resolution.{ends_component, is_longer};
ghost use Rattle.sb_link.specs.SortedFroms.{common, differs, entry_after, from_at, inserted, is_before, is_other, is_whole, longer_at, longer_by, next_common, next_unit, walked};

use crate::links::Link;
use sb_base::{NoMemory, to_ascii_uppercase};
use std::alloc::Global;

const BACKSLASH: u16 = 92;

/// One of the FROMs in order.
#[derive(Clone, Copy)]
pub(crate) struct SortedFrom {
    /// The place of its link in the list, from 0.
    pub place: usize,
    /// How many units it has in common with the FROM before it, at the front and after folding.
    pub shared: usize,
    /// The unit after these, folded. None if it ends there.
    pub next: Option<u16>,
}

// Whether two units are different after folding.
fn is_different(a: u16, b: u16) -> bool
    ensures { result ≡ not (folded a == folded b) }
{
    a != b && to_ascii_uppercase(a) != to_ascii_uppercase(b)
}

// How many units two names have in common at the front, after folding.
fn common(a: &[u16], b: &[u16]) -> usize
    ensures exactly { result ≡ common a.now b.now }
    ensures within { result ≤ length a.now }
{
    let mut first = a;
    let mut second = b;
    while let Some((x, more)) = first.split_first() {
        let Some((y, others)) = second.split_first() else {
            return a.len() - first.len();
        };
        if is_different(*x, *y) {
            return a.len() - first.len();
        }
        first = more;
        second = others;
    }
    a.len()
}

// Whether the first name comes before the second one or is its beginning, by the folded units.
fn is_before(a: &[u16], b: &[u16]) -> bool
    ensures { result ≡ is_before a.now b.now }
{
    let mut first = a;
    let mut second = b;
    while let Some((x, more)) = first.split_first() {
        let Some((y, others)) = second.split_first() else {
            return false;
        };
        let (x, y) = (to_ascii_uppercase(*x), to_ascii_uppercase(*y));
        if x != y {
            return x < y;
        }
        first = more;
        second = others;
    }
    true
}

// The FROM of the link at a place.
fn from_at(links: &[Link], place: usize) -> &[u16]
    ensures { result.now ≡ from_at links.now place }
{
    match links.get(place) {
        Some(link) => link.from.as_units(),
        None => &[],
    }
}

// The units from this place on, none if there are fewer.
fn after(units: &[u16], count: usize) -> &[u16]
    ensures rest { result.now ≡ drop count units.now }
    ensures room { count + length result.now < 2 ^ 64 }
{
    if count > units.len() {
        return &[];
    }
    let (_, rest) = units.split_at(count);
    rest
}

// The first unit, folded, if there is one.
fn next_unit(units: &[u16]) -> Option<u16>
    ensures { result ≡ next_unit units.now }
{
    match units {
        [first, ..] => Some(to_ascii_uppercase(*first)),
        [] => None,
    }
}

// The entry of a FROM, of the link at a place, after another FROM.
fn entry_after(before: &[u16], place: usize, from: &[u16]) -> SortedFrom
    ensures { result ≡ entry_after before.now place from.now }
{
    let shared = common(before, from);
    SortedFrom {
        place,
        shared,
        next: next_unit(after(from, shared)),
    }
}

// Appends the entry of a FROM, of the link at this place, after another FROM; that of the link of the next entry, whose FROM is given, after
// it; and all later entries.
#[tactic(auto, using(crate::proofs::Inserted::put_one_more))]
fn put_from(
    all: &mut Vec<SortedFrom>,
    before: &[u16],
    from: &[u16],
    place: usize,
    next: &SortedFrom,
    next_from: &[u16],
    later: &[SortedFrom],
) -> Result<(), NoMemory>
    ensures { OnOk result (all.new.items ≡ all.old.items ++ entry_after before.now place from.now ∷ entry_after from.now next.now.place next_from.now ∷ later.now) }
{
    all.push(entry_after(before, place, from))?;
    all.push(entry_after(from, next.place, next_from))?;
    all.extend_from_slice(later)?;
    Ok(())
}

// The index with one more FROM, of the link at this place, below those that come before it.
#[tactic(auto, using(crate::proofs::Inserted::put_one_more))]
pub(crate) fn index_with(
    alloc: Global,
    links: &[Link],
    from: &[u16],
    place: usize,
    sorted: &[SortedFrom],
) -> Result<Vec<SortedFrom>, NoMemory>
    ensures { IfOk result (λ all. all.items ≡ inserted links.now from.now place [] sorted.now) }
{
    let mut all = Vec::new(alloc);
    let mut before: &[u16] = &[];
    let mut rest = sorted;
    while let Some((entry, more)) = rest.split_first() {
        let other = from_at(links, entry.place);
        if !is_before(other, from) {
            put_from(&mut all, before, from, place, entry, other, more)?;
            return Ok(all);
        }
        all.push(*entry)?;
        before = other;
        rest = more;
    }
    all.push(entry_after(before, place, from))?;
    Ok(all)
}

// What a FROM has in common with a name, by what it has in common with the FROM before it, and by what that has with the name.
fn next_common(shared: usize, count: usize, from: &[u16], name: &[u16]) -> usize
    ensures { result ≡ next_common shared count from.now name.now }
{
    if shared != count {
        return shared.min(count);
    }
    count + common(after(from, count), after(name, count))
}

fn ends_component(units: &[u16]) -> bool
    ensures { result ≡ ends_component units.now }
{
    match units {
        [first, ..] => *first == BACKSLASH,
        [] => true,
    }
}

// Whether the FROM of a link is longer than that of the one found so far, if there is one.
fn is_longer(found: Option<&Link>, link: &Link) -> bool
    ensures { result ≡ is_longer (option_map (λ l. l.now) found.entry) link.now }
{
    match found {
        Some(found) => found.from.len() < link.from.len(),
        None => true,
    }
}

// Whether a name has the whole FROM in common, and a component of it ends there.
fn is_whole(count: usize, from: &[u16], name: &[u16]) -> bool
    ensures { result ≡ is_whole count from.now name.now }
{
    count == from.len() && ends_component(after(name, count))
}

// What was found so far, or this link if it applies, since the name has this many units in common with its FROM, and is longer.
fn longer<'a>(
    count: usize,
    name: &[u16],
    found: Option<&'a Link>,
    link: &'a Link,
) -> Option<&'a Link>
    ensures { option_map (λ l. l.now) result ≡ longer_by count name.now (option_map (λ l. l.now) found.entry) link.now }
{
    if is_whole(count, link.from.as_units(), name) && is_longer(found, link) {
        Some(link)
    } else {
        found
    }
}

// The same with the link at a place.
fn longer_at<'a>(
    links: &'a [Link],
    place: usize,
    count: usize,
    name: &[u16],
    found: Option<&'a Link>,
) -> Option<&'a Link>
    ensures { option_map (λ l. l.now) result ≡ longer_at links.now place count name.now (option_map (λ l. l.now) found.entry) }
{
    match links.get(place) {
        Some(link) => longer(count, name, found, link),
        None => found,
    }
}

// Whether a FROM that goes on with the first of these units differs there from a name that goes on with the second, or ends there.
fn is_other(unit: Option<u16>, next: Option<u16>) -> bool
    ensures { result ≡ is_other unit next }
{
    match (unit, next) {
        (Some(unit), Some(next)) => unit != next,
        (Some(_), None) => true,
        (None, _) => false,
    }
}

// Whether a FROM differs from a name where the FROM before it does, which has this many units in common with the name. The name goes on
// with this unit.
fn differs(count: usize, next: Option<u16>, entry: &SortedFrom) -> bool
    ensures { result ≡ differs count next entry.now }
{
    if entry.shared == count {
        is_other(entry.next, next)
    } else {
        count < entry.shared
    }
}

/// The link with the longest FROM of those that apply to a name, by one walk over the index. A FROM is looked at only where it may have
/// more in common with the name than the one before it, and no unit of the name is compared again where it was the same.
pub(crate) fn longest<'a>(
    links: &'a [Link],
    sorted: &[SortedFrom],
    name: &[u16],
) -> Option<&'a Link>
    ensures { option_map (λ l. l.now) result ≡ walked links.now name.now 0 None sorted.now }
{
    let mut count = 0;
    let mut next = next_unit(name);
    let mut found = None;
    for entry in sorted {
        if differs(count, next, entry) {
            continue;
        }
        count = next_common(entry.shared, count, from_at(links, entry.place), name);
        next = next_unit(after(name, count));
        found = longer_at(links, entry.place, count, name, found);
    }
    found
}
