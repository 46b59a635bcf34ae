// The questions that are left after each choice. Many choices leave the same, which are looked at once.
ghost use Rattle.std.specs.Prelude.{◌≡◌, ◌<◌, true, [], List, length, IfOk, IfSome, OnOk};
ghost use Rattle.sb_cover.specs.Lefts.{left_at, AreLefts, IsPlaced};
ghost use Rattle.sb_cover.specs.declared.open_rules.OpenQuestion.{OpenQuestion};

use crate::asked_conds::AskedCond;
use crate::open_rules::{OpenQuestion, OpenRule};
use crate::residuals::questions_left;
use sb_base::{Items, NoMemory};
use sb_explore::State;
use std::alloc::Global;

/// Of how many lists it is looked whether one is there again.
pub(crate) const MAX_COMPARED: usize = 256;

/// The questions that are left after each choice.
#[derive(Drop)]
pub(crate) struct Lefts {
    /// Lists of questions.
    pub lists: Vec<Items<OpenQuestion>>,
    /// For each choice the place of its list.
    pub places: Vec<usize>,
}

#[tactic(auto, using(crate::proofs::LeftLemmas::equal_numbers))]
fn are_same_numbers(a: &[u32], b: &[u32]) -> bool
    ensures { result ≡ true → a.now ≡ b.now }
{
    a == b
}

#[tactic(auto, using(crate::proofs::LeftLemmas::same_rule))]
fn is_same_rule(a: &OpenRule, b: &OpenRule) -> bool
    ensures { result ≡ true → a.now ≡ b.now }
{
    if a.place != b.place {
        return false;
    }
    if !are_same_numbers(&a.here, &b.here) {
        return false;
    }
    are_same_numbers(&a.later, &b.later)
}

#[tactic(auto, using(crate::proofs::LeftLemmas::one_rule_more, crate::proofs::LeftLemmas::no_rule_more))]
fn are_same_rules(a: &[OpenRule], b: &[OpenRule]) -> bool
    ensures { result ≡ true → a.now ≡ b.now }
{
    let mut a = a;
    let mut b = b;
    while let Some((rule, rest)) = a.split_first() {
        let Some((other, other_rest)) = b.split_first() else {
            return false;
        };
        if !is_same_rule(rule, other) {
            return false;
        }
        a = rest;
        b = other_rest;
    }
    b.is_empty()
}

#[tactic(auto, using(crate::proofs::LeftLemmas::same_question))]
fn is_same_question(a: &OpenQuestion, b: &OpenQuestion) -> bool
    ensures { result ≡ true → a.now ≡ b.now }
{
    if a.depth != b.depth {
        return false;
    }
    are_same_rules(&a.rules, &b.rules)
}

#[tactic(auto, using(crate::proofs::LeftLemmas::one_question_more, crate::proofs::LeftLemmas::no_question_more))]
fn are_same_questions(a: &[OpenQuestion], b: &[OpenQuestion]) -> bool
    ensures { result ≡ true → a.now ≡ b.now }
{
    let mut a = a;
    let mut b = b;
    while let Some((question, rest)) = a.split_first() {
        let Some((other, other_rest)) = b.split_first() else {
            return false;
        };
        if !is_same_question(question, other) {
            return false;
        }
        a = rest;
        b = other_rest;
    }
    b.is_empty()
}

// The place of these questions among the first lists.
#[tactic(auto, using(crate::proofs::LeftLemmas::found_at))]
fn find(lists: &[Items<OpenQuestion>], left: &[OpenQuestion]) -> Option<usize>
    ensures within { IfSome result (λ n. n < length lists.now) }
    ensures there { IfSome result (λ n. left_at lists.now n ≡ left.now) }
{
    for (place, list) in lists.iter().enumerate() {
        if place >= MAX_COMPARED {
            return None;
        }
        if are_same_questions(list, left) {
            return Some(place);
        }
    }
    None
}

// The place of these questions, which are put unless they are there.
#[tactic(auto, using(crate::proofs::LeftLemmas::placed_before, crate::proofs::LeftLemmas::placed_last))]
fn place_of(
    lists: &mut Vec<Items<OpenQuestion>>,
    left: Items<OpenQuestion>,
) -> Result<usize, NoMemory>
    ensures { IfOk result (λ place. IsPlaced left place lists.old.items lists.new.items) }
{
    if let Some(place) = find(lists, &left) {
        return Ok(place);
    }
    let place = lists.len();
    lists.push(left)?;
    Ok(place)
}

/// The questions that are left after values with these labels, when the given parameter is read next.
///
/// # Errors
/// `NoMemory` if there was none for them.
pub(crate) fn lefts_of(
    alloc: Global,
    conds: &[AskedCond],
    questions: &[OpenQuestion],
    labels: &[State],
    param: u32,
) -> Result<Lefts, NoMemory>
    ensures { IfOk result (λ lefts. AreLefts conds.now param questions.now labels.now (length labels.now) lefts.lists.items lefts.places.items) }
{
    let mut lists = Vec::new(alloc);
    let mut places = Vec::new(alloc);
    for label in labels {
        let left = questions_left(alloc, conds, questions, label.numbers(), param)?;
        let place = place_of(&mut lists, left)?;
        places.push(place)?;
    }
    Ok(Lefts { lists, places })
}
