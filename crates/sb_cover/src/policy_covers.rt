// Covers of the calls of a tag under policies.
ghost use Rattle.std.specs.Prelude.{◌≡◌, true, IfNone, IfOk, IfSome};
ghost use Rattle.std.specs.List.{list_all};
ghost use Rattle.sb_call.specs.Arguments.{fits};
ghost use Rattle.sb_rule.specs.WellMade.{is_well_made};
ghost use Rattle.sb_cover.specs.Choices.{is_shown_arg};
ghost use Rattle.sb_cover.specs.PolicyCovers.{question_of, questions_of, IsCoverUnder};

use crate::budgets::Budget;
use crate::call_accesses::access_rules;
use crate::covers::cover;
use crate::laws::{answers_decide, not_longer_is_as_short};
use crate::questions::Question;
use sb_base::{NoMemory, walks_find_pairs};
use sb_call::{Args, CallTag};
use sb_rule::{Policy, Rules};
use std::alloc::Global;

// Which rule decides.
fn question_of(rules: &Rules) -> Result<Question, NoMemory>
    ensures { IfOk result (λ question. question ≡ question_of rules.now) }
{
    Ok(Question {
        rules: rules.clone()?,
        depth: 1,
        is_cut: false,
    })
}

// Which rule of each policy decides, and whether the call does more than read.
fn questions_of(alloc: Global, tag: CallTag, policies: &[Policy]) -> Result<Vec<Question>, NoMemory>
    ensures { IfOk result (λ questions. questions.items ≡ questions_of tag policies.now) }
{
    let mut questions = Vec::new(alloc);
    for policy in policies {
        let question = question_of(&policy.rules)?;
        questions.push(question)?;
    }
    let rules = access_rules(alloc, tag)?;
    let question = question_of(&rules)?;
    questions.push(question)?;
    Ok(questions)
}

/// A cover of the calls of a tag under policies: for each call one of these has the same verdict under each of them, does more than read exactly if that
/// does, and is not longer. If the policies are well made, a script can have each. None if the budget is exceeded.
///
/// # Errors
/// `NoMemory` if there was none for the calls.
pub fn cover_under(
    alloc: Global,
    tag: CallTag,
    policies: &[Policy],
    budget: &mut Budget,
) -> Result<Option<Vec<Args>>, NoMemory>
    ensures all { IfOk result (λ calls. IfSome calls (λ calls. IsCoverUnder tag policies.now calls.items)) }
    ensures fit { IfOk result (λ calls. IfSome calls (λ calls. list_all (fits tag) calls.items ≡ true)) }
    ensures shown { IfOk result (λ calls. IfSome calls (λ calls. list_all is_well_made policies.now ≡ true → list_all (list_all is_shown_arg) calls.items ≡ true)) }
    ensures exceeded { IfOk result (λ calls. IfNone calls (budget.new.is_exceeded ≡ true)) }
{
    answers_decide();
    not_longer_is_as_short();
    walks_find_pairs();
    let questions = questions_of(alloc, tag, policies)?;
    let calls = cover(alloc, tag, &questions, budget)?;
    Ok(calls)
}
