// Values of a parameter that stand for all its values.
ghost use Rattle.std.specs.Prelude.{◌≡◌, ◌≤◌, true, map, IfNone, IfOk, IfSome};
ghost use Rattle.std.specs.List.{list_all};
ghost use Rattle.sb_call.specs.declared.arguments.Arg.TheVariants as arg;
ghost use Rattle.sb_cover.specs.Choices.{is_shown_arg, AreChoices, AreTextArgs, AreNumberArgs};

use crate::asked_conds::CondTable;
use crate::budgets::Budget;
use crate::laws::names_are_accepted;
use crate::modes::{ANY, START};
use crate::number_picking::{PickedNumbers, number_choices};
use crate::open_rules::OpenQuestion;
use crate::picking::Picked;
use crate::text_covers::text_choices;
use indexmap::IndexSet;
use sb_base::{NoMemory, Wide};
use sb_call::{Arg, ParamKind};
use sb_explore::State;
use std::alloc::Global;

/// Values of a parameter, each with a label that no other one has.
#[derive(Drop)]
pub(crate) struct Choices {
    /// The values.
    pub values: Vec<Arg>,
    /// Their labels, in the same order.
    pub labels: IndexSet<State>,
}

fn args_of_texts(alloc: Global, texts: Vec<Wide>) -> Result<Vec<Arg>, NoMemory>
    ensures { IfOk result (λ args. args.items ≡ map arg.Str texts.items) }
{
    let mut args = Vec::new(alloc);
    for text in texts {
        args.push(Arg::Str(text))?;
    }
    Ok(args)
}

fn args_of_numbers(alloc: Global, numbers: &[u64]) -> Result<Vec<Arg>, NoMemory>
    ensures { IfOk result (λ args. args.items ≡ map arg.Num numbers.now) }
{
    let mut args = Vec::new(alloc);
    for number in numbers {
        args.push(Arg::Num(*number))?;
    }
    Ok(args)
}

// Strings that stand for all that are accepted.
fn text_args(
    alloc: Global,
    table: &CondTable,
    questions: &[OpenQuestion],
    first: u32,
    budget: &mut Budget,
) -> Result<Option<Choices>, NoMemory>
    ensures all { IfOk result (λ choices. IfSome choices (λ choices. AreTextArgs table.now.conds.items first questions.now choices.values.items choices.labels.keys)) }
    ensures shown { IfOk result (λ choices. IfSome choices (λ choices. table.now.is_plain ≡ true → list_all is_shown_arg choices.values.items ≡ true)) }
    ensures exceeded { IfOk result (λ choices. IfNone choices (budget.new.is_exceeded ≡ true)) }
{
    let Some(picked) = text_choices(alloc, table, questions, first, budget)? else {
        return Ok(None);
    };
    let Picked { values, labels } = picked;
    let values = args_of_texts(alloc, values)?;
    Ok(Some(Choices { values, labels }))
}

// Numbers that stand for all of a width.
fn number_args(
    alloc: Global,
    table: &CondTable,
    questions: &[OpenQuestion],
    width: u32,
    budget: &mut Budget,
) -> Result<Option<Choices>, NoMemory>
    requires { width ≤ 64 }
    ensures all { IfOk result (λ choices. IfSome choices (λ choices. AreNumberArgs table.now.conds.items width questions.now choices.values.items choices.labels.keys)) }
    ensures shown { IfOk result (λ choices. IfSome choices (λ choices. list_all is_shown_arg choices.values.items ≡ true)) }
    ensures exceeded { IfOk result (λ choices. IfNone choices (budget.new.is_exceeded ≡ true)) }
{
    let Some(picked) = number_choices(alloc, table, questions, width, budget)? else {
        return Ok(None);
    };
    let PickedNumbers { values, labels } = picked;
    let values = args_of_numbers(alloc, &values)?;
    Ok(Some(Choices { values, labels }))
}

/// Values of a kind that stand for all its values: each other one has the label of one of these, which is not longer. None if the budget is
/// exceeded.
///
/// # Errors
/// `NoMemory` if there was none for the values.
#[tactic(auto, using(crate::proofs::ParamLemmas::texts_of_kind, crate::proofs::ParamLemmas::names_of_kind, crate::proofs::ParamLemmas::nums_of_kind, crate::proofs::ParamLemmas::handles_of_kind))]
pub(crate) fn choices_for(
    alloc: Global,
    table: &CondTable,
    kind: ParamKind,
    questions: &[OpenQuestion],
    budget: &mut Budget,
) -> Result<Option<Choices>, NoMemory>
    ensures all { IfOk result (λ choices. IfSome choices (λ choices. AreChoices table.now.conds.items kind questions.now choices.values.items choices.labels.keys)) }
    ensures shown { IfOk result (λ choices. IfSome choices (λ choices. table.now.is_plain ≡ true → list_all is_shown_arg choices.values.items ≡ true)) }
    ensures exceeded { IfOk result (λ choices. IfNone choices (budget.new.is_exceeded ≡ true)) }
{
    names_are_accepted();
    match kind {
        ParamKind::Text => {
            let choices = text_args(alloc, table, questions, ANY, budget)?;
            Ok(choices)
        }
        ParamKind::Name => {
            let choices = text_args(alloc, table, questions, START, budget)?;
            Ok(choices)
        }
        ParamKind::Num => {
            let choices = number_args(alloc, table, questions, 32, budget)?;
            Ok(choices)
        }
        ParamKind::Handle => {
            let choices = number_args(alloc, table, questions, 64, budget)?;
            Ok(choices)
        }
    }
}
