// The command lines as the library that reads them sees them: each for the arguments of one command, whose name is where the name of a program would be.
ghost use Rattle.std.specs.Prelude.{◌≡◌, IfOk, Some, false, map, option_map};
ghost use Rattle.clap.specs.Words.{first_value, found_of, rule_of, with_rule};
ghost use Rattle.sb_commands.specs.CommandLine.{found_values, line_of, names_of, option_argument, option_by, optional_argument, required_argument, with_last, with_options, with_required};
ghost use Rattle.sb_text.specs.MissingTexts.{or_empty};
ghost use Rattle.sb_commands.specs.Forms.{choice_of, form_of, place_of};
ghost use Rattle.sb_commands.specs.Usage.{option_number};
ghost use Rattle.sb_commands.specs.Values.{values_of};

use crate::forms::{CommandForm, FormOption, FormPlace, OptionKind};
use crate::line_builder::LineBuilder;
use crate::number_words::number_of;
use clap::{Arg, ArgAction, ArgMatches};
use std::alloc::{AllocError, Global};

/// The values of the arguments of a command.
#[derive(Clone, Copy)]
pub struct CommandValues<'a> {
    /// What is at the first place, empty if there is none.
    pub first: &'a str,
    /// At the second.
    pub second: &'a str,
    /// At the third.
    pub third: &'a str,
    /// The file that may be left out.
    pub last: Option<&'a str>,
    /// The number of the first option: that which was given, or else its default. A switch that was given has 0.
    pub first_option: Option<u64>,
    /// The same of the second.
    pub second_option: Option<u64>,
}

// An argument that has to be there.
fn required_argument<'a>(alloc: Global, name: &'a str) -> Arg<'a>
    ensures rule { rule_of result ≡ required_argument name.entry.now }
    ensures local { result.global ≡ false }
{
    Arg::new(alloc, name).required(true).action(ArgAction::Set)
}

// An argument that may be left out.
fn optional_argument<'a>(alloc: Global, name: &'a str) -> Arg<'a>
    ensures rule { rule_of result ≡ optional_argument name.entry.now }
    ensures local { result.global ≡ false }
{
    Arg::new(alloc, name).required(false).action(ArgAction::Set)
}

// An option, under the library's name for it.
fn option_argument<'a>(alloc: Global, name: &'a str, option: FormOption<'static>) -> Arg<'a>
    ensures rule { rule_of result ≡ option_argument name.entry.now (choice_of option.entry) }
    ensures local { result.global ≡ false }
{
    let action = match option.kind {
        OptionKind::Switch => ArgAction::SetTrue,
        OptionKind::Number(_) => ArgAction::Set,
    };
    Arg::new(alloc, name).long(option.flag).action(action)
}

// With an option, under the library's name for it.
fn with_option<'a>(
    alloc: Global,
    line: LineBuilder<'a>,
    name: &'a str,
    option: FormOption<'static>,
) -> Result<LineBuilder<'a>, AllocError>
    ensures { IfOk result (λ l. l ≡ with_rule line.entry (option_argument name.entry.now (choice_of option.entry))) }
{
    line.with(option_argument(alloc, name, option))
}

// The names of the arguments at places.
fn names_of<'a>(places: &[FormPlace<'static>]) -> &'a [&'a str]
    ensures { map (λ name. name.now) result.now ≡ names_of (map place_of places.now) }
{
    match places {
        [] => &[],
        [_] => &["first"],
        [_, _] => &["first", "second"],
        _ => &["first", "second", "third"],
    }
}

// A command line with arguments of these names that have to be there.
fn with_required<'a>(
    alloc: Global,
    line: LineBuilder<'a>,
    names: &[&'a str],
) -> Result<LineBuilder<'a>, AllocError>
    ensures { IfOk result (λ l. l ≡ with_required (map (λ name. name.now) names.now) line.entry) }
{
    let mut line = line;
    for name in names {
        line = line.with(required_argument(alloc, *name))?;
    }
    Ok(line)
}

// With the file that may be left out.
fn with_last<'a>(
    alloc: Global,
    line: LineBuilder<'a>,
    last: Option<&'static str>,
) -> Result<LineBuilder<'a>, AllocError>
    ensures { IfOk result (λ l. l ≡ with_last (option_map (λ name. name.now) last.entry) line.entry) }
{
    match last {
        Some(_) => line.with(optional_argument(alloc, "last")),
        None => Ok(line),
    }
}

// With the options.
fn with_options<'a>(
    alloc: Global,
    line: LineBuilder<'a>,
    options: &[FormOption<'static>],
) -> Result<LineBuilder<'a>, AllocError>
    ensures { IfOk result (λ l. l ≡ with_options (map choice_of options.now) line.entry) }
{
    let Some((first, others)) = options.split_first() else {
        return Ok(line);
    };
    let line = with_option(alloc, line, "first-option", *first)?;
    match others.split_first() {
        Some((second, _)) => with_option(alloc, line, "second-option", *second),
        None => Ok(line),
    }
}

/// The command line of a form.
///
/// # Errors
/// If there was no memory for it.
pub(crate) fn line_of<'a>(
    alloc: Global,
    form: CommandForm<'static>,
) -> Result<LineBuilder<'a>, AllocError>
    ensures { IfOk result (λ l. l ≡ line_of (form_of form.entry)) }
{
    let line = LineBuilder::new(alloc);
    let line = with_required(alloc, line, names_of(form.places))?;
    let line = with_last(alloc, line, form.last)?;
    with_options(alloc, line, form.options)
}

// The text of an argument, empty if there is none.
fn text_of<'a>(values: &ArgMatches<'a>, name: &str) -> &'a str
    ensures { result.now ≡ or_empty (first_value (found_of values.now) name.now) }
{
    match values.get_str(name) {
        Some(text) => text,
        None => "",
    }
}

// The number of an option, by what the library found for it, or else its default.
fn number_found(option: FormOption<'static>, found: Option<&str>) -> Option<u64>
    ensures { result ≡ option_by (Some (choice_of option.entry)) (option_map (λ word. word.now) found.entry) }
{
    let Some(word) = found else {
        return option.default;
    };
    match option.kind {
        OptionKind::Number(_) => Some(number_of(word)),
        OptionKind::Switch => {
            if word == "true" {
                return Some(0);
            }
            option.default
        }
    }
}

// The number of an option under this name, if there is such an option.
fn option_number(
    option: Option<&FormOption<'static>>,
    values: &ArgMatches<'_>,
    name: &str,
) -> Option<u64>
    ensures { result ≡ option_by (option_map (λ o. choice_of o.now) option.entry) (first_value (found_of values.now) name.now) }
{
    let option = option?;
    number_found(*option, values.get_str(name))
}

/// The values that the library found by the command line of a form.
pub(crate) fn found_values<'a>(
    form: CommandForm<'static>,
    values: &ArgMatches<'a>,
) -> CommandValues<'a>
    ensures { values_of result ≡ found_values (form_of form.entry) (first_value (found_of values.now)) }
{
    CommandValues {
        first: text_of(values, "first"),
        second: text_of(values, "second"),
        third: text_of(values, "third"),
        last: values.get_str("last"),
        first_option: option_number(form.options.first(), values, "first-option"),
        second_option: option_number(form.options.get(1), values, "second-option"),
    }
}
