// The arguments that ask the program about itself.
ghost use Rattle.std.specs.Prelude.{◌≡◌, ◌++◌, map, option_map, OnOk, IfOk, string_bytes};
ghost use Rattle.std.specs.List.{flat_map, list_any};
ghost use Rattle.sb_commands.specs.Forms.{form_by, form_of, form_with, place_of};
ghost use Rattle.sb_commands.specs.Inquiries.{HelpOf, answer_text, asked, inquiry_alone, inquiry_by, named_help, asked_of, command_help, commands_text, entry_text, faults_of, help_text, is_help_flag, last_faults, part_text, place_faults};
ghost use Rattle.sb_commands.specs.Usage.{texts};

use crate::forms::{CommandForm, FormPlace, all_works, form_by, form_with};
use crate::help_texts::{
    AFTER, BEFORE, LINKS_FAULTS, MOVES_FAULTS, POLICY_FAULTS, SCHEDULE_FAULTS, SCRIPT_FAULTS,
    VERSION,
};
use crate::usage::place_name;
use crate::usage_messages::put_form;
use crate::works::Work;
use sb_base::NoMemory;
use std::alloc::Global;

/// What is asked.
#[derive(Clone, Copy)]
pub enum Inquiry {
    /// How the program is used.
    Help,
    /// How a command is used.
    HelpOf(CommandForm<'static>),
    /// The version, and the toolchain that proved it.
    Version,
}

/// Whether an argument is `--help` or `-h`.
pub(crate) fn is_help_flag(word: &str) -> bool
    ensures { result ≡ is_help_flag word.now }
{
    word == "--help" || word == "-h"
}

fn inquiry_alone(word: &str) -> Option<Inquiry>
    ensures { option_map asked result ≡ inquiry_alone word.now }
{
    if word == "help" || is_help_flag(word) {
        return Some(Inquiry::Help);
    }
    if word == "--version" {
        return Some(Inquiry::Version);
    }
    None
}

// The inquiry after a command of this name.
fn help_of(name: &str) -> Option<Inquiry>
    ensures { option_map asked result ≡ option_map HelpOf (form_by name.now) }
{
    match form_by(name) {
        Some(form) => Some(Inquiry::HelpOf(form)),
        None => None,
    }
}

// The inquiry after `help`, if these arguments are the name of a command.
fn named_help(names: &[String]) -> Option<Inquiry>
    ensures { option_map asked result ≡ named_help (texts names.now) }
{
    match names {
        [name] => help_of(name.as_str()),
        _ => None,
    }
}

// Whether one of the arguments is `--help` or `-h`.
fn has_help_flag(words: &[String]) -> bool
    ensures { result ≡ list_any is_help_flag (texts words.now) }
{
    for word in words {
        if is_help_flag(word.as_str()) {
            return true;
        }
    }
    false
}

fn inquiry_by(first: &str, later: &[String]) -> Option<Inquiry>
    ensures { option_map asked result ≡ inquiry_by first.now (texts later.now) }
{
    if first == "help" {
        return named_help(later);
    }
    if has_help_flag(later) {
        return help_of(first);
    }
    None
}

/// What the arguments ask: `help`, `-h`, `--help` or `--version` alone, `help COMMAND`, or the name of a command with `-h` or `--help` anywhere after
/// it. Does not allocate.
pub fn inquiry_of(words: &[String]) -> Option<Inquiry>
    ensures { option_map asked result ≡ asked_of (texts words.now) }
{
    match words {
        [] => None,
        [word] => inquiry_alone(word.as_str()),
        [first, later @ ..] => inquiry_by(first.as_str(), later),
    }
}

fn put_entry(out: &mut String, form: CommandForm<'static>) -> Result<(), NoMemory>
    ensures { OnOk result (string_bytes out.new ≡ string_bytes out.old ++ entry_text (form_of form.entry)) }
{
    out.push_str("  sandbox ")?;
    put_form(out, form)?;
    out.push_str("\n      ")?;
    out.push_str(form.does)?;
    out.push_str("\n")?;
    Ok(())
}

fn put_entries(out: &mut String, works: &[Work]) -> Result<(), NoMemory>
    ensures { OnOk result (string_bytes out.new ≡ string_bytes out.old ++ flat_map entry_text (map form_with works.now)) }
{
    for work in works {
        put_entry(out, form_with(*work))?;
    }
    Ok(())
}

// Appends all commands between two texts.
fn put_commands(out: &mut String, before: &str, after: &str) -> Result<(), NoMemory>
    ensures { OnOk result (string_bytes out.new ≡ string_bytes out.old ++ commands_text before.now after.now) }
{
    out.push_str(before)?;
    put_entries(out, all_works())?;
    out.push_str(after)?;
    Ok(())
}

// Appends the help of the program.
fn put_help(out: &mut String) -> Result<(), NoMemory>
    ensures { OnOk result (string_bytes out.new ≡ string_bytes out.old ++ help_text) }
{
    put_commands(out, BEFORE, AFTER)
}

// Appends a part of the help of a command, after an empty line.
fn put_part(out: &mut String, part: &str) -> Result<(), NoMemory>
    ensures { OnOk result (string_bytes out.new ≡ string_bytes out.old ++ part_text part.now) }
{
    out.push('\n')?;
    out.push_str(part)?;
    Ok(())
}

fn put_parts(out: &mut String, parts: &[&str]) -> Result<(), NoMemory>
    ensures { OnOk result (string_bytes out.new ≡ string_bytes out.old ++ flat_map part_text (map (λ part. part.now) parts.now)) }
{
    for part in parts {
        put_part(out, *part)?;
    }
    Ok(())
}

// Appends the faults of a file of this name.
fn put_faults(out: &mut String, name: &str) -> Result<(), NoMemory>
    ensures { OnOk result (string_bytes out.new ≡ string_bytes out.old ++ faults_of name.now) }
{
    match name {
        "POLICY" => put_part(out, POLICY_FAULTS),
        "SCRIPT" => put_part(out, SCRIPT_FAULTS),
        "SCHEDULE" => put_part(out, SCHEDULE_FAULTS),
        "LINKS" => put_part(out, LINKS_FAULTS),
        "MOVES" => put_part(out, MOVES_FAULTS),
        _ => Ok(()),
    }
}

// Appends the faults of the files at places.
fn put_places_faults(out: &mut String, places: &[FormPlace<'static>]) -> Result<(), NoMemory>
    ensures { OnOk result (string_bytes out.new ≡ string_bytes out.old ++ flat_map place_faults (map place_of places.now)) }
{
    for place in places {
        put_faults(out, place_name(*place))?;
    }
    Ok(())
}

// Appends the faults of the file that may be left out.
fn put_last_faults(out: &mut String, last: Option<&'static str>) -> Result<(), NoMemory>
    ensures { OnOk result (string_bytes out.new ≡ string_bytes out.old ++ last_faults (option_map (λ name. name.now) last.entry)) }
{
    match last {
        Some(name) => put_faults(out, name),
        None => Ok(()),
    }
}

// Appends the help of a command.
fn put_command_help(out: &mut String, form: CommandForm<'static>) -> Result<(), NoMemory>
    ensures { OnOk result (string_bytes out.new ≡ string_bytes out.old ++ command_help (form_of form.entry)) }
{
    out.push_str("usage:\n")?;
    put_entry(out, form)?;
    put_part(out, form.help.about)?;
    put_places_faults(out, form.places)?;
    put_last_faults(out, form.last)?;
    put_parts(out, form.help.after)
}

/// What is answered to an inquiry, in whole lines: the forms of all commands and what they have in common; the form of one command with what it does,
/// an example, the faults of its files and its exit statuses; or the version.
///
/// # Errors
/// `NoMemory` if there was none for the text.
pub fn inquiry_text(alloc: Global, inquiry: Inquiry) -> Result<String, NoMemory>
    ensures { IfOk result (λ text. string_bytes text ≡ answer_text (asked inquiry)) }
{
    let mut text = String::new(alloc);
    match inquiry {
        Inquiry::Help => put_help(&mut text)?,
        Inquiry::HelpOf(form) => put_command_help(&mut text, form)?,
        Inquiry::Version => text.push_str(VERSION)?,
    }
    Ok(text)
}
