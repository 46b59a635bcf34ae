// The message of arguments that are no command.
ghost use Rattle.std.specs.Prelude.{◌≡◌, ◌++◌, [], Some, drop, map, codes, option_map, OnOk, IfOk, string_bytes};
ghost use Rattle.std.specs.List.{flat_map};
ghost use Rattle.sb_commands.specs.Forms.{bounded_of, choice_of, form_by, form_of, place_of};
ghost use Rattle.sb_commands.specs.Usage.{BadNumber, BadOptionNumber, ExtraWord, Missing, NoFileName, NoOptionNumber, OptionBetween, OptionTwice, UnknownOption, fault_of, texts};
ghost use Rattle.sb_commands.specs.UsageMessages.{advice, first_text, is_flag, no_command_text, topic_text, argument_text, bounds_text, choice_text, command_text, fault_text, flag_text, form_text, last_text, name_text, number_text, place_text, quoted_word, unknown_text, usage_line, usage_message, word_at, wrong_text};

use crate::forms::{
    CommandForm, FormNumber, FormOption, FormPlace, OptionKind, form_by, forms_text,
};
use crate::inquiries::is_help_flag;
use crate::usage::place_name;
use crate::usage_faults::UsageFault;
use sb_base::NoMemory;
use sb_glyphs::{put_decimal_text, put_quoted, put_shown};
use std::alloc::Global;

// Appends the names of places.
fn put_place(out: &mut String, place: FormPlace<'static>) -> Result<(), NoMemory>
    ensures { OnOk result (string_bytes out.new ≡ string_bytes out.old ++ place_text (place_of place.entry)) }
{
    out.push(' ')?;
    out.push_str(place_name(place))?;
    Ok(())
}

fn put_last(out: &mut String, last: Option<&'static str>) -> Result<(), NoMemory>
    ensures { OnOk result (string_bytes out.new ≡ string_bytes out.old ++ last_text (option_map (λ name. name.now) last.entry)) }
{
    if let Some(name) = last {
        out.push_str(" [")?;
        out.push_str(name)?;
        out.push_str("]")?;
    }
    Ok(())
}

// Appends an option, in square brackets.
fn put_choice(out: &mut String, option: FormOption<'static>) -> Result<(), NoMemory>
    ensures { OnOk result (string_bytes out.new ≡ string_bytes out.old ++ choice_text (choice_of option.entry)) }
{
    out.push_str(" [--")?;
    out.push_str(option.flag)?;
    if let OptionKind::Number(number) = option.kind {
        out.push(' ')?;
        out.push_str(number.name)?;
    }
    out.push_str("]")?;
    Ok(())
}

fn put_choices(out: &mut String, options: &[FormOption<'static>]) -> Result<(), NoMemory>
    ensures { OnOk result (string_bytes out.new ≡ string_bytes out.old ++ flat_map choice_text (map choice_of options.now)) }
{
    for option in options {
        put_choice(out, *option)?;
    }
    Ok(())
}

fn put_places(out: &mut String, places: &[FormPlace<'static>]) -> Result<(), NoMemory>
    ensures { OnOk result (string_bytes out.new ≡ string_bytes out.old ++ flat_map place_text (map place_of places.now)) }
{
    for place in places {
        put_place(out, *place)?;
    }
    Ok(())
}

/// Appends a form as it is written: its name, its places, and what may be left out in square brackets.
///
/// # Errors
/// `NoMemory` if there was none for the bytes.
pub(crate) fn put_form(out: &mut String, form: CommandForm<'static>) -> Result<(), NoMemory>
    ensures { OnOk result (string_bytes out.new ≡ string_bytes out.old ++ form_text (form_of form.entry)) }
{
    out.push_str(form.name)?;
    put_places(out, form.places)?;
    put_last(out, form.last)?;
    put_choices(out, form.options)
}

fn put_usage_line(out: &mut String) -> Result<(), NoMemory>
    ensures { OnOk result (string_bytes out.new ≡ string_bytes out.old ++ usage_line) }
{
    out.push_str("sandbox: usage: ")?;
    out.push_str(forms_text())?;
    out.push_str("\n")?;
    Ok(())
}

// The argument at a place.
fn word_at(at: usize, words: &[String]) -> &[u8]
    ensures { result.now ≡ word_at at (texts words.now) }
{
    match words.get(at) {
        Some(word) => word.as_bytes(),
        None => &[],
    }
}

fn put_word(out: &mut String, at: usize, words: &[String]) -> Result<(), NoMemory>
    ensures { OnOk result (string_bytes out.new ≡ string_bytes out.old ++ quoted_word at (texts words.now)) }
{
    put_quoted(out, word_at(at, words))
}

fn put_command(out: &mut String, words: &[String]) -> Result<(), NoMemory>
    ensures { OnOk result (string_bytes out.new ≡ string_bytes out.old ++ command_text (texts words.now)) }
{
    put_shown(out, word_at(0, words))?;
    out.push_str(": ")?;
    Ok(())
}

// Appends the bounds of a number.
fn put_bounds(out: &mut String, number: FormNumber<'static>) -> Result<(), NoMemory>
    ensures { OnOk result (string_bytes out.new ≡ string_bytes out.old ++ bounds_text (bounded_of number.entry)) }
{
    out.push_str(" is not a number from ")?;
    put_decimal_text(out, number.low)?;
    out.push_str(" to ")?;
    put_decimal_text(out, number.high)
}

// Appends the command, words, and an argument.
fn put_argument_fault(
    out: &mut String,
    before: &str,
    at: usize,
    words: &[String],
) -> Result<(), NoMemory>
    ensures { OnOk result (string_bytes out.new ≡ string_bytes out.old ++ argument_text (texts words.now) before.now at) }
{
    put_command(out, words)?;
    out.push_str(before)?;
    put_word(out, at, words)
}

// Appends the command, and a name between words.
fn put_named_fault(
    out: &mut String,
    before: &str,
    name: &str,
    after: &str,
    words: &[String],
) -> Result<(), NoMemory>
    ensures { OnOk result (string_bytes out.new ≡ string_bytes out.old ++ name_text (texts words.now) before.now name.now after.now) }
{
    put_command(out, words)?;
    out.push_str(before)?;
    out.push_str(name)?;
    out.push_str(after)?;
    Ok(())
}

// Appends the command, a name, and an argument that is not what the name means.
fn put_wrong(out: &mut String, name: &str, at: usize, words: &[String]) -> Result<(), NoMemory>
    ensures { OnOk result (string_bytes out.new ≡ string_bytes out.old
        ++ (name_text (texts words.now) [] name.now (codes ": ") ++ quoted_word at (texts words.now))) }
{
    put_named_fault(out, "", name, ": ", words)?;
    put_word(out, at, words)
}

// Appends an option's name.
fn put_flag(out: &mut String, flag: &str) -> Result<(), NoMemory>
    ensures { OnOk result (string_bytes out.new ≡ string_bytes out.old ++ flag_text flag.now) }
{
    out.push_str("--")?;
    out.push_str(flag)?;
    out.push_str(": ")?;
    Ok(())
}

// Appends words and an argument.
fn put_unknown(out: &mut String, before: &str, at: usize, words: &[String]) -> Result<(), NoMemory>
    ensures { OnOk result (string_bytes out.new ≡ string_bytes out.old ++ unknown_text before.now at (texts words.now)) }
{
    out.push_str(before)?;
    put_word(out, at, words)
}

// Appends that `help` has no such command, or an argument more.
fn put_topic(out: &mut String, topic: &str, words: &[String]) -> Result<(), NoMemory>
    ensures { OnOk result (string_bytes out.new ≡ string_bytes out.old ++ topic_text (form_by topic.now) (texts words.now)) }
{
    match form_by(topic) {
        None => put_argument_fault(out, "unknown command ", 1, words),
        Some(_) => put_argument_fault(out, "extra argument ", 2, words),
    }
}

// Whether the program answers this argument alone.
fn is_flag(word: &str) -> bool
    ensures { result ≡ is_flag word.now }
{
    is_help_flag(word) || word == "--version"
}

// Appends what is wrong with two arguments or more, of which the first is no command.
fn put_first(out: &mut String, first: &str, second: &str, words: &[String]) -> Result<(), NoMemory>
    ensures { OnOk result (string_bytes out.new ≡ string_bytes out.old ++ first_text first.now second.now (texts words.now)) }
{
    if first == "help" {
        return put_topic(out, second, words);
    }
    if is_flag(first) {
        return put_argument_fault(out, "extra argument ", 1, words);
    }
    put_unknown(out, "unknown command ", 0, words)
}

// Appends what is wrong with arguments of which the first is no command.
fn put_unknown_command(out: &mut String, words: &[String]) -> Result<(), NoMemory>
    ensures { OnOk result (string_bytes out.new ≡ string_bytes out.old ++ no_command_text (texts words.now)) }
{
    match words.get(1) {
        Some(second) => put_first(out, first_word(words), second.as_str(), words),
        None => put_unknown(out, "unknown command ", 0, words),
    }
}

// Appends that the command has no such option.
fn put_unknown_option(out: &mut String, at: usize, words: &[String]) -> Result<(), NoMemory>
    ensures { OnOk result (string_bytes out.new ≡ string_bytes out.old ++ fault_text (UnknownOption at) (texts words.now)) }
{
    put_argument_fault(out, "unknown option ", at, words)
}

// Appends that there is an argument more.
fn put_extra_argument(out: &mut String, at: usize, words: &[String]) -> Result<(), NoMemory>
    ensures { OnOk result (string_bytes out.new ≡ string_bytes out.old ++ fault_text (ExtraWord at) (texts words.now)) }
{
    put_argument_fault(out, "extra argument ", at, words)
}

// Appends the number of an option, and what is wrong with it.
fn put_option_number(
    out: &mut String,
    flag: &str,
    number: FormNumber<'static>,
    why: &str,
) -> Result<(), NoMemory>
    ensures { OnOk result (string_bytes out.new ≡ string_bytes out.old ++ number_text flag.now (bounded_of number.entry) why.now) }
{
    put_flag(out, flag)?;
    out.push_str(number.name)?;
    out.push_str(why)?;
    Ok(())
}

// Appends that an option has no number.
fn put_no_number(
    out: &mut String,
    flag: &'static str,
    number: FormNumber<'static>,
) -> Result<(), NoMemory>
    ensures { OnOk result (string_bytes out.new ≡ string_bytes out.old ++ fault_text (NoOptionNumber flag.now (bounded_of number.entry)) []) }
{
    put_option_number(out, flag, number, " is missing")
}

// The rest of an argument after its first bytes, of which there are this number.
fn after_skipped(skipped: usize, word: &[u8]) -> &[u8]
    ensures { result.now ≡ drop skipped word.now }
{
    match word.get(skipped..) {
        Some(rest) => rest,
        None => &[],
    }
}

// Appends that an option's number is none, or not within its bounds.
fn put_bad_option_number(
    out: &mut String,
    at: usize,
    skipped: usize,
    flag: &str,
    number: FormNumber<'static>,
    words: &[String],
) -> Result<(), NoMemory>
    ensures { OnOk result (string_bytes out.new ≡ string_bytes out.old
        ++ fault_text (BadOptionNumber at skipped flag.now (bounded_of number.entry)) (texts words.now)) }
{
    put_flag(out, flag)?;
    put_quoted(out, after_skipped(skipped, word_at(at, words)))?;
    put_bounds(out, number)
}

// Appends the command, a name, an argument that is not what the name means, and why.
fn put_wrong_because(
    out: &mut String,
    name: &str,
    at: usize,
    why: &str,
    words: &[String],
) -> Result<(), NoMemory>
    ensures { OnOk result (string_bytes out.new ≡ string_bytes out.old ++ wrong_text (texts words.now) name.now at why.now) }
{
    put_wrong(out, name, at, words)?;
    out.push_str(why)?;
    Ok(())
}

// Appends that an argument is not the name of a file.
fn put_no_file_name(
    out: &mut String,
    at: usize,
    name: &str,
    words: &[String],
) -> Result<(), NoMemory>
    ensures { OnOk result (string_bytes out.new ≡ string_bytes out.old ++ fault_text (NoFileName at name.now) (texts words.now)) }
{
    put_wrong_because(out, name, at, " is not a file name", words)
}

// Appends that an argument is no number, or not within its bounds.
fn put_bad_number(
    out: &mut String,
    at: usize,
    number: FormNumber<'static>,
    words: &[String],
) -> Result<(), NoMemory>
    ensures { OnOk result (string_bytes out.new ≡ string_bytes out.old ++ fault_text (BadNumber at (bounded_of number.entry)) (texts words.now)) }
{
    put_wrong(out, number.name, at, words)?;
    put_bounds(out, number)
}

// Appends that an option is given twice.
fn put_option_twice(
    out: &mut String,
    at: usize,
    flag: &str,
    words: &[String],
) -> Result<(), NoMemory>
    ensures { OnOk result (string_bytes out.new ≡ string_bytes out.old ++ fault_text (OptionTwice at flag.now) (texts words.now)) }
{
    put_named_fault(out, "--", flag, " is given twice", words)
}

// Appends that an option is neither before the files nor after them.
fn put_option_between(
    out: &mut String,
    at: usize,
    flag: &str,
    words: &[String],
) -> Result<(), NoMemory>
    ensures { OnOk result (string_bytes out.new ≡ string_bytes out.old ++ fault_text (OptionBetween at flag.now) (texts words.now)) }
{
    put_named_fault(out, "--", flag, " is not allowed between the files", words)
}

// Appends that an argument is missing.
fn put_missing(out: &mut String, name: &str, words: &[String]) -> Result<(), NoMemory>
    ensures { OnOk result (string_bytes out.new ≡ string_bytes out.old ++ fault_text (Missing name.now) (texts words.now)) }
{
    put_named_fault(out, "", name, " is missing", words)
}

// Appends what is wrong with arguments.
fn put_fault(out: &mut String, fault: UsageFault, words: &[String]) -> Result<(), NoMemory>
    ensures { OnOk result (string_bytes out.new ≡ string_bytes out.old ++ fault_text (fault_of fault) (texts words.now)) }
{
    match fault {
        UsageFault::NotUtf8 => Ok(out.push_str("an argument is not UTF-8")?),
        UsageFault::NoCommand => Ok(out.push_str("a command is missing")?),
        UsageFault::UnknownCommand => put_unknown_command(out, words),
        UsageFault::UnknownOption(at) => put_unknown_option(out, at, words),
        UsageFault::OptionTwice(at, flag) => put_option_twice(out, at, flag, words),
        UsageFault::OptionBetween(at, flag) => put_option_between(out, at, flag, words),
        UsageFault::NoOptionNumber(flag, number) => put_no_number(out, flag, number),
        UsageFault::BadOptionNumber(at, skipped, flag, number) => {
            put_bad_option_number(out, at, skipped, flag, number, words)
        }
        UsageFault::NoFileName(at, name) => put_no_file_name(out, at, name, words),
        UsageFault::BadNumber(at, number) => put_bad_number(out, at, number, words),
        UsageFault::ExtraWord(at) => put_extra_argument(out, at, words),
        UsageFault::Missing(name) => put_missing(out, name, words),
    }
}

// The name of the command that is named, or another first argument.
fn first_word(words: &[String]) -> &str
    ensures { result.now ≡ word_at 0 (texts words.now) }
{
    match words {
        [first, ..] => first.as_str(),
        [] => "",
    }
}

// Appends the form of a command, and how to ask for its help.
fn put_form_advice(out: &mut String, form: CommandForm<'static>) -> Result<(), NoMemory>
    ensures { OnOk result (string_bytes out.new ≡ string_bytes out.old ++ advice (Some (form_of form.entry))) }
{
    out.push_str("  sandbox ")?;
    put_form(out, form)?;
    out.push_str("\n  sandbox help ")?;
    out.push_str(form.name)?;
    out.push_str("\n")?;
    Ok(())
}

// Appends what to write in place of arguments that are no command.
fn put_advice(out: &mut String, words: &[String]) -> Result<(), NoMemory>
    ensures { OnOk result (string_bytes out.new ≡ string_bytes out.old ++ advice (form_by (word_at 0 (texts words.now)))) }
{
    match form_by(first_word(words)) {
        Some(form) => put_form_advice(out, form),
        None => Ok(out.push_str("  sandbox help\n")?),
    }
}

/// The message of arguments that are no command: what was wrong, the form of the command that is named, how to ask for help, and last the usage line. What is shown of an argument is escaped, and cut after 40
/// characters.
///
/// # Errors
/// `NoMemory` if there was none for the message.
pub fn usage_message(alloc: Global, fault: UsageFault, words: &[String]) -> Result<String, NoMemory>
    ensures { IfOk result (λ message. string_bytes message ≡ usage_message (fault_of fault) (texts words.now)) }
{
    let mut message = String::new(alloc);
    message.push_str("sandbox: ")?;
    put_fault(&mut message, fault, words)?;
    message.push_str("\n")?;
    put_advice(&mut message, words)?;
    put_usage_line(&mut message)?;
    Ok(message)
}
