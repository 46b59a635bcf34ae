// How the arguments after a command's name are tested against its form: the first fault from left to right.
ghost use Rattle.std.specs.Prelude.{◌≡◌, ◌-◌, false, length, map, option_map, string_bytes};
ghost use Rattle.sb_commands.specs.Forms.{bounded_of, choice_of, form_of, place_of};
ghost use Rattle.sb_commands.specs.Usage.{Given, IsCut, IsLeft, IsTested, after_dashes, after_flag, cut_all, cut_apart, cut_joined, cut_last, cut_option, cut_places, cut_value, dash_fault, extra_fault, fault_of, flag_of, flag_word, flags_of, is_dash, is_given, kind_fault, left_of, option_of, place_fault, place_name, read_after, texts, with_given, word_as};

use crate::forms::{CommandForm, FormNumber, FormOption, FormPlace, OptionKind};
use crate::number_words::is_number;
use crate::usage_faults::UsageFault;

/// An argument as an option of a given name.
#[derive(Clone, Copy)]
pub(crate) enum OptionWord<'a> {
    /// `--FLAG`: the next argument is its number.
    Apart,
    /// `--FLAG=N`.
    Joined(&'a [u8]),
    /// Neither.
    Other,
}

fn after_flag(bytes: &[u8]) -> OptionWord<'_>
    ensures { flag_of result ≡ after_flag bytes.now }
{
    match bytes {
        [] => OptionWord::Apart,
        [b'=', value @ ..] => OptionWord::Joined(value),
        _ => OptionWord::Other,
    }
}

fn after_dashes<'a>(flag: &str, bytes: &'a [u8]) -> OptionWord<'a>
    ensures { flag_of result ≡ after_dashes flag.now bytes.now }
{
    match bytes.strip_prefix(flag.as_bytes()) {
        Some(later) => after_flag(later),
        None => OptionWord::Other,
    }
}

// An argument as the option of this name.
fn flag_word<'a>(flag: &str, word: &'a [u8]) -> OptionWord<'a>
    ensures { flag_of result ≡ flag_word flag.now word.now }
{
    match word.strip_prefix(b"--".as_slice()) {
        Some(later) => after_dashes(flag, later),
        None => OptionWord::Other,
    }
}

// Whether an argument begins with `-`.
fn is_dash(word: &[u8]) -> bool
    ensures { result ≡ is_dash word.now }
{
    match word {
        [first, ..] => *first == b'-',
        [] => false,
    }
}

// Which options of a form were given.
#[derive(Clone, Copy)]
pub(crate) struct GivenOptions {
    first: bool,
    second: bool,
}

impl GivenOptions {
    // None.
    fn none() -> GivenOptions
        ensures { result ≡ record { first = false; second = false } }
    {
        GivenOptions {
            first: false,
            second: false,
        }
    }

    // Whether the option of this number was given, from 0.
    fn has(self, number: usize) -> bool
        ensures { result ≡ is_given number self }
    {
        if number == 0 { self.first } else { self.second }
    }

    // The same and the option of this number.
    fn with(self, number: usize) -> GivenOptions
        ensures { result ≡ with_given number self }
    {
        if number == 0 {
            return GivenOptions {
                first: true,
                ..self
            };
        }
        GivenOptions {
            second: true,
            ..self
        }
    }
}

// An argument as an option of this form: with its number in the next argument or in its own, if it takes one.
fn word_as<'a>(option: FormOption<'static>, word: &'a [u8]) -> OptionWord<'a>
    ensures { flag_of result ≡ word_as (choice_of option.entry) word.now }
{
    match (option.kind, flag_word(option.flag, word)) {
        (OptionKind::Switch, OptionWord::Joined(_)) => OptionWord::Other,
        (_, found) => found,
    }
}

// The first option that an argument is, with its number from 0.
fn option_of(options: &[FormOption<'static>], word: &[u8]) -> Option<(usize, FormOption<'static>)>
    ensures { option_map (λ o. (o.0, choice_of o.1)) result ≡ option_of (map choice_of options.now) word.now }
{
    for (number, option) in options.iter().enumerate() {
        match word_as(*option, word) {
            OptionWord::Other => {}
            _ => return Some((number, *option)),
        }
    }
    None
}

// The place of the first of the arguments left.
fn place_at(total: usize, left: &[String]) -> usize
    ensures { result ≡ total - length (texts left.now) }
{
    total.saturating_sub(left.len())
}

// Takes the number of the option, which is the next argument.
fn cut_apart<'w>(
    flag: &'static str,
    number: FormNumber<'static>,
    total: usize,
    words: &'w [String],
) -> Result<&'w [String], UsageFault>
    ensures { IsLeft (left_of (cut_apart flag.entry.now (bounded_of number.entry) total (texts words.now))) result }
{
    match words.split_first() {
        None => Err(UsageFault::NoOptionNumber(flag, number)),
        Some((word, later)) => {
            if is_number(number.low, number.high, word.as_bytes()) {
                return Ok(later);
            }
            let at = place_at(total, words);
            Err(UsageFault::BadOptionNumber(at, 0, flag, number))
        }
    }
}

// Takes the number of the option, which is in its own argument, the last before `later`.
fn cut_joined<'w>(
    flag: &'static str,
    number: FormNumber<'static>,
    total: usize,
    word: &str,
    later: &'w [String],
    value: &[u8],
) -> Result<&'w [String], UsageFault>
    ensures { IsLeft (left_of (cut_joined flag.entry.now (bounded_of number.entry) total word.now (texts later.now) value.now)) result }
{
    if is_number(number.low, number.high, value) {
        return Ok(later);
    }
    let at = place_at(total, later).saturating_sub(1);
    let skipped = word.len().saturating_sub(value.len());
    Err(UsageFault::BadOptionNumber(at, skipped, flag, number))
}

// Takes an option that this argument is, with its number, if it takes one.
fn cut_value<'w>(
    option: FormOption<'static>,
    total: usize,
    word: &String,
    later: &'w [String],
) -> Result<&'w [String], UsageFault>
    ensures { IsLeft (left_of (cut_value (choice_of option.entry) total (string_bytes word.now) (texts later.now))) result }
{
    let flag = option.flag;
    match (option.kind, flag_word(flag, word.as_bytes())) {
        (OptionKind::Number(number), OptionWord::Apart) => cut_apart(flag, number, total, later),
        (OptionKind::Number(number), OptionWord::Joined(value)) => {
            cut_joined(flag, number, total, word.as_str(), later, value)
        }
        _ => Ok(later),
    }
}

// Takes the next argument, if it is an option that was not given before.
fn cut_option<'w>(
    options: &[FormOption<'static>],
    given: GivenOptions,
    total: usize,
    words: &'w [String],
) -> Result<(GivenOptions, &'w [String]), UsageFault>
    ensures { (g : Given) → flags_of g ≡ given → IsCut (cut_option (map choice_of options.now) g total (texts words.now)) result }
{
    let Some((word, later)) = words.split_first() else {
        return Ok((given, words));
    };
    match option_of(options, word.as_bytes()) {
        Some((number, option)) if !given.has(number) => {
            let left = cut_value(option, total, word, later)?;
            Ok((given.with(number), left))
        }
        _ => Ok((given, words)),
    }
}

// Takes options as long as the next argument is one that was not given before: of one option or two, each at most once.
fn cut_options<'w>(
    options: &[FormOption<'static>],
    given: GivenOptions,
    total: usize,
    words: &'w [String],
) -> Result<(GivenOptions, &'w [String]), UsageFault>
    ensures { (g : Given) → flags_of g ≡ given → IsCut (cut_all (map choice_of options.now) g total (texts words.now)) result }
{
    match options {
        [] => Ok((given, words)),
        [_] => cut_option(options, given, total, words),
        _ => {
            let (given, left) = cut_option(options, given, total, words)?;
            cut_option(options, given, total, left)
        }
    }
}

// The fault of an argument that begins with `-` where no option is allowed.
fn dash_fault(
    options: &[FormOption<'static>],
    given: GivenOptions,
    at: usize,
    word: &[u8],
) -> UsageFault
    ensures { fault_of result ≡ dash_fault (map choice_of options.now) given at word.now }
{
    match option_of(options, word) {
        None => UsageFault::UnknownOption(at),
        Some((number, option)) => {
            if given.has(number) {
                return UsageFault::OptionTwice(at, option.flag);
            }
            UsageFault::OptionBetween(at, option.flag)
        }
    }
}

// The fault of an argument that should be a number or the name of a file.
fn kind_fault(place: FormPlace<'static>, at: usize, word: &[u8]) -> Option<UsageFault>
    ensures { option_map fault_of result ≡ kind_fault (place_of place.entry) at word.now }
{
    match place {
        FormPlace::Word(_) => None,
        FormPlace::File(name) => match word {
            [] => Some(UsageFault::NoFileName(at, name)),
            _ => None,
        },
        FormPlace::Number(number) => {
            if is_number(number.low, number.high, word) {
                return None;
            }
            Some(UsageFault::BadNumber(at, number))
        }
    }
}

// The fault of an argument at a place.
fn place_fault(
    options: &[FormOption<'static>],
    given: GivenOptions,
    at: usize,
    place: FormPlace<'static>,
    word: &[u8],
) -> Option<UsageFault>
    ensures { option_map fault_of result ≡ place_fault (map choice_of options.now) given at (place_of place.entry) word.now }
{
    if is_dash(word) {
        return Some(dash_fault(options, given, at, word));
    }
    kind_fault(place, at, word)
}

/// The name of a place.
pub(crate) fn place_name(place: FormPlace<'static>) -> &'static str
    ensures { result.now ≡ place_name (place_of place.entry) }
{
    match place {
        FormPlace::File(name) | FormPlace::Word(name) => name,
        FormPlace::Number(number) => number.name,
    }
}

// The arguments after those at the places.
fn cut_places<'w>(
    form: CommandForm<'static>,
    given: GivenOptions,
    total: usize,
    words: &'w [String],
) -> Result<&'w [String], UsageFault>
    ensures { IsLeft (cut_places (form_of form.entry).options given total (form_of form.entry).places (texts words.now)) result }
{
    let mut left = words;
    for place in form.places {
        let Some((word, later)) = left.split_first() else {
            return Err(UsageFault::Missing(place_name(*place)));
        };
        let at = place_at(total, left);
        if let Some(fault) = place_fault(form.options, given, at, *place, word.as_bytes()) {
            return Err(fault);
        }
        left = later;
    }
    Ok(left)
}

// Takes the file that may be left out.
fn cut_last<'w>(
    last: Option<&'static str>,
    total: usize,
    words: &'w [String],
) -> Result<&'w [String], UsageFault>
    ensures { IsLeft (left_of (cut_last (option_map (λ name. name.now) last.entry) total (texts words.now))) result }
{
    let Some(name) = last else {
        return Ok(words);
    };
    let Some((word, later)) = words.split_first() else {
        return Ok(words);
    };
    match word.as_bytes() {
        [] => Err(UsageFault::NoFileName(place_at(total, words), name)),
        [b'-', ..] => Ok(words),
        _ => Ok(later),
    }
}

// The fault of arguments after all others, if there are any.
fn extra_fault(
    options: &[FormOption<'static>],
    given: GivenOptions,
    total: usize,
    words: &[String],
) -> Option<UsageFault>
    ensures { option_map fault_of result ≡ extra_fault (map choice_of options.now) given total (texts words.now) }
{
    let (word, _) = words.split_first()?;
    let at = place_at(total, words);
    if is_dash(word.as_bytes()) {
        return Some(dash_fault(options, given, at, word.as_bytes()));
    }
    Some(UsageFault::ExtraWord(at))
}

/// Tests the arguments after a command's name, of which there are `total` with the name.
///
/// # Errors
/// The first fault, from left to right.
pub(crate) fn usage_test(
    form: CommandForm<'static>,
    total: usize,
    words: &[String],
) -> Result<(), UsageFault>
    ensures { IsTested (read_after (form_of form.entry) total (texts words.now)) result }
{
    let (given, left) = cut_options(form.options, GivenOptions::none(), total, words)?;
    let left = cut_places(form, given, total, left)?;
    let left = cut_last(form.last, total, left)?;
    let (given, left) = cut_options(form.options, given, total, left)?;
    match extra_fault(form.options, given, total, left) {
        Some(fault) => Err(fault),
        None => Ok(()),
    }
}
