// What is wrong, in words.
ghost use Rattle.std.specs.Prelude.{◌≡◌, ◌++◌, ◌∷◌, [], true, IfOk, OnOk, string_bytes};
ghost use Rattle.sb_message.specs.Causes.{HasNumbers, are_words, cause_text, two_text, names_word};

use sb_base::NoMemory;
use sb_glyphs::put_decimal_text;
use sb_rule::PatternFault;
use sb_text::WordFault;
use std::alloc::Global;

/// Appends words.
pub(crate) fn put_words(out: &mut String, words: &str) -> Result<(), NoMemory>
    ensures { OnOk result (string_bytes out.new ≡ string_bytes out.old ++ words.now) }
{
    out.push_str(words)?;
    Ok(())
}

/// Words, after them the token if they name it, and what may stand there.
pub(crate) fn cause_text(
    alloc: Global,
    words: &str,
    names_token: bool,
    named: &str,
    hint: &str,
) -> Result<String, NoMemory>
    ensures { IfOk result (λ cause. string_bytes cause ≡ cause_text words.now names_token named.now hint.now) }
{
    let mut cause = String::new(alloc);
    cause.push_str(words)?;
    if names_token {
        cause.push_str(named)?;
    }
    cause.push_str(hint)?;
    Ok(cause)
}

/// Appends words and a number, and again words and a number.
pub(crate) fn put_two(
    out: &mut String,
    before: &str,
    first: u64,
    between: &str,
    second: u64,
) -> Result<(), NoMemory>
    ensures { OnOk result (string_bytes out.new ≡ string_bytes out.old ++ two_text before.now first between.now second) }
{
    out.push_str(before)?;
    put_decimal_text(out, first)?;
    out.push_str(between)?;
    put_decimal_text(out, second)
}

/// Words, with two numbers between them.
pub(crate) fn with_two(
    alloc: Global,
    before: &str,
    first: u64,
    between: &str,
    second: u64,
    after: &str,
) -> Result<String, NoMemory>
    requires before { are_words before.now ≡ true }
    requires between { are_words between.now ≡ true }
    requires after { are_words after.now ≡ true }
    ensures { IfOk result (λ words. HasNumbers (first ∷ second ∷ []) (string_bytes words)) }
{
    let mut words = String::new(alloc);
    put_two(&mut words, before, first, between, second)?;
    words.push_str(after)?;
    Ok(words)
}

/// That a script does not have this target, and how many it has.
pub(crate) fn no_target(alloc: Global, target: u64, targets: u64) -> Result<String, NoMemory>
    ensures { IfOk result (λ words. HasNumbers (target ∷ targets ∷ []) (string_bytes words)) }
{
    with_two(
        alloc,
        "no such target ",
        target,
        ": the script has ",
        targets,
        "",
    )
}

/// That a number is not in this range, before that number.
pub(crate) fn not_in_range(alloc: Global, low: u64, high: u64) -> Result<String, NoMemory>
    ensures { IfOk result (λ words. HasNumbers (low ∷ high ∷ []) (string_bytes words)) }
{
    with_two(alloc, "not a number from ", low, " to ", high, ": ")
}

/// Words alone.
pub(crate) fn alone(alloc: Global, words: &str) -> Result<String, NoMemory>
    requires { are_words words.now ≡ true }
    ensures { IfOk result (λ text. are_words (string_bytes text) ≡ true) }
{
    let mut text = String::new(alloc);
    text.push_str(words)?;
    Ok(text)
}

/// Why a token is not the word that is due.
pub(crate) fn word_words(fault: WordFault) -> &'static str
    ensures { are_words result.now ≡ true }
{
    match fault {
        WordFault::Unknown => "unknown word ",
        WordFault::Missing => "a word is missing",
        WordFault::Extra => "extra word ",
        WordFault::Broken => "broken token ",
        WordFault::Quoted => "not allowed in quotes: ",
        WordFault::Unquoted => "needs quotes: ",
        WordFault::Misplaced => "not allowed on this line: ",
        WordFault::Repeated => "only one line may begin with ",
        WordFault::NoVersion => "the first line names no known version",
    }
}

/// Whether these words name the token.
pub(crate) fn names_word(fault: WordFault) -> bool
    ensures { result ≡ names_word fault }
{
    !matches!(fault, WordFault::Missing | WordFault::NoVersion)
}

/// Why a text is no pattern.
pub(crate) fn pattern_words(fault: PatternFault) -> &'static str
    ensures { are_words result.now ≡ true }
{
    match fault {
        PatternFault::DoubleStar(_) => "bad pattern: a star follows a star",
        PatternFault::StarQuestion(_) => "bad pattern: a question mark follows a star",
        PatternFault::TooLong => "bad pattern: more than 256 UTF-16 units",
    }
}
