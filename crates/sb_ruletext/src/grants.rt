// Grants: one line that is short for several rules.
ghost use Rattle.std.specs.Prelude.{◌≡◌, ◌∷◌, [], IfOk};
ghost use Rattle.sb_call.specs.declared.tags.CallTag.TheVariants.{FileCreate, FileRename};
ghost use Rattle.sb_ruletext.specs.declared.grants.Grant.TheVariants.{FilesAny, FilesReadonly};
ghost use Rattle.sb_ruletext.specs.Grants.{grant_word, grants, grant_of, like_at, reads_at, opens_at, allowing, rules_of};

use sb_base::NoMemory;
use sb_call::CallTag;
use sb_rule::{Action, Cond, Conds, Numbers, Pattern, Rule, Rules, Test, WRITING_BITS};
use std::alloc::Global;

/// The disposition with which `file.create` opens a file that is there.
const OPEN: u64 = 1;

/// What a line `grant GRANT "PATTERN"` grants for the names that its pattern matches.
#[derive(Clone, Copy)]
pub(crate) enum Grant {
    /// Everything that calls do with files.
    FilesAny,
    /// Opening files without any access that changes them, and asking for their attributes.
    FilesReadonly,
    /// Asking for the attributes of files.
    FilesQuery,
    /// Making pipes.
    PipesAny,
    /// Creating and opening registry keys.
    RegistryAny,
    /// Opening registry keys without any access that changes them.
    RegistryReadonly,
    /// Creating and opening events.
    EventsAny,
    /// Opening events without any access that changes them.
    EventsReadonly,
}

fn grant_word(grant: Grant) -> &'static [u8]
    ensures { result.now ≡ grant_word grant }
{
    match grant {
        Grant::FilesAny => b"files_any",
        Grant::FilesReadonly => b"files_readonly",
        Grant::FilesQuery => b"files_query",
        Grant::PipesAny => b"pipes_any",
        Grant::RegistryAny => b"registry_any",
        Grant::RegistryReadonly => b"registry_readonly",
        Grant::EventsAny => b"events_any",
        Grant::EventsReadonly => b"events_readonly",
    }
}

fn grants() -> &'static [Grant]
    ensures { result.now ≡ grants }
{
    &[
        Grant::FilesAny,
        Grant::FilesReadonly,
        Grant::FilesQuery,
        Grant::PipesAny,
        Grant::RegistryAny,
        Grant::RegistryReadonly,
        Grant::EventsAny,
        Grant::EventsReadonly,
    ]
}

/// The grant of a word.
pub(crate) fn grant_of(word: &[u8]) -> Option<Grant>
    ensures { result ≡ grant_of word.now }
{
    for grant in grants() {
        if word == grant_word(*grant) {
            return Some(*grant);
        }
    }
    None
}

// `name like P`, and for `file.rename` also `to like P`.
fn like_at(param: u32, pattern: &Pattern) -> Result<Cond, NoMemory>
    ensures { IfOk result (λ cond. cond ≡ like_at param pattern.now) }
{
    let pattern = pattern.clone()?;
    Ok(Cond {
        param,
        negated: false,
        test: Test::Like(pattern),
    })
}

// `not access has M`.
fn reads_at(param: u32) -> Cond
    ensures { result ≡ reads_at param }
{
    Cond {
        param,
        negated: true,
        test: Test::Mask(WRITING_BITS),
    }
}

// `disposition is 1`.
fn opens_at(alloc: Global, param: u32) -> Result<Cond, NoMemory>
    ensures { IfOk result (λ cond. cond ≡ opens_at param) }
{
    let numbers = vec![in alloc; OPEN]?;
    Ok(Cond {
        param,
        negated: false,
        test: Test::OneOf(Numbers::new(numbers)),
    })
}

// The rule that allows a call if these conditions hold.
fn allowing(line: u32, tag: CallTag, conds: Vec<Cond>) -> Rule
    ensures { result ≡ allowing line tag conds.items }
{
    Rule {
        tag,
        conds: Conds::new(conds),
        action: Action::Allow,
        line,
    }
}

// The rule that allows a call if its name matches the pattern.
fn named(alloc: Global, line: u32, tag: CallTag, pattern: &Pattern) -> Result<Rule, NoMemory>
    ensures { IfOk result (λ rule. rule ≡ allowing line tag (like_at 0 pattern.now ∷ [])) }
{
    let name = like_at(0, pattern)?;
    Ok(allowing(line, tag, vec![in alloc; name]?))
}

// The rule that allows to open what is there, if its name matches the pattern and the access only reads.
fn reading(alloc: Global, line: u32, tag: CallTag, pattern: &Pattern) -> Result<Rule, NoMemory>
    ensures { IfOk result (λ rule. rule ≡ allowing line tag (like_at 0 pattern.now ∷ reads_at 1 ∷ [])) }
{
    let name = like_at(0, pattern)?;
    Ok(allowing(line, tag, vec![in alloc; name, reads_at(1)]?))
}

// The rule that allows to give a file that matches the pattern another such name.
fn renaming(alloc: Global, line: u32, pattern: &Pattern) -> Result<Rule, NoMemory>
    ensures { IfOk result (λ rule. rule ≡ allowing line FileRename (like_at 0 pattern.now ∷ like_at 1 pattern.now ∷ [])) }
{
    let name = like_at(0, pattern)?;
    let to = like_at(1, pattern)?;
    Ok(allowing(line, CallTag::FileRename, vec![in alloc; name, to]?))
}

// The rule that allows `file.create` to open a file that is there, if the access only reads.
fn opening(alloc: Global, line: u32, pattern: &Pattern) -> Result<Rule, NoMemory>
    ensures { IfOk result (λ rule. rule ≡ allowing line FileCreate (like_at 0 pattern.now ∷ reads_at 2 ∷ opens_at 4 ∷ [])) }
{
    let name = like_at(0, pattern)?;
    let opens = opens_at(alloc, 4)?;
    Ok(allowing(
        line,
        CallTag::FileCreate,
        vec![in alloc; name, reads_at(2), opens]?,
    ))
}

/// One rule.
pub(crate) fn one(alloc: Global, rule: Rule) -> Result<Rules, NoMemory>
    ensures { IfOk result (λ rules. rules ≡ rule ∷ []) }
{
    Ok(Rules::new(vec![in alloc; rule]?))
}

// The rules that allow two calls if their names match the pattern.
fn both(
    alloc: Global,
    line: u32,
    first: CallTag,
    second: CallTag,
    pattern: &Pattern,
) -> Result<Rules, NoMemory>
    ensures { IfOk result (λ rules. rules ≡ allowing line first (like_at 0 pattern.now ∷ []) ∷ allowing line second (like_at 0 pattern.now ∷ []) ∷ []) }
{
    let first_rule = named(alloc, line, first, pattern)?;
    let second_rule = named(alloc, line, second, pattern)?;
    Ok(Rules::new(vec![in alloc; first_rule, second_rule]?))
}

fn files_any(alloc: Global, line: u32, pattern: &Pattern) -> Result<Rules, NoMemory>
    ensures { IfOk result (λ rules. rules ≡ rules_of line FilesAny pattern.now) }
{
    let create = named(alloc, line, CallTag::FileCreate, pattern)?;
    let open = named(alloc, line, CallTag::FileOpen, pattern)?;
    let query = named(alloc, line, CallTag::FileQuery, pattern)?;
    let rename = renaming(alloc, line, pattern)?;
    Ok(Rules::new(vec![in alloc; create, open, query, rename]?))
}

fn files_readonly(alloc: Global, line: u32, pattern: &Pattern) -> Result<Rules, NoMemory>
    ensures { IfOk result (λ rules. rules ≡ rules_of line FilesReadonly pattern.now) }
{
    let open = reading(alloc, line, CallTag::FileOpen, pattern)?;
    let create = opening(alloc, line, pattern)?;
    let query = named(alloc, line, CallTag::FileQuery, pattern)?;
    Ok(Rules::new(vec![in alloc; open, create, query]?))
}

/// The rules of a grant on a line, for a pattern.
pub(crate) fn rules_of(
    alloc: Global,
    line: u32,
    grant: Grant,
    pattern: &Pattern,
) -> Result<Rules, NoMemory>
    ensures { IfOk result (λ rules. rules ≡ rules_of line grant pattern.now) }
{
    match grant {
        Grant::FilesAny => files_any(alloc, line, pattern),
        Grant::FilesReadonly => files_readonly(alloc, line, pattern),
        Grant::FilesQuery => one(alloc, named(alloc, line, CallTag::FileQuery, pattern)?),
        Grant::PipesAny => one(alloc, named(alloc, line, CallTag::PipeCreate, pattern)?),
        Grant::RegistryAny => both(alloc, line, CallTag::KeyCreate, CallTag::KeyOpen, pattern),
        Grant::RegistryReadonly => one(alloc, reading(alloc, line, CallTag::KeyOpen, pattern)?),
        Grant::EventsAny => both(
            alloc,
            line,
            CallTag::EventCreate,
            CallTag::EventOpen,
            pattern,
        ),
        Grant::EventsReadonly => one(alloc, reading(alloc, line, CallTag::EventOpen, pattern)?),
    }
}
