// Reading script texts.
ghost use Rattle.std.specs.Prelude.{◌≡◌, ◌+◌, ◌<◌, ◌^◌, length, IfOk};
ghost use Rattle.sb_kernel.specs.Openings.{opening};
ghost use Rattle.sb_scripttext.specs.Drafts.{nothing};
ghost use Rattle.sb_scripttext.specs.ScriptTexts.{grammar, absence, first_number, with_number, absence_on, first_absence, finished, reading};
ghost use Rattle.sb_text.specs.MissingTexts.{line_or_empty};
ghost use Rattle.sb_scripttext.specs.declared.faults.ScriptKind.TheVariants.{UnknownWord};
ghost use Rattle.sb_base.specs.Refusals.{GivesAs};
ghost use Rattle.sb_text.specs.Tokens.{by_tokens};
ghost use Rattle.sb_text.specs.declared.refusals.WordFault.TheVariants.{NoVersion};

use crate::drafts::{Draft, Named};
use crate::faults::{LineRefused, ScriptFault, ScriptKind, ScriptRefused};
use crate::laws::read_scripts_are_ready;
use crate::lines::line_of;
use sb_book::{OpenedScript, ReadyScript};
use sb_kernel::Kernel;
use sb_rule::{Policy, WellMadePolicies};
use sb_statements::{Script, SoundScript, TargetScript};
use sb_text::{
    Layout, Line, Lines, TextGrammar, TokenFault, WordFault, Words, column_at, line_or_empty,
    number_of, read_text, version_at,
};
use std::alloc::Global;

// Script texts, for targets of these policies.
#[derive(Drop)]
struct ScriptGrammar<'a> {
    alloc: Global,
    policies: &'a [Policy],
}

impl<'a, 'b> TextGrammar<Lines<'b>> for ScriptGrammar<'a> {
    type Draft = Draft;

    type Kind = ScriptKind;

    ghost grammar = { λ texts. grammar texts.policies.now };

    fn layout(&self) -> Layout
        ensures { result ≡ by_tokens }
    {
        Layout::Text
    }

    fn version(&self, line: &Line<'b>) -> Result<u32, LineRefused> {
        version_at(
            ScriptKind::UnknownWord(WordFault::NoVersion),
            b"sandbox-script",
            1,
            &line.tokens(),
        )
    }

    fn no_version(&self) -> ScriptKind
        ensures { result ≡ UnknownWord NoVersion }
    {
        ScriptKind::UnknownWord(WordFault::NoVersion)
    }

    fn start(&self) -> Draft
        ensures { result ≡ nothing }
    {
        Draft::new(self.alloc)
    }

    fn add(&self, _version: u32, draft: &mut Draft, line: &Line<'b>) -> Result<(), LineRefused> {
        line_of(self.alloc, self.policies, draft, line)
    }
}

// Whether the target that a statement names is not there, or its channel.
fn absence(targets: &[TargetScript], named: &Named) -> Option<TokenFault<ScriptKind>>
    ensures { result ≡ absence targets.now named.now }
{
    match targets.get(named.target as usize) {
        None => Some(TokenFault {
            place: named.at.target,
            kind: ScriptKind::NoSuchTarget {
                target: u64::from(named.target),
                targets: targets.len(),
            },
        }),
        Some(target) if named.channel >= target.channels => Some(TokenFault {
            place: named.at.channel,
            kind: ScriptKind::NoSuchChannel {
                channel: u64::from(named.channel),
                target: named.target,
                channels: target.channels,
            },
        }),
        Some(_) => None,
    }
}

// The number that the first of these words is, or this one if it is none.
fn first_number(words: &Words, other: u64) -> u64
    ensures { result ≡ first_number words.now other }
{
    match words.copy().next_word() {
        Some(word) => number_of(word).unwrap_or(other),
        None => other,
    }
}

// The kind of a fault with the number that these words begin with, which may have more than 32 bits.
fn with_number(words: &Words, kind: ScriptKind) -> ScriptKind
    ensures { result ≡ with_number words.now kind }
{
    match kind {
        ScriptKind::NoSuchTarget { target, targets } => ScriptKind::NoSuchTarget {
            target: first_number(words, target),
            targets,
        },
        ScriptKind::NoSuchChannel {
            channel,
            target,
            channels,
        } => ScriptKind::NoSuchChannel {
            channel: first_number(words, channel),
            target,
            channels,
        },
        kind => kind,
    }
}

// What is not there, as a fault on the line of this number in a text.
fn absence_at(text: &[u8], number: u32, fault: TokenFault<ScriptKind>) -> ScriptFault
    requires { length text.now + 1 < 2 ^ 32 }
    ensures { result ≡ absence_on number fault (line_or_empty number text.now) }
{
    let line = line_or_empty(number, text);
    let rest = &line[line.len().saturating_sub(fault.place)..];
    ScriptFault {
        line: number,
        column: column_at(Layout::Text, line, fault.place),
        kind: with_number(&Words::new(rest), fault.kind),
    }
}

// The first of these that names what is not there.
fn first_absence(targets: &[TargetScript], named: &[Named]) -> Option<(u32, TokenFault<ScriptKind>)>
    ensures { result ≡ first_absence targets.now named.now }
{
    for word in named {
        if let Some(fault) = absence(targets, word) {
            return Some((word.at.line, fault));
        }
    }
    None
}

// The script that was read, with the kernel in which its opening lines are placed, if all is there that its statements name.
fn finished(text: &[u8], draft: Draft) -> Result<(Script, Kernel), ScriptRefused>
    requires { length text.now + 1 < 2 ^ 32 }
    ensures exactly { GivesAs (λ read. read.0) (finished text.now draft) result }
    ensures kernel { IfOk result (λ read. read.1 ≡ opening read.0.start) }
{
    let (script, kernel, named) = draft.into_script();
    match first_absence(script.targets.as_slice(), named.as_slice()) {
        Some((line, fault)) => Err(ScriptRefused::Fault(absence_at(text, line, fault))),
        None => Ok((script, kernel)),
    }
}

// What was read of a text. Its strings, numbers and names are those of a script that is ready.
fn read_parts(
    alloc: Global,
    text: &[u8],
    policies: &[Policy],
) -> Result<(Script, Kernel), ScriptRefused>
    requires short { length text.now + 1 < 2 ^ 32 }
    ensures exactly { GivesAs (λ read. read.0) (reading policies.now text.now) result }
    ensures kernel { IfOk result (λ read. read.1 ≡ opening read.0.start) }
{
    let grammar = ScriptGrammar { alloc, policies };
    let draft = read_text(&grammar, ScriptKind::NotUtf8, text)?;
    finished(text, draft)
}

/// The script of a text, for targets of these policies, or its first fault. The text has fewer than 2^32 - 1 bytes. The script
/// is ready for the policies, and comes with the namespace in which its opening lines were placed.
///
/// The grammar of script texts is that of this project.
///
/// # Errors
/// `Fault` exactly if the text has a fault: the first one, with its line and column, by lines from the top and within a line from the left, except
/// for these. A text that is not UTF-8 has this fault before all others. Within a line it comes after the line's other
/// faults that an opening line cannot be placed, that a call does not fit a block or that the loads of a `wait` are out of
/// their range, and after these that a limit is passed. A target or channel which a statement names and which is not there
/// comes after all other faults of the text. `NoMemory` if there was none for the script.
#[tactic(auto, using(crate::proofs::Keeping::read_is_ready, crate::proofs::Keeping::read_is_sound))]
pub fn read_script(
    alloc: Global,
    text: &[u8],
    policies: WellMadePolicies,
) -> Result<OpenedScript, ScriptRefused>
    requires short { length text.now + 1 < 2 ^ 32 }
    ensures exactly { GivesAs (λ opened. opened.script) (reading policies.list text.now) result }
    ensures policies { IfOk result (λ opened. opened.policies ≡ policies.list) }
{
    read_scripts_are_ready();
    let (script, kernel) = read_parts(alloc, text, policies.policies().list.as_slice())?;
    let ready = ReadyScript::of(policies, SoundScript::of(script));
    Ok(OpenedScript::of(ready, kernel))
}
