// Reading policy texts.
ghost use Rattle.std.specs.Prelude.{◌≡◌, ◌+◌, ◌<◌, ◌^◌, [], length, IfOk};
ghost use Rattle.sb_ruletext.specs.Notes.{notes_of};
ghost use Rattle.sb_ruletext.specs.PolicyTexts.{grammar, reading};
ghost use Rattle.sb_ruletext.specs.declared.faults.PolicyFaultKind.TheVariants.{BadVersion};
ghost use Rattle.sb_base.specs.Refusals.{GivesAs};
ghost use Rattle.sb_text.specs.Tokens.{by_tokens};

use crate::faults::{LineRefused, PolicyFaultKind, TextRefused};
use crate::laws::read_policies_are_well_made;
use crate::lines::line_of;
use crate::notes::{Note, read_notes};
use sb_rule::{Policies, PolicyList, WellMadePolicies};
use sb_text::{Layout, Line, Lines, TextGrammar, read_text, version_at};
use std::alloc::Global;

// Policy texts.
#[derive(Drop)]
struct PolicyGrammar {
    alloc: Global,
}

impl<'b> TextGrammar<Lines<'b>> for PolicyGrammar {
    type Draft = PolicyList;

    type Kind = PolicyFaultKind;

    ghost grammar = { λ texts. grammar };

    fn layout(&self) -> Layout
        ensures { result ≡ by_tokens }
    {
        Layout::Text
    }

    fn version(&self, line: &Line<'b>) -> Result<u32, LineRefused> {
        version_at(
            PolicyFaultKind::BadVersion,
            b"sandbox-policy",
            2,
            &line.tokens(),
        )
    }

    fn no_version(&self) -> PolicyFaultKind
        ensures { result ≡ BadVersion }
    {
        PolicyFaultKind::BadVersion
    }

    fn start(&self) -> PolicyList
        ensures { result ≡ [] }
    {
        PolicyList::empty(self.alloc)
    }

    fn add(
        &self,
        version: u32,
        draft: &mut PolicyList,
        line: &Line<'b>,
    ) -> Result<(), LineRefused> {
        line_of(self.alloc, version, draft, line)
    }
}

/// The policies of a text, which are well made, or its first fault. The text has fewer than 2^32 - 1 bytes.
///
/// The grammar of policy texts is that of this project; the grants and the mask of access bits that they refuse to readers
/// follow Chromium's low-level policy engine for Windows.
///
/// # Errors
/// `Fault` exactly if the text has a fault: the first one, by lines from the top and within a line from the left, with its line and its
/// column; a text that is not UTF-8 has this fault before all others. `NoMemory` if there was none for the policies.
pub fn read_policies(alloc: Global, text: &[u8]) -> Result<WellMadePolicies, TextRefused>
    requires { length text.now + 1 < 2 ^ 32 }
    ensures { GivesAs (λ policies. policies.list) (reading text.now) result }
{
    read_policies_are_well_made();
    let list = read_text(&PolicyGrammar { alloc }, PolicyFaultKind::NotUtf8, text)?;
    Ok(WellMadePolicies::of(Policies { list }))
}

/// The policies of a text, which are well made, with the notes of the text; or its first fault. The text has fewer than 2^32 - 1 bytes.
///
/// # Errors
/// As `read_policies`; and `NoMemory` also if there was none for the notes.
pub fn read_noted_policies(
    alloc: Global,
    text: &[u8],
) -> Result<(WellMadePolicies, Vec<Note>), TextRefused>
    requires { length text.now + 1 < 2 ^ 32 }
    ensures policies { GivesAs (λ r. r.0.list) (reading text.now) result }
    ensures notes { IfOk result (λ r. r.1.items ≡ notes_of text.now) }
{
    let policies = read_policies(alloc, text)?;
    let notes = read_notes(alloc, text)?;
    Ok((policies, notes))
}
