// What is noted of a pattern on names.
ghost use Rattle.std.specs.Prelude.{◌≡◌, IfOk};
ghost use Rattle.sb_ruletext.specs.NoteKinds.{begins_with_prefix, may_begin_name, kind_of};
ghost use Rattle.sb_text.specs.Tokens.{string_of};

use sb_base::{BACKSLASH, NoMemory, QUESTION, STAR};
use sb_text::string_of;
use std::alloc::Global;

/// What is noted of a pattern on names.
#[derive(Clone, Copy)]
pub enum NoteKind {
    /// It begins with `\??\`, in which each `?` is any unit. The prefix itself is written `\/?/?\`.
    UnescapedPrefix,
    /// It begins with neither `\`, `*` nor `?`, and each name begins with `\`.
    MatchesNoName,
}

// Whether the units begin with `\??\`.
fn begins_with_prefix(units: &[u16]) -> bool
    ensures { result ≡ begins_with_prefix units.now }
{
    matches!(units, [BACKSLASH, QUESTION, QUESTION, BACKSLASH, ..])
}

// Whether what these units begin with matches a `\`.
fn may_begin_name(units: &[u16]) -> bool
    ensures { result ≡ may_begin_name units.now }
{
    matches!(units, [BACKSLASH | STAR | QUESTION, ..])
}

// What is noted of the pattern of these units.
fn kind_of(units: &[u16]) -> Option<NoteKind>
    ensures { result ≡ kind_of units.now }
{
    if begins_with_prefix(units) {
        Some(NoteKind::UnescapedPrefix)
    } else if may_begin_name(units) {
        None
    } else {
        Some(NoteKind::MatchesNoName)
    }
}

/// What is noted of the pattern between quotes.
///
/// # Errors
/// `NoMemory` if there was none for its units.
pub(crate) fn kind_of_quoted(alloc: Global, quoted: &str) -> Result<Option<NoteKind>, NoMemory>
    ensures { IfOk result (λ kind. kind ≡ kind_of (string_of quoted.now)) }
{
    let pattern = string_of(alloc, quoted)?;
    Ok(kind_of(pattern.as_units()))
}
