// The command `audit`: a transcript is audited under policies and a script, and what the audit answers is put.
ghost use Rattle.std.specs.Prelude.{◌≡◌, ◌<◌, ◌+◌, ◌^◌, ◌⊎◌, length, MatchOption, None, Some, IfErr, IfOk};
ghost use Rattle.sb_audit.specs.Audited.{audited};
ghost use Rattle.sb_plain.specs.Audit.{audited_end, raw_line, refuted_at, yes_line};
ghost use Rattle.sb_plain.specs.Readings.{GivesEnd, IsOfText};
ghost use Rattle.sb_plain.specs.Contents.{refused};

use crate::driver::LaterFile;
use crate::ends::CommandEnd;
use crate::file_texts::FileText;
use crate::refusals::Refused;
use sb_audit::{AuditAnswer, Refuted, audit};
use sb_base::NoMemory;
use sb_book::{OpenedScript, ReadyScript};
use sb_compile::Programs;
use sb_message::{Refusal, TextFault};
use sb_statements::SoundScript;
use sb_text::{RawLines, TextPart};
use std::alloc::Global;

/// The most bytes that a transcript may have.
const MAX_TRANSCRIPT_BYTES: u64 = 536_870_912;

// The line of this number, from 1, as it is between LFs.
fn raw_line(number: u32, text: &[u8]) -> Option<&[u8]>
    requires { length text.now < 2 ^ 32 }
    ensures { MatchOption result (raw_line number text.now ≡ None) (λ line. raw_line number text.now ≡ Some line.now) }
{
    let mut lines = RawLines::new(text);
    let mut before = number.saturating_sub(1);
    while let Some(line) = lines.next_line() {
        if before == 0 {
            return Some(line.bytes);
        }
        before -= 1;
    }
    None
}

// The refusal of a transcript that is refuted, with the line at which it is.
fn refuted_at(alloc: Global, refuted: Refuted, text: FileText) -> Refused
    ensures refusal { (result ≡ refuted_at refuted text) ⊎ (result ≡ refused Refusal.NoMemory) }
    ensures of_text { IsOfText result.why }
{
    let shown = match raw_line(refuted.line, text.bytes()) {
        Some(line) => match Vec::from_slice(alloc, line) {
            Ok(line) => Some(TextPart::whole(line)),
            Err(_) => return Refused::new(Refusal::NoMemory),
        },
        None => None,
    };
    text.refused_with(TextFault::Transcript(refuted), shown)
}

// `audit yes entries E results S`, with its LF.
fn yes_line(alloc: Global, entries: u64, results: u64) -> Result<Vec<u8>, NoMemory>
    ensures { IfOk result (λ line. line.items ≡ yes_line entries results) }
{
    let line = format!(in alloc; "audit yes entries {entries} results {results}\n")?;
    Ok(line.into_bytes())
}

// The answer to a transcript under the policies of a script, whose programs judge it.
fn audited(alloc: Global, ready: &ReadyScript, text: &[u8]) -> Result<AuditAnswer, NoMemory>
    requires { length text.now + 1 < 2 ^ 32 }
    ensures { IfOk result (λ answer. answer ≡ audited ready.now.policies ready.now.script text.now) }
{
    let judge = Programs::new(alloc, ready.policies(), ready.script())?;
    audit(alloc, &judge, ready, text)
}

/// The file after the script is a transcript of at most 536,870,912 bytes.
pub struct TranscriptFile;

impl LaterFile for TranscriptFile {
    type Value = FileText;

    ghost use Rattle.std.specs.Prelude.{⊤, Ok};
    ghost use Rattle.sb_plain.specs.Audit.{most_transcript_bytes};
    ghost use Rattle.sb_plain.specs.ScriptEnds.{is_named, needed};

    ghost most = { λ _. most_transcript_bytes };

    ghost reads = { λ _ script. needed Ok };

    ghost named = { λ _. is_named };

    ghost suits = { λ _ script text. ⊤ };

    fn most_bytes(&self) -> u64 {
        MAX_TRANSCRIPT_BYTES
    }

    fn read(
        &self,
        _alloc: Global,
        _script: &SoundScript,
        text: Option<FileText>,
    ) -> Result<FileText, Refused> {
        match text {
            Some(text) => Ok(text),
            None => Err(Refused::missing(3)),
        }
    }
}

/// The command `audit`: a transcript is audited under policies and a script. If no clause fails, a line is put that tells its numbers of entries and results.
///
/// # Errors
/// The transcript is refused at the first line at which a clause fails; or `NoMemory`.
pub fn audit_text(
    alloc: Global,
    opened: OpenedScript,
    text: FileText,
) -> Result<CommandEnd, Refused>
    ensures given { GivesEnd (audited_end opened.policies opened.script text) result }
    ensures refused { IfErr result (λ refusal. IsOfText refusal.why) }
{
    let (ready, _) = opened.into_parts();
    match audited(alloc, &ready, text.bytes())? {
        AuditAnswer::Yes { entries, results } => {
            let line = yes_line(alloc, entries, results)?;
            Ok(CommandEnd::with_text(alloc, line)?)
        }
        AuditAnswer::No(refuted) => Err(refuted_at(alloc, refuted, text)),
    }
}
