// The message of an audit that finds a line that refutes its transcript.
ghost use Rattle.std.specs.Prelude.{◌≡◌, ◌++◌, ◌∷◌, [], option_map, OnOk, IfOk, string_bytes};
ghost use Rattle.sb_glyphs.specs.Excerpts.{excerpt};
ghost use Rattle.sb_glyphs.specs.Glyphs.{glyphs_of};
ghost use Rattle.sb_message.specs.Causes.{two_text};
ghost use Rattle.sb_message.specs.DueTexts.{clause_words, due_text};
ghost use Rattle.sb_message.specs.AuditMessages.{audit_first_line, audit_line, audit_message};

use crate::causes::put_two;
use crate::due_texts::{clause_words, put_due};
use crate::messages::put_place_line;
use sb_audit::{Due, Refuted};
use sb_base::NoMemory;
use sb_glyphs::{MAX_NEAR, first_glyphs_of, put_excerpt};
use std::alloc::Global;

// Appends the words of a clause, and what is due.
fn put_clause(
    out: &mut String,
    between: &str,
    due: Due,
    shown: Option<&[u8]>,
) -> Result<(), NoMemory>
    ensures { OnOk result (string_bytes out.new ≡ string_bytes out.old ++ between.now ++ clause_words due (option_map (λ bytes. bytes.now) shown.entry)
        ++ between.now ++ due_text due ++ 10 ∷ []) }
{
    out.push_str(between)?;
    out.push_str(clause_words(due, shown))?;
    out.push_str(between)?;
    put_due(out, due)?;
    out.push('\n')?;
    Ok(())
}

// Appends a line and a clause after these words, and then the words of the clause and what is due, with `between` before each.
fn put_refuted(
    out: &mut String,
    before: &str,
    middle: &str,
    between: &str,
    refuted: Refuted,
    shown: Option<&[u8]>,
) -> Result<(), NoMemory>
    ensures { OnOk result (string_bytes out.new ≡ string_bytes out.old ++ (two_text before.now refuted.line middle.now refuted.clause
        ++ between.now ++ clause_words refuted.due (option_map (λ bytes. bytes.now) shown.entry) ++ between.now ++ due_text refuted.due ++ 10 ∷ [])) }
{
    put_two(
        out,
        before,
        u64::from(refuted.line),
        middle,
        u64::from(refuted.clause),
    )?;
    put_clause(out, between, refuted.due, shown)
}

// Appends the first line.
fn put_audit_first_line(
    out: &mut String,
    refuted: Refuted,
    shown: Option<&[u8]>,
) -> Result<(), NoMemory>
    ensures { OnOk result (string_bytes out.new ≡ string_bytes out.old ++ audit_first_line refuted (option_map (λ bytes. bytes.now) shown.entry)) }
{
    put_refuted(
        out,
        "sandbox: audit line ",
        " clause ",
        ": ",
        refuted,
        shown,
    )
}

// Appends what is shown of the beginning of a line.
#[tactic(auto, using(crate::proofs::Near::front_near))]
fn put_front(out: &mut String, line: &[u8]) -> Result<(), NoMemory>
    ensures { OnOk result (string_bytes out.new ≡ string_bytes out.old ++ excerpt 0 (glyphs_of line.now)) }
{
    let near = first_glyphs_of(*out.allocator(), line, MAX_NEAR)?;
    put_excerpt(out, false, 0, &near)
}

// The same with a line feed.
fn put_front_line(out: &mut String, line: &[u8]) -> Result<(), NoMemory>
    ensures { OnOk result (string_bytes out.new ≡ string_bytes out.old ++ excerpt 0 (glyphs_of line.now) ++ 10 ∷ []) }
{
    put_front(out, line)?;
    out.push('\n')?;
    Ok(())
}

// Appends what is shown of the line, if there is one.
fn put_audit_line(out: &mut String, shown: Option<&[u8]>) -> Result<(), NoMemory>
    ensures { OnOk result (string_bytes out.new ≡ string_bytes out.old ++ audit_line (option_map (λ bytes. bytes.now) shown.entry)) }
{
    match shown {
        Some(line) => put_front_line(out, line),
        None => Ok(()),
    }
}

/// The message of a transcript that an audit refutes: at which line of the file, whose name is as the user gave it, which clause fails; what is wrong
/// and what is due there, in words; and the line. `shown` is that line without its line feed, and None if the transcript ends before it.
///
/// # Errors
/// `NoMemory` if there was none for the message.
pub fn audit_message(
    alloc: Global,
    file: &[u8],
    refuted: Refuted,
    shown: Option<&[u8]>,
) -> Result<String, NoMemory>
    ensures { IfOk result (λ message. string_bytes message ≡ audit_message file.now refuted (option_map (λ bytes. bytes.now) shown.entry)) }
{
    let mut message = String::new(alloc);
    put_audit_first_line(&mut message, refuted, shown)?;
    put_place_line(&mut message, file, refuted.line, 0)?;
    put_audit_line(&mut message, shown)?;
    Ok(message)
}
