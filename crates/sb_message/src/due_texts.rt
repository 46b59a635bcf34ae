// What was due at a line of a transcript at which a clause of the audit fails, in words.
ghost use Rattle.std.specs.Prelude.{◌≡◌, ◌++◌, [], OnOk, option_map, string_bytes};
ghost use Rattle.sb_audit.specs.declared.dues.OwnDue.TheVariants.{Decision, Later};
ghost use Rattle.sb_audit.specs.declared.dues.ReplyDue.TheVariants.{Whole};
ghost use Rattle.sb_audit.specs.declared.dues.RuleDue.TheVariants.{RuleOn};
ghost use Rattle.sb_call.specs.CallWords.{call_word};
ghost use Rattle.sb_base.specs.Numbers.{hexadecimal};
ghost use Rattle.sb_message.specs.DueTexts.{clause_words, due_text, entry_text, form_text, form_words, number_text, own_text, place_text, reply_text, result_text, rule_text, spot_text, status_text, totals_text, verdict_text};

use crate::causes::{put_two, put_words};
use sb_audit::{Due, FormDue, OwnDue, PlaceDue, ReplyDue, ResultDue, RuleDue, Spot};
use sb_base::NoMemory;
use sb_call::{CallTag, call_word};
use sb_glyphs::{put_decimal_text, put_hexadecimal_text};
use sb_rule::{Action, Verdict};
use sb_transcript::TotalsLine;

fn form_words(shown: Option<&[u8]>) -> &'static str
    ensures { result.now ≡ form_words (option_map (λ bytes. bytes.now) shown.entry) }
{
    match shown {
        Some(_) => "the line is not one that is due here",
        None => "the transcript ends where a line is due",
    }
}

/// What is wrong with a line that fails the clause by which this is due. `shown` is None if the transcript ends before it.
pub(crate) fn clause_words(due: Due, shown: Option<&[u8]>) -> &'static str
    ensures { result.now ≡ clause_words due (option_map (λ bytes. bytes.now) shown.entry) }
{
    match due {
        Due::Form(_) => form_words(shown),
        Due::Place(PlaceDue::Target { .. }) => "no such target",
        Due::Place(PlaceDue::Channel { .. }) => "no such channel",
        Due::Rule(_) => "the rule that is shown does not decide this call",
        Due::Reply(_) => "the reply is not the one that this call gets",
        Due::Own(_) => "no later call of the target with this mark is decided in this way",
        Due::Result(_) => "the result is not one that the statement can have",
        Due::Totals(_) => "the totals are not those of the lines",
    }
}

// Appends words around a number.
fn put_number(out: &mut String, before: &str, number: u64, after: &str) -> Result<(), NoMemory>
    ensures { OnOk result (string_bytes out.new ≡ string_bytes out.old ++ number_text before.now number after.now) }
{
    out.push_str(before)?;
    put_decimal_text(out, number)?;
    out.push_str(after)?;
    Ok(())
}

// Appends words and then a number of 32 bits.
fn put_last_number(out: &mut String, before: &str, number: u32) -> Result<(), NoMemory>
    ensures { OnOk result (string_bytes out.new ≡ string_bytes out.old ++ number_text before.now number []) }
{
    put_number(out, before, u64::from(number), "")
}

// Appends words and then a number in hexadecimal.
fn put_bits(out: &mut String, before: &str, bits: u64) -> Result<(), NoMemory>
    ensures { OnOk result (string_bytes out.new ≡ string_bytes out.old ++ (before.now ++ hexadecimal bits)) }
{
    out.push_str(before)?;
    put_hexadecimal_text(out, bits)
}

// Appends the next entry, if it may follow.
fn put_entry(out: &mut String, entry: Option<u64>) -> Result<(), NoMemory>
    ensures { OnOk result (string_bytes out.new ≡ string_bytes out.old ++ entry_text entry) }
{
    match entry {
        Some(number) => put_number(out, "entry ", number, " or "),
        None => Ok(()),
    }
}

// Appends the result of a statement, or the totals.
fn put_spot(out: &mut String, spot: Option<Spot>) -> Result<(), NoMemory>
    ensures { OnOk result (string_bytes out.new ≡ string_bytes out.old ++ spot_text spot) }
{
    let Some(spot) = spot else {
        out.push_str("the totals are due")?;
        return Ok(());
    };
    put_two(
        out,
        "the result of target ",
        spot.target as u64,
        " thread ",
        spot.thread as u64,
    )?;
    put_number(out, " place ", spot.place as u64, " is due")
}

fn put_form(out: &mut String, due: FormDue) -> Result<(), NoMemory>
    ensures { OnOk result (string_bytes out.new ≡ string_bytes out.old ++ form_text due) }
{
    match due {
        FormDue::LineFeed => put_words(out, "a line feed at its end is due"),
        FormDue::Line { entry, result } => {
            put_entry(out, entry)?;
            put_spot(out, result)
        }
        FormDue::End => put_words(out, "nothing is due after the totals"),
    }
}

fn put_place(out: &mut String, due: PlaceDue) -> Result<(), NoMemory>
    ensures { OnOk result (string_bytes out.new ≡ string_bytes out.old ++ place_text due) }
{
    match due {
        PlaceDue::Target { targets } => {
            put_number(out, "the script has ", u64::from(targets), "")
        }
        PlaceDue::Channel { channels } => {
            put_number(out, "the target has ", u64::from(channels), "")
        }
    }
}

// Appends what a policy says of a call.
fn put_verdict(out: &mut String, verdict: Verdict) -> Result<(), NoMemory>
    ensures { OnOk result (string_bytes out.new ≡ string_bytes out.old ++ verdict_text verdict) }
{
    match verdict {
        Verdict::NoRule => Ok(out.push_str("no rule of the policy matches it")?),
        Verdict::Rule { line, action } => {
            put_number(
                out,
                "the policy decides it by the rule on line ",
                u64::from(line),
                ": ",
            )?;
            Ok(out.push_str(action.word())?)
        }
    }
}

// Appends that a policy has no rule on a line with an action.
fn put_no_rule(out: &mut String, line: u32, action: Action) -> Result<(), NoMemory>
    ensures { OnOk result (string_bytes out.new ≡ string_bytes out.old ++ rule_text (RuleOn line action)) }
{
    out.push_str("the policy has no ")?;
    out.push_str(action.word())?;
    put_number(out, " rule for it on line ", u64::from(line), "")
}

fn put_rule(out: &mut String, due: RuleDue) -> Result<(), NoMemory>
    ensures { OnOk result (string_bytes out.new ≡ string_bytes out.old ++ rule_text due) }
{
    match due {
        RuleDue::FittingArgs => put_words(out, "its arguments do not fit it"),
        RuleDue::Decided(verdict) => put_verdict(out, verdict),
        RuleDue::RuleOn { line, action } => put_no_rule(out, line, action),
        RuleDue::Without { bits } => {
            put_bits(out, "its access has bits that do more than read: 0x", bits)
        }
    }
}

// Appends a number after words, and then another in hexadecimal.
fn put_number_and_bits(
    out: &mut String,
    before: &str,
    number: u64,
    between: &str,
    bits: u64,
) -> Result<(), NoMemory>
    ensures { OnOk result (string_bytes out.new ≡ string_bytes out.old ++ (number_text before.now number between.now ++ hexadecimal bits)) }
{
    put_number(out, before, number, between)?;
    put_hexadecimal_text(out, bits)
}

// Appends the outcome and the status of a reply.
fn put_status(out: &mut String, outcome: u64, status: u64) -> Result<(), NoMemory>
    ensures { OnOk result (string_bytes out.new ≡ string_bytes out.old ++ status_text outcome status) }
{
    put_number_and_bits(out, "outcome ", outcome, ", status 0x", status)
}

// Appends the parts of a reply.
fn put_whole_reply(
    out: &mut String,
    outcome: u64,
    status: u64,
    handle: u64,
    words: usize,
) -> Result<(), NoMemory>
    ensures { OnOk result (string_bytes out.new ≡ string_bytes out.old ++ reply_text (Whole outcome status handle words)) }
{
    put_status(out, outcome, status)?;
    put_two(out, ", handle ", handle, ", extended words: ", words as u64)
}

fn put_reply(out: &mut String, due: ReplyDue) -> Result<(), NoMemory>
    ensures { OnOk result (string_bytes out.new ≡ string_bytes out.old ++ reply_text due) }
{
    match due {
        ReplyDue::Whole {
            outcome,
            status,
            handle,
            words,
        } => put_whole_reply(out, outcome, status, handle, words),
        ReplyDue::Word { at, value } => {
            put_two(out, "its extended word ", at as u64, " is ", value)
        }
    }
}

// Appends words around those of a call, and then what a policy says of it.
fn put_judged(
    out: &mut String,
    before: &str,
    tag: CallTag,
    between: &str,
    verdict: Verdict,
) -> Result<(), NoMemory>
    ensures { OnOk result (string_bytes out.new ≡ string_bytes out.old ++ (before.now ++ call_word tag ++ between.now ++ verdict_text verdict)) }
{
    out.push_str(before)?;
    out.push_str(call_word(tag))?;
    out.push_str(between)?;
    put_verdict(out, verdict)
}

// Appends a call and what a policy says of it.
fn put_decision(out: &mut String, tag: CallTag, verdict: Verdict) -> Result<(), NoMemory>
    ensures { OnOk result (string_bytes out.new ≡ string_bytes out.old ++ own_text (Decision tag verdict)) }
{
    put_judged(
        out,
        "the call is ",
        tag,
        " with the arguments of the script, and ",
        verdict,
    )
}

// Appends that a call of a thread, or a later one, has its entry.
fn put_later(out: &mut String, thread: u64, place: u64) -> Result<(), NoMemory>
    ensures { OnOk result (string_bytes out.new ≡ string_bytes out.old ++ own_text (Later thread place)) }
{
    put_two(
        out,
        "an earlier entry is that of the call of thread ",
        thread,
        " at place ",
        place,
    )?;
    Ok(out.push_str(" or of a later one")?)
}

fn put_own(out: &mut String, due: OwnDue) -> Result<(), NoMemory>
    ensures { OnOk result (string_bytes out.new ≡ string_bytes out.old ++ own_text due) }
{
    match due {
        OwnDue::CallMark => Ok(out.push_str("the mark is not that of a call")?),
        OwnDue::Decision { tag, verdict } => put_decision(out, tag, verdict),
        OwnDue::Later { thread, place } => put_later(out, thread, place),
    }
}

fn put_result(out: &mut String, due: ResultDue) -> Result<(), NoMemory>
    ensures { OnOk result (string_bytes out.new ≡ string_bytes out.old ++ result_text due) }
{
    match due {
        ResultDue::Statement => put_words(out, "there is none at this place"),
        ResultDue::ReplyOf { mark } => {
            put_number(out, "the reply of the entry with mark ", mark, " is due")
        }
        ResultDue::Entry { channel, mark } => put_two(
            out,
            "no entry on channel ",
            u64::from(channel),
            ", which is clean, has mark ",
            mark,
        ),
        ResultDue::Channel => put_words(out, "a clean channel of the target is free for it"),
        ResultDue::CleanReply { channel } => put_number(
            out,
            "a reply is due on channel ",
            u64::from(channel),
            ", which is clean",
        ),
        ResultDue::OtherState => {
            put_words(out, "a send is lost only if its channel is not found busy")
        }
        ResultDue::OtherMark { mark } => {
            put_number(
                out,
                "the mark of a foreign reply is not the call's own, ",
                mark,
                "",
            )
        }
        ResultDue::OfCall => put_words(out, "it is a call"),
        ResultDue::OfStore => put_words(out, "it is a store"),
        ResultDue::OfLoad => put_words(out, "it is an exchange or a load"),
        ResultDue::OfWait { most } => {
            put_last_number(out, "it is a wait whose limit of loads is ", most)
        }
    }
}

fn put_totals(out: &mut String, totals: TotalsLine) -> Result<(), NoMemory>
    ensures { OnOk result (string_bytes out.new ≡ string_bytes out.old ++ totals_text totals) }
{
    put_two(
        out,
        "entries ",
        totals.entries,
        " performed ",
        totals.performed,
    )?;
    put_two(out, " faked ", totals.faked, " denied ", totals.denied)?;
    put_two(
        out,
        " refused ",
        totals.refused,
        " results ",
        totals.results,
    )
}

/// Appends what is due.
pub(crate) fn put_due(out: &mut String, due: Due) -> Result<(), NoMemory>
    ensures { OnOk result (string_bytes out.new ≡ string_bytes out.old ++ due_text due) }
{
    match due {
        Due::Form(due) => put_form(out, due),
        Due::Place(due) => put_place(out, due),
        Due::Rule(due) => put_rule(out, due),
        Due::Reply(due) => put_reply(out, due),
        Due::Own(due) => put_own(out, due),
        Due::Result(due) => put_result(out, due),
        Due::Totals(totals) => put_totals(out, totals),
    }
}
