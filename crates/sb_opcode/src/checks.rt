// The tests by which a code is verified. Each goes once through the records.
ghost use Rattle.std.specs.Prelude.{◌≡◌, ◌<◌, ◌^◌, None, option_map, length, position};
ghost use Rattle.sb_opcode.specs.Groups.{is_act, is_last};
ghost use Rattle.sb_opcode.specs.Faults.{is_text_kind, ends_with_act, goes_on, differs, is_unfit, is_open, with_before, is_number_at, is_string_at, suits, is_misplaced, fault_of};
ghost use Rattle.sb_opcode.specs.Records.{kind_of, opcode_of};

use crate::codes::Code;
use crate::faults::CodeFault;
use crate::opcodes::{OpKind, Opcode};
use crate::options::Options;
use bitflags::Flags;
use sb_call::{CallTag, ParamKind, shape};

fn is_act(opcode: &Opcode<'_>) -> bool
    ensures { result ≡ is_act (opcode_of opcode.now) }
{
    matches!(opcode.kind, OpKind::Act { .. })
}

fn is_text(opcode: &Opcode<'_>) -> bool
    ensures { result ≡ is_text_kind (kind_of opcode.now.kind) }
{
    matches!(opcode.kind, OpKind::Text { .. })
}

// Whether the last opcode is an action.
#[tactic(auto, using(crate::proofs::CheckLemmas::ends_step, crate::proofs::CheckLemmas::ends_first))]
fn ends_with_act(code: &Code) -> bool
    ensures { result ≡ ends_with_act code.now }
{
    let mut records = code.records();
    let mut ends = false;
    while let Some(record) = records.next_record() {
        ends = is_act(&record);
    }
    ends
}

// Whether the group goes on after an opcode.
fn goes_on(before: &Option<Opcode<'_>>) -> bool
    ensures { result ≡ goes_on (option_map opcode_of before.now) }
{
    match before {
        Some(opcode) => !is_act(opcode) && !opcode.options.contains(Options::CLEAR),
        None => false,
    }
}

fn differs(before: &Option<Opcode<'_>>, opcode: &Opcode<'_>) -> bool
    ensures { result ≡ differs (option_map opcode_of before.now) (opcode_of opcode.now) }
{
    match before {
        Some(before) => before.param != opcode.param
            || before.options.contains(Options::OR) != opcode.options.contains(Options::OR),
        None => false,
    }
}

// Whether the options are none that such an opcode may have.
fn is_unfit(opcode: &Opcode<'_>) -> bool
    ensures { result ≡ is_unfit (opcode_of opcode.now) }
{
    let options = opcode.options;
    (options.contains(Options::NEGATE) && !options.contains(Options::CLEAR))
        || (is_text(opcode) && options.contains(Options::OR))
        || (is_act(opcode) && options.bits() & 31 != 0)
        || (!is_text(opcode)
            && (options.contains(Options::FOLD) || options.contains(Options::EXACT)))
}

fn is_open(before: &Option<Opcode<'_>>, opcode: &Opcode<'_>) -> bool
    ensures { result ≡ is_open (option_map opcode_of before.now, opcode_of opcode.now) }
{
    (goes_on(before) && (is_act(opcode) || differs(before, opcode))) || is_unfit(opcode)
}

// The first place that leaves a group open.
fn first_open(code: &Code) -> Option<u32>
    ensures { result ≡ position is_open (with_before None code.now) }
{
    let mut records = code.records();
    let mut before = None;
    let mut at = 0;
    while let Some(record) = records.next_record() {
        if is_open(&before, &record) {
            return Some(at);
        }
        before = Some(record);
        at += 1;
    }
    None
}

fn is_number_at(tag: CallTag, param: u32) -> bool
    ensures { result ≡ is_number_at tag param }
{
    matches!(tag.param_kind(param), Some(kind) if kind.is_number())
}

fn is_string_at(tag: CallTag, param: u32) -> bool
    ensures { result ≡ is_string_at tag param }
{
    matches!(tag.param_kind(param), Some(kind) if !kind.is_number())
}

fn is_misplaced(tag: CallTag, opcode: &Opcode<'_>) -> bool
    ensures { result ≡ is_misplaced tag (opcode_of opcode.now) }
{
    match opcode.kind {
        OpKind::Num(_) | OpKind::Range { .. } | OpKind::Mask(_) => {
            !is_number_at(tag, opcode.param)
        }
        OpKind::Text { .. } => !is_string_at(tag, opcode.param),
        OpKind::False | OpKind::True | OpKind::Act { .. } => false,
    }
}

// The first place with a parameter that is not the call's, or of the other kind.
fn first_misplaced(tag: CallTag, code: &Code) -> Option<u32>
    ensures { result ≡ position (is_misplaced tag) code.now }
{
    let mut records = code.records();
    let mut at = 0;
    while let Some(record) = records.next_record() {
        if is_misplaced(tag, &record) {
            return Some(at);
        }
        at += 1;
    }
    None
}

// The first fault of a code for a call.
pub(crate) fn fault_of(tag: CallTag, code: &Code) -> Option<CodeFault>
    ensures { result ≡ fault_of tag code.now }
{
    if !ends_with_act(code) {
        return Some(CodeFault::NoAction);
    }
    if let Some(at) = first_open(code) {
        return Some(CodeFault::OpenGroup(at));
    }
    let at = first_misplaced(tag, code)?;
    Some(CodeFault::BadParam(at))
}
