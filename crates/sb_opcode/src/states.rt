// Where the walk over a code is within a rule, and what an opcode makes of it.
ghost use Rattle.std.specs.Prelude.{◌≡◌, map};
ghost use Rattle.sb_call.specs.Arguments.{arg_at};
ghost use Rattle.sb_opcode.specs.Records.{opcode_of};
ghost use Rattle.sb_opcode.specs.Meaning.{negate_if};
ghost use Rattle.sb_opcode.specs.Walking.{arg_from, standing_of, group_start, entered, looked_at, group_end, closed, step, is_failed, is_front, is_number};
ghost use Rattle.sb_opcode.specs.Unpacking.{cell_of};

use crate::effects::{Place, after_opcode};
use crate::fragments::has_front;
use crate::opcodes::Opcode;
use crate::options::Options;
use bitflags::Flags;
use sb_call::Arg;

// Where the walk is within a rule.
#[derive(Clone, Copy)]
pub(crate) enum State<'a> {
    // All groups so far hold, and the next one has not begun.
    Between,
    // All opcodes of this group so far hold of the argument, of which this is left.
    All(Place<'a>),
    // None of the opcodes of this group so far holds of this argument, and one is enough.
    One(Place<'a>),
    // This group holds, or does not, except for NEGATE, whatever comes in it.
    Decided(bool),
    // The rule does not hold.
    Failed,
}

// The argument of a parameter, from its beginning on.
#[inline(always)]
fn place_at(args: &[Arg], param: u32) -> Place<'_>
    ensures { arg_from result ≡ arg_at args.now param }
{
    match args.get(param as usize) {
        Some(Arg::Num(number)) => Place::Number(*number),
        Some(Arg::Str(text)) => Place::Units(text.as_units()),
        None => Place::Number(0),
    }
}

// Whether the argument of a parameter is this number.
#[inline(always)]
pub(crate) fn is_number(args: &[Arg], param: u32, number: u64) -> bool
    ensures { result ≡ is_number (arg_at args.now param) number }
{
    match place_at(args, param) {
        Place::Number(value) => value == number,
        Place::Units(_) => false,
    }
}

// Whether the argument of a parameter is a string that begins with a fragment.
#[inline(always)]
pub(crate) fn is_front(args: &[Arg], param: u32, cells: &[u64], whole: bool) -> bool
    ensures { result ≡ is_front (arg_at args.now param) (map cell_of cells.now) whole }
{
    match place_at(args, param) {
        Place::Number(_) => false,
        Place::Units(units) => has_front(cells, whole, units),
    }
}

// Before the first opcode of a group.
fn group_start<'a>(opcode: &Opcode<'_>, args: &'a [Arg]) -> State<'a>
    ensures { standing_of result ≡ group_start args.now (opcode_of opcode.now) }
{
    let place = place_at(args, opcode.param);
    if opcode.options.contains(Options::OR) {
        State::One(place)
    } else {
        State::All(place)
    }
}

// Before an opcode, within its group.
fn entered<'a>(state: State<'a>, opcode: &Opcode<'_>, args: &'a [Arg]) -> State<'a>
    ensures { standing_of result ≡ entered args.now (standing_of state.entry) (opcode_of opcode.now) }
{
    match state {
        State::Between => group_start(opcode, args),
        State::All(_) | State::One(_) | State::Decided(_) | State::Failed => state,
    }
}

// After an opcode, within its group.
fn looked_at<'a>(state: State<'a>, opcode: &Opcode<'_>) -> State<'a>
    ensures { standing_of result ≡ looked_at (standing_of state.entry) (opcode_of opcode.now) }
{
    match state {
        State::All(left) => match after_opcode(opcode, left) {
            Some(left) => State::All(left),
            None => State::Decided(false),
        },
        State::One(whole) => match after_opcode(opcode, whole) {
            Some(_) => State::Decided(true),
            None => State::One(whole),
        },
        State::Between | State::Decided(_) | State::Failed => state,
    }
}

#[inline(always)]
fn negate_if(negated: bool, holds: bool) -> bool
    ensures { result ≡ negate_if negated holds }
{
    if negated { !holds } else { holds }
}

// After a group that holds, or does not.
#[inline(always)]
fn group_end<'a>(holds: bool) -> State<'a>
    ensures { standing_of result ≡ group_end holds }
{
    if holds { State::Between } else { State::Failed }
}

// After the last opcode of a group.
fn closed<'a>(state: State<'a>, negated: bool) -> State<'a>
    ensures { standing_of result ≡ closed negated (standing_of state.entry) }
{
    match state {
        State::Between | State::All(_) => group_end(negate_if(negated, true)),
        State::One(_) => group_end(negate_if(negated, false)),
        State::Decided(holds) => group_end(negate_if(negated, holds)),
        State::Failed => State::Failed,
    }
}

// After an opcode that is no action.
pub(crate) fn step<'a>(state: State<'a>, opcode: &Opcode<'_>, args: &'a [Arg]) -> State<'a>
    ensures { standing_of result ≡ step args.now (standing_of state.entry) (opcode_of opcode.now) }
{
    let state = looked_at(entered(state, opcode, args), opcode);
    if opcode.options.contains(Options::CLEAR) {
        closed(state, opcode.options.contains(Options::NEGATE))
    } else {
        state
    }
}

// Whether the rule does not hold.
#[inline(always)]
pub(crate) fn is_failed(state: State<'_>) -> bool
    ensures { result ≡ is_failed (standing_of state.entry) }
{
    matches!(state, State::Failed)
}
