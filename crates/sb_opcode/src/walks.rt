// The walk over the opcodes of a code. Rules whose tests are all lone ones, of a number, a prefix or an equal name, have a walk of their own:
// without it a verdict by one rule takes 1.3 to 1.5 times as long.
ghost use Rattle.std.specs.Prelude.{◌≡◌, ◌≤◌, true, false, length, MatchOption};
ghost use Rattle.sb_call.specs.Arguments.{fits};
ghost use Rattle.sb_opcode.specs.Groups.{after_action};
ghost use Rattle.sb_opcode.specs.Meaning.{meaning};
ghost use Rattle.sb_opcode.specs.Unpacking.{is_packed, opcodes_of};
ghost use Rattle.sb_opcode.specs.Walking.{walk, rule_walk, begins_with_front, begins_with_number, Between, IsLone};

use crate::codes::Code;
use crate::laws::faultless_codes_are_whole;
use crate::opcodes::OpKind;
use crate::records::{Records, act_known, front_known, number_known};
use crate::states::{State, is_failed, is_front, is_number, step};
use crate::verified::Verified;
use sb_call::Arg;
use sb_rule::Verdict;

// Passes over the rest of a rule, its action included.
#[tactic(auto, using(crate::proofs::PassLemmas::passed_action, crate::proofs::PassLemmas::passed_shorter))]
fn pass_rule(records: &mut Records<'_>)
    ensures rest { records.new ≡ after_action records.old }
    ensures shorter { length records.new ≤ length records.old }
{
    while let Some(acts) = records.pass_record() {
        if acts {
            return;
        }
    }
}

// What the first action gives whose rule does not fail. The rest of a rule that fails is passed over.
#[tactic(auto, using(crate::proofs::PassLemmas::walk_step, crate::proofs::PassLemmas::walk_passed))]
fn walk(code: &Code, args: &[Arg]) -> Verdict
    ensures { result ≡ walk args.now Between code.now }
{
    let mut records = code.records();
    let mut state = State::Between;
    while let Some(opcode) = records.next_record() {
        if let OpKind::Act { action, line } = opcode.kind {
            return Verdict::Rule { line, action };
        }
        state = step(state, &opcode, args);
        if is_failed(state) {
            pass_rule(&mut records);
            state = State::Between;
        }
    }
    Verdict::NoRule
}

#[tactic(auto, using(crate::proofs::WalkLemmas::walk_of_faultless))]
/// The verdict of a verified code on a call whose arguments fit: the line and the action of the first rule all of whose
/// groups hold, and `NoRule` exactly if no rule holds.
///
/// A group looks at the argument of its parameter. With OR one of its opcodes is to hold; without it all are, if each
/// text opcode begins in the string where the one before it ended, and the first at the beginning. NEGATE on the last
/// opcode negates the group's result. A fragment with `*` is found nowhere.
///
/// The words are read once and not tested again, and the string is never copied. Each rule costs time in proportion to its
/// opcodes and the string, except that seeking forward may look at each place once for each cell of its fragment; of a rule
/// that has failed the rest is passed over, its cells by their number. Does not allocate.
pub fn eval(code: &Verified, args: &[Arg]) -> Verdict
    requires { fits code.now.tag args.now ≡ true }
    ensures { result ≡ meaning code.now.code args.now }
{
    faultless_codes_are_whole();
    walk(code.code(), args)
}

// What the first of the rules gives if it does not fail.
#[inline(always)]
#[tactic(auto, using(crate::proofs::RuleLemmas::rule_step, crate::proofs::RuleLemmas::rule_failed))]
fn walk_rule(records: &mut Records<'_>, args: &[Arg]) -> Verdict
    ensures { result ≡ rule_walk args.now Between records.old }
{
    let mut state = State::Between;
    while let Some(opcode) = records.next_record() {
        if let OpKind::Act { action, line } = opcode.kind {
            return Verdict::Rule { line, action };
        }
        state = step(state, &opcode, args);
        if is_failed(state) {
            return Verdict::NoRule;
        }
    }
    Verdict::NoRule
}

// The same for packed words. It is not inlined, so that the walk of lone tests has a small frame.
#[inline(never)]
fn walk_states(words: &[u64], args: &[Arg]) -> Verdict
    requires { is_packed words.now ≡ true }
    ensures { result ≡ rule_walk args.now Between (opcodes_of words.now) }
{
    walk_rule(&mut Records::of(words), args)
}

// Whether the first opcode of packed words holds, and the words after it, if it tests for a number or for the front of a string and is a
// group of its own.
#[inline(always)]
fn lone_known<'a>(words: &'a [u64], args: &[Arg]) -> Option<(bool, &'a [u64])>
    requires { is_packed words.now ≡ true }
    ensures { MatchOption result ((begins_with_number words.now ≡ false) × (begins_with_front words.now ≡ false)) (λ r. IsLone args.now words.now r.0 r.1.now) }
{
    if let Some((param, number, later)) = number_known(words) {
        return Some((is_number(args, param, number), later));
    }
    let (param, cells, whole, later) = front_known(words)?;
    Some((is_front(args, param, cells, whole), later))
}

// What the first of the rules in packed words gives if it does not fail. Tests for a number or for the front of a string that it begins with,
// each a group of its own, are made at once, as is its action if nothing else comes before it.
pub(crate) fn walk_first_rule(words: &[u64], args: &[Arg]) -> Verdict
    requires { is_packed words.now ≡ true }
    ensures { result ≡ rule_walk args.now Between (opcodes_of words.now) }
{
    let mut rest = words;
    while let Some((holds, later)) = lone_known(rest, args) {
        if !holds {
            return Verdict::NoRule;
        }
        rest = later;
    }
    match act_known(rest) {
        Some(verdict) => verdict,
        None => walk_states(rest, args),
    }
}
