// Printing policies as a text that is read again.
ghost use Rattle.std.specs.Prelude.{◌≡◌, ◌+◌, ◌++◌, ◌∷◌, [], map, codes, true, length, ◌<◌, ◌^◌, Ok, IfOk, OnOk};
ghost use Rattle.std.specs.List.{flat_map, list_all, list_any};
ghost use Rattle.sb_call.specs.CallWords.{call_word};
ghost use Rattle.sb_ruletext.specs.PolicyTexts.{reading};
ghost use Rattle.sb_ruletext.specs.Printing.{number_word, range_word, or_tokens, numbers_tokens, test_tokens, not_tokens, cond_tokens, joined_tokens, conds_tokens, rule_tokens, policy_lines, has_read_only, version_word, spaced, printed, relined};
ghost use Rattle.sb_text.specs.PlainLines.{line_text};
ghost use Rattle.sb_text.specs.Tokens.{utf8_of};
ghost use Rattle.sb_ruletext.specs.Values.{is_test_of_values, is_rule_of_values, is_policy_of_values};
ghost use Rattle.sb_base.specs.Numbers.{is_word64};

use crate::printing_laws::printed_policies_are_read;
use sb_base::{NoMemory, put_hexadecimal};
use sb_call::{CallTag, call_word, parameter_word};
use sb_rule::{Action, Cond, Policy, Rule, Test, WellMadePolicies};
use std::alloc::Global;

// Each of these appends to the text, and what it has read of the policies is in the ranges of its types. After an error the text
// may end anywhere.

fn put_word(text: &mut Vec<u8>, word: &[u8]) -> Result<(), NoMemory>
    ensures { OnOk result (text.new.items ≡ text.old.items ++ 32 ∷ word.now) }
{
    text.push(b' ')?;
    text.extend_from_slice(word)?;
    Ok(())
}

fn put_number(text: &mut Vec<u8>, number: u64) -> Result<(), NoMemory>
    ensures { OnOk result (text.new.items ≡ text.old.items ++ number_word number) }
{
    text.extend_from_slice(b"0x")?;
    put_hexadecimal(text, number)
}

fn put_quoted(text: &mut Vec<u8>, units: &[u16]) -> Result<(), NoMemory>
    ensures { OnOk result (text.new.items ≡ text.old.items ++ 32 ∷ 34 ∷ utf8_of units.now ++ 34 ∷ []) }
{
    let characters = String::from_utf16_lossy(*text.allocator(), units)?;
    text.extend_from_slice(b" \"")?;
    text.extend_from_slice(characters.as_bytes())?;
    text.push(b'"')?;
    Ok(())
}

fn put_more_numbers(text: &mut Vec<u8>, numbers: &[u64]) -> Result<(), NoMemory>
    ensures text { OnOk result (text.new.items ≡ text.old.items ++ spaced (flat_map or_tokens numbers.now)) }
    ensures values { OnOk result (list_all is_word64 numbers.now ≡ true) }
{
    for number in numbers {
        put_word(text, b"or")?;
        text.push(b' ')?;
        put_number(text, *number)?;
    }
    Ok(())
}

fn put_numbers(text: &mut Vec<u8>, numbers: &[u64]) -> Result<(), NoMemory>
    ensures text { OnOk result (text.new.items ≡ text.old.items ++ spaced (numbers_tokens numbers.now)) }
    ensures values { OnOk result (list_all is_word64 numbers.now ≡ true) }
{
    let Some((first, more)) = numbers.split_first() else {
        return Ok(());
    };
    text.push(b' ')?;
    put_number(text, *first)?;
    put_more_numbers(text, more)
}

fn put_range(text: &mut Vec<u8>, lo: u64, hi: u64) -> Result<(), NoMemory>
    ensures { OnOk result (text.new.items ≡ text.old.items ++ range_word lo hi) }
{
    put_number(text, lo)?;
    text.extend_from_slice(b"..")?;
    put_number(text, hi)
}

fn put_test(text: &mut Vec<u8>, test: &Test) -> Result<(), NoMemory>
    ensures text { OnOk result (text.new.items ≡ text.old.items ++ spaced (test_tokens test.now)) }
    ensures values { OnOk result (is_test_of_values test.now ≡ true) }
{
    match test {
        Test::OneOf(numbers) => {
            put_word(text, b"is")?;
            put_numbers(text, numbers)
        }
        Test::Range { lo, hi } => {
            text.extend_from_slice(b" in ")?;
            put_range(text, *lo, *hi)
        }
        Test::Mask(mask) => {
            text.extend_from_slice(b" has ")?;
            put_number(text, *mask)
        }
        Test::Equal(string) => {
            put_word(text, b"is")?;
            put_quoted(text, string.as_units())
        }
        Test::Like(pattern) => {
            let string = pattern.text(*text.allocator())?;
            put_word(text, b"like")?;
            put_quoted(text, string.as_units())
        }
    }
}

fn put_not(text: &mut Vec<u8>, negated: bool) -> Result<(), NoMemory>
    ensures { OnOk result (text.new.items ≡ text.old.items ++ spaced (not_tokens negated)) }
{
    if negated {
        put_word(text, b"not")?;
    }
    Ok(())
}

/// Appends a condition of a rule for this call as policies print it, with a space before each token. What it has read of the condition is in the ranges of
/// its types.
///
/// # Errors
/// `NoMemory` if there is none for it; then a part may have been appended.
pub fn put_cond(text: &mut Vec<u8>, tag: CallTag, cond: &Cond) -> Result<(), NoMemory>
    ensures text { OnOk result (text.new.items ≡ text.old.items ++ spaced (cond_tokens tag cond.now)) }
    ensures values { OnOk result (is_test_of_values cond.now.test ≡ true) }
{
    put_not(text, cond.negated)?;
    put_word(text, parameter_word(tag, cond.param).as_bytes())?;
    put_test(text, &cond.test)
}

fn put_joined(text: &mut Vec<u8>, joint: &[u8], tag: CallTag, cond: &Cond) -> Result<(), NoMemory>
    ensures text { OnOk result (text.new.items ≡ text.old.items ++ spaced (joined_tokens joint.now tag cond.now)) }
    ensures values { OnOk result (is_test_of_values cond.now.test ≡ true) }
{
    put_word(text, joint)?;
    put_cond(text, tag, cond)
}

fn put_more_conds(text: &mut Vec<u8>, tag: CallTag, conds: &[Cond]) -> Result<(), NoMemory>
    ensures text { OnOk result (text.new.items ≡ text.old.items ++ spaced (flat_map (joined_tokens (codes "and") tag) conds.now)) }
    ensures values { OnOk result (list_all (λ cond. is_test_of_values cond.test) conds.now ≡ true) }
{
    for cond in conds {
        put_joined(text, b"and", tag, cond)?;
    }
    Ok(())
}

fn put_conds(text: &mut Vec<u8>, tag: CallTag, conds: &[Cond]) -> Result<(), NoMemory>
    ensures text { OnOk result (text.new.items ≡ text.old.items ++ spaced (conds_tokens tag conds.now)) }
    ensures values { OnOk result (list_all (λ cond. is_test_of_values cond.test) conds.now ≡ true) }
{
    let Some((first, more)) = conds.split_first() else {
        return Ok(());
    };
    put_joined(text, b"when", tag, first)?;
    put_more_conds(text, tag, more)
}

#[tactic(auto, using(crate::proofs::PrintedSpaces::line_in_pieces))]
fn put_rule(text: &mut Vec<u8>, rule: &Rule) -> Result<(), NoMemory>
    ensures text { OnOk result (text.new.items ≡ text.old.items ++ line_text (rule_tokens rule.now)) }
    ensures values { OnOk result (is_rule_of_values rule.now ≡ true) }
{
    text.extend_from_slice(rule.action.word().as_bytes())?;
    put_word(text, call_word(rule.tag).as_bytes())?;
    put_conds(text, rule.tag, &rule.conds)?;
    text.push(b'\n')?;
    Ok(())
}

fn put_rules(text: &mut Vec<u8>, rules: &[Rule]) -> Result<(), NoMemory>
    ensures text { OnOk result (text.new.items ≡ text.old.items ++ flat_map line_text (map rule_tokens rules.now)) }
    ensures values { OnOk result (list_all is_rule_of_values rules.now ≡ true) }
{
    for rule in rules {
        put_rule(text, rule)?;
    }
    Ok(())
}

fn put_policy(text: &mut Vec<u8>, policy: &Policy) -> Result<(), NoMemory>
    ensures text { OnOk result (text.new.items ≡ text.old.items ++ flat_map line_text (policy_lines policy.now)) }
    ensures values { OnOk result (is_policy_of_values policy.now ≡ true) }
{
    text.extend_from_slice(b"policy")?;
    put_word(text, policy.name.bytes())?;
    text.push(b'\n')?;
    put_rules(text, &policy.rules)
}

fn put_policies(text: &mut Vec<u8>, policies: &[Policy]) -> Result<(), NoMemory>
    ensures text { OnOk result (text.new.items ≡ text.old.items ++ flat_map line_text (flat_map policy_lines policies.now)) }
    ensures values { OnOk result (list_all is_policy_of_values policies.now ≡ true) }
{
    for policy in policies {
        put_policy(text, policy)?;
    }
    Ok(())
}

fn has_read_only(policy: &Policy) -> bool
    ensures { result ≡ has_read_only policy.now }
{
    let mut rules = policy.rules.iter();
    rules.any(|rule| matches!(rule.action, Action::ReadOnly))
}

fn have_read_only(policies: &[Policy]) -> bool
    ensures { result ≡ list_any has_read_only policies.now }
{
    policies.iter().any(has_read_only)
}

fn version_word(policies: &[Policy]) -> &'static [u8]
    ensures { result.now ≡ version_word policies.now }
{
    if have_read_only(policies) { b"2" } else { b"1" }
}

fn policies_text(alloc: Global, policies: &[Policy]) -> Result<Vec<u8>, NoMemory>
    ensures text { IfOk result (λ text. text.items ≡ printed policies.now) }
    ensures values { OnOk result (list_all is_policy_of_values policies.now ≡ true) }
{
    let mut text = Vec::new(alloc);
    text.extend_from_slice(b"sandbox-policy")?;
    put_word(&mut text, version_word(policies))?;
    text.push(b'\n')?;
    put_policies(&mut text, policies)?;
    Ok(text)
}

/// The text of policies. It is read again as the same policies, in which each rule has the number of the line on which it is
/// printed. It has fewer than 2^32 - 1 bytes, so that `read_policies` may be given it. The names that it has are short, and its
/// numbers have 64 bits.
///
/// The first line is `sandbox-policy 2` if some rule has the action `ReadOnly`, and `sandbox-policy 1` otherwise. Then
/// each policy has its heading and one line for each rule. One space separates two tokens, and an LF after each
/// line. Numbers are `0x` and lower-case hexadecimal digits without leading zeros. Strings and patterns are their text, in
/// UTF-8, between quotes.
///
/// # Errors
/// `NoMemory` if there is none for the text.
pub fn print_policies(alloc: Global, policies: &WellMadePolicies) -> Result<Vec<u8>, NoMemory>
    ensures text { IfOk result (λ text. text.items ≡ printed policies.now.list) }
    ensures short { IfOk result (λ text. length text.items + 1 < 2 ^ 32) }
    ensures values { OnOk result (list_all is_policy_of_values policies.now.list ≡ true) }
    ensures read_again { IfOk result (λ text. reading text.items ≡ Ok (relined policies.now.list)) }
{
    printed_policies_are_read();
    let text = policies_text(alloc, &policies.policies().list)?;
    Ok(text)
}
