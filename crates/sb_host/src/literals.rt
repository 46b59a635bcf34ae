// The texts of literals, for hosts that build policies from strings of their own, as the folder of a profile. What is special in a policy
// (`*`, `?`, `"`, the end of a line) never becomes a rule that nobody wrote.
ghost use Rattle.std.specs.Prelude.{◌≡◌, ◌++◌, true, not, ◌==◌, IfOk, IfErr, OnOk};
ghost use Rattle.std.specs.List.{list_all};
ghost use Rattle.sb_base.specs.Wide.{is_text_unit};
ghost use Rattle.sb_text.specs.Tokens.{utf8_of};
ghost use Rattle.sb_rule.specs.PatternReading.{cell_text};
ghost use Rattle.sb_rule.specs.declared.cells.Cell.TheVariants.{Lit};
ghost use Rattle.sb_rule.specs.WellMade.{is_policy_text};
ghost use Rattle.sb_host.specs.Literals.{has_string_literal, has_pattern_literal, literal_text, has_star, IsNoLiteral, IsStringLiteral, IsPatternLiteral};

use sb_base::{NoMemory, Refused, is_well_formed_utf16};
use sb_rule::{MAX_UNITS, literals_match_the_same, texts_and_patterns};
use sb_text::quoted_strings_are_read;
use std::alloc::Global;
use thiserror::Error;

/// No text between quotes means exactly this string.
#[derive(Clone, Copy, Debug, Error)]
#[error("no text between quotes means exactly this string")]
pub struct NoLiteral;

/// Why there is no text of a literal.
pub type LiteralRefused = Refused<NoLiteral>;

fn is_text_unit(unit: u16) -> bool
    ensures { result ≡ is_text_unit unit }
{
    unit >= 32 && unit != 34
}

fn are_text_units(units: &[u16]) -> bool
    ensures { result ≡ list_all is_text_unit units.now }
{
    for unit in units {
        if !is_text_unit(*unit) {
            return false;
        }
    }
    true
}

fn is_policy_text(units: &[u16]) -> bool
    ensures { result ≡ is_policy_text units.now }
{
    units.len() <= MAX_UNITS && are_text_units(units) && is_well_formed_utf16(units)
}

// What is written of units between quotes.
fn written(alloc: Global, units: &[u16]) -> Result<Vec<u8>, NoMemory>
    ensures { IfOk result (λ text. text.items ≡ utf8_of units.now) }
{
    let characters = String::from_utf16_lossy(alloc, units)?;
    Ok(Vec::from_slice(alloc, characters.as_bytes())?)
}

/// The text, as UTF-8, that means exactly this string where it is written between quotes after `is` in a policy.
///
/// # Errors
/// `NoLiteral` exactly if there is none: the string has more than 256 units, a unit below 32, a `"` or a surrogate alone. `NoMemory` if
/// there was none for the text.
#[tactic(auto, using(crate::proofs::LiteralTexts::string_written))]
pub fn string_literal(alloc: Global, units: &[u16]) -> Result<Vec<u8>, LiteralRefused>
    ensures text { IfOk result (λ text. IsStringLiteral units.now text.items) }
    ensures some { OnOk result (has_string_literal units.now ≡ true) }
    ensures none { IfErr result (IsNoLiteral (has_string_literal units.now) (has_string_literal units.now)) }
{
    quoted_strings_are_read();
    if !is_policy_text(units) {
        return Err(Refused::Fault(NoLiteral));
    }
    Ok(written(alloc, units)?)
}

fn is_star(unit: u16) -> bool
    ensures { result ≡ (unit == 42) }
{
    unit == 42
}

fn has_star(units: &[u16]) -> bool
    ensures { result ≡ has_star units.now }
{
    units.iter().any(|unit| is_star(*unit))
}

// Appends a unit as a pattern has it, a question mark as `/?`.
fn put_unit(text: &mut Vec<u16>, unit: u16) -> Result<(), NoMemory>
    ensures { OnOk result (text.new.items ≡ text.old.items ++ cell_text (Lit unit)) }
{
    if unit == 63 {
        text.push(47)?;
    }
    text.push(unit)?;
    Ok(())
}

// The text of a pattern of these literals.
fn pattern_text(alloc: Global, units: &[u16]) -> Result<Vec<u16>, NoMemory>
    ensures { IfOk result (λ text. text.items ≡ literal_text units.now) }
{
    let mut text = Vec::new(alloc);
    for unit in units {
        put_unit(&mut text, *unit)?;
    }
    Ok(text)
}

// What is written of the text of such a pattern is read as the pattern.
#[tactic(auto, using(crate::proofs::LiteralTexts::pattern_written))]
fn written_pattern(alloc: Global, units: &[u16], text: &[u16]) -> Result<Vec<u8>, NoMemory>
    requires text { text.now ≡ literal_text units.now }
    requires literal { has_pattern_literal units.now ≡ true }
    ensures { IfOk result (λ bytes. IsPatternLiteral units.now bytes.items) }
{
    let _units = units;
    quoted_strings_are_read();
    literals_match_the_same();
    texts_and_patterns();
    written(alloc, text)
}

/// The text, as UTF-8, that is read as a pattern which matches exactly the strings that are the same as this one, where it is written
/// between quotes in a policy.
///
/// # Errors
/// `NoLiteral` exactly if there is none: the string has a `*`, a unit below 32, a `"` or a surrogate alone, or more than 256 units, where a
/// `?` counts twice. `NoMemory` if there was none for the text.
#[tactic(auto, using(crate::proofs::LiteralTexts::literal_exactly))]
pub fn pattern_literal(alloc: Global, units: &[u16]) -> Result<Vec<u8>, LiteralRefused>
    ensures text { IfOk result (λ text. IsPatternLiteral units.now text.items) }
    ensures some { OnOk result (has_pattern_literal units.now ≡ true) }
    ensures none { IfErr result (IsNoLiteral (not (has_star units.now)) (has_pattern_literal units.now)) }
{
    if has_star(units) {
        return Err(Refused::Fault(NoLiteral));
    }
    let text = pattern_text(alloc, units)?;
    if !is_policy_text(&text) {
        return Err(Refused::Fault(NoLiteral));
    }
    Ok(written_pattern(alloc, units, &text)?)
}
