// Codes with the places where their rules begin.
ghost use Rattle.std.specs.Prelude.{◌≡◌, ◌<◌, ◌≤◌, ◌++◌, ℕ, List, true, false, [], drop, length, IfOk, MatchOption, slice_index_or};
ghost use Rattle.sb_opcode.specs.Beginnings.{AreBeginnings};
ghost use Rattle.sb_opcode.specs.Groups.{after_action, rules_of};
ghost use Rattle.sb_opcode.specs.Meaning.{action_of_rule, rule_holds, rule_verdict};
ghost use Rattle.sb_opcode.specs.WholeGroups.{is_whole_rule};
ghost use Rattle.sb_opcode.specs.Unpacking.{is_packed, opcodes_of};

use crate::laws::faultless_codes_are_whole;
use crate::records::passed_known;
use crate::verified::Verified;
use crate::walks::walk_first_rule;
use sb_base::NoMemory;
use sb_call::Arg;
use sb_rule::Verdict;
use std::alloc::Global;
use std::marker::Model;

/// A verified code with the places in its words where its rules begin. So a rule is judged without those before it.
pub struct RuleCodes {
    code: Verified,
    places: Vec<usize>,
}

impl Drop for RuleCodes {
    fn drop(self) {
        let RuleCodes { code: _, places: _ } = self;
    }
}

impl Model for RuleCodes {
    ghost use Rattle.std.specs.Prelude.{◌≡◌, length};
    ghost use Rattle.sb_opcode.specs.Beginnings.{AreFirst};
    ghost use Rattle.sb_opcode.specs.Groups.{rules_of};
    ghost use Rattle.sb_opcode.specs.Packing.{packed};
    ghost use Rattle.sb_opcode.specs.Verified.{VerifiedCode};

    ghost Value = { VerifiedCode };

    ghost view = { λ r. r.code };

    ghost invariant = { λ r. (length r.places.items ≡ length (rules_of r.code.code)) × AreFirst (packed r.code.code) r.places.items };
}

// The words after the first rule.
fn after_rule(words: &[u64]) -> &[u64]
    requires { is_packed words.now ≡ true }
    ensures packed { is_packed result.now ≡ true }
    ensures later { opcodes_of result.now ≡ after_action (opcodes_of words.now) }
    ensures suffix { (before : List ℕ) × (words.now ≡ before ++ result.now) }
    ensures shorter { 0 < length words.now → length result.now < length words.now }
{
    let mut rest = words;
    while let Some((acts, later)) = passed_known(rest) {
        rest = later;
        if acts {
            return rest;
        }
    }
    rest
}

// The places in packed words where their rules begin.
fn places_of(alloc: Global, words: &[u64]) -> Result<Vec<usize>, NoMemory>
    requires { is_packed words.now ≡ true }
    ensures { IfOk result (λ places. AreBeginnings words.now places.items) }
{
    let mut places = Vec::new(alloc);
    let mut rest = words;
    while rest.len() > 0 {
        places.push(words.len() - rest.len())?;
        rest = after_rule(rest);
    }
    Ok(places)
}

// The words from a place on.
fn words_from(words: &[u64], place: usize) -> &[u64]
    requires { place ≤ length words.now }
    ensures { result.now ≡ drop place words.now }
{
    let (_, rest) = words.split_at(place);
    rest
}

impl RuleCodes {
    /// A code with the places of its rules.
    ///
    /// # Errors
    /// `NoMemory` if there was none for the places.
    pub fn new(alloc: Global, code: Verified) -> Result<RuleCodes, NoMemory>
        ensures { IfOk result (λ codes. codes ≡ code) }
    {
        let places = places_of(alloc, code.code().words())?;
        Ok(RuleCodes { code, places })
    }

    /// How many rules there are.
    pub fn len(&self) -> usize
        ensures { result ≡ length (rules_of self.now.code) }
    {
        self.places.len()
    }

    // What a rule says.
    fn rule_says(&self, number: usize, args: &[Arg]) -> Verdict
        requires { number < length (rules_of self.now.code) }
        ensures says { result ≡ rule_verdict args.now (slice_index_or (rules_of self.now.code) number []) }
        ensures whole { is_whole_rule (slice_index_or (rules_of self.now.code) number []) ≡ true }
    {
        faultless_codes_are_whole();
        let words = self.code.code().words();
        let place = self.places[number];
        walk_first_rule(words_from(words, place), args)
    }

    #[tactic(auto, using(crate::proofs::RuleLemmas::held))]
    /// What one of the rules says of a call, by its number from 0: its verdict, and None exactly if it does not hold. Does
    /// not allocate.
    pub fn judge_rule(&self, number: usize, args: &[Arg]) -> Option<Verdict>
        requires { number < length (rules_of self.now.code) }
        ensures { MatchOption result (rule_holds args.now (slice_index_or (rules_of self.now.code) number []) ≡ false)
            (λ verdict. (rule_holds args.now (slice_index_or (rules_of self.now.code) number []) ≡ true)
            × (verdict ≡ action_of_rule (slice_index_or (rules_of self.now.code) number []))) }
    {
        match self.rule_says(number, args) {
            Verdict::Rule { line, action } => Some(Verdict::Rule { line, action }),
            Verdict::NoRule => None,
        }
    }
}
