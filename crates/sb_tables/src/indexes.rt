// Table tests of indexes: how many rules one leaves out.

use sb_call::CallTag;
use sb_index::{Index, RuleSet};
use sb_rows::{RowFault, call, number, wide};
use sb_rule::{Action, Cond, Conds, MAX_RULES, Rule, Rules, Test};
use std::alloc::Global;

/// The numbers of the rules that an index leaves for a call, where this many rules allow `file.open`, each for one name: this text and the
/// number of the rule.
pub fn candidates(alloc: Global, text: &str, count: &str, name: &str) -> Result<String, RowFault> {
    let rules = numbered_rules(alloc, number(count)?, name)?;
    told_set(alloc, &left_for(alloc, text, &rules)?, rules.len())
}

// The rules that their index leaves for a call.
fn left_for(alloc: Global, text: &str, rules: &Rules) -> Result<RuleSet, RowFault> {
    let (tag, args) = call(alloc, text)?;
    if rules.len() > MAX_RULES {
        return Err(RowFault::TooMany);
    }
    let index = Index::new(alloc, rules, tag)?;
    Ok(index.candidates(&args))
}

fn numbered_rules(alloc: Global, count: u64, name: &str) -> Result<Rules, RowFault> {
    let mut rules = Rules::new(Vec::new(alloc));
    for number in 0..count {
        rules.push(rule_for(alloc, name, number)?)?;
    }
    Ok(rules)
}

// The test for a name: this text and the number.
fn test_for(alloc: Global, name: &str, number: u64) -> Result<Test, RowFault> {
    let name = format!(in alloc; "{name}{number}")?;
    Ok(Test::Equal(wide(alloc, name.as_str())?))
}

// The rule that allows `file.open` for the name with this number.
fn rule_for(alloc: Global, name: &str, number: u64) -> Result<Rule, RowFault> {
    let test = test_for(alloc, name, number)?;
    let mut conds = Conds::new(Vec::new(alloc));
    conds.push(Cond {
        param: 0,
        negated: false,
        test,
    })?;
    Ok(Rule {
        tag: CallTag::FileOpen,
        conds,
        action: Action::Allow,
        line: 3,
    })
}

fn told_set(alloc: Global, set: &RuleSet, count: usize) -> Result<String, RowFault> {
    let mut told = String::from_str(alloc, "candidates")?;
    for number in 0..count {
        if set.next_from(number) == Some(number) {
            write!(told, " {number}")?;
        }
    }
    Ok(told)
}
