// Indexes of the rules for a call.
ghost use Rattle.std.specs.Prelude.{◌≡◌, ◌≤◌, ◌<◌, ◌+◌, ◌↔◌, ℕ, List, [], None, IsTrue, length, slice_index_or, IfOk, OnOk};
ghost use Rattle.sb_call.specs.declared.tags.CallTag.{CallTag};
ghost use Rattle.sb_rule.specs.Limits.{most_rules};
ghost use Rattle.sb_rule.specs.declared.policies.Rule.{Rule};
ghost use Rattle.sb_index.specs.Tables.{AreCandidates, AreTables, HasAllThatHold, IsBuckets, PassTables};
ghost use Rattle.sb_index.specs.declared.tables.Table.{Table};

use crate::buckets::Buckets;
use crate::features::{bounds_of, feature_of};
use crate::laws::rules_that_hold_pass;
use crate::sets::RuleSet;
use crate::tables::Table;
use sb_base::NoMemory;
use sb_call::{Arg, CallTag, ParamKind, shape};
use sb_rule::{Rule, Rules};
use std::alloc::Global;
use std::marker::Model;
use std::snapshot::Snapshot;

// The most tables of an index.
const MAX_TABLES: usize = 2;

/// For the arguments of a call the rules that may hold: at most 2 tables, each of at most two bounds for each rule for the tag and one
/// more set than bounds, and 64 sets of buckets. Contracts see the rules and the tag that it is an index of, and what it asks.
pub struct Index {
    tables: Vec<Table>,
    buckets: Option<Buckets>,
    rules: Snapshot<Rules>,
    tag: Snapshot<CallTag>,
}

impl Drop for Index {
    fn drop(self) {
        let Index {
            tables: _,
            buckets: _,
            rules: _,
            tag: _,
        } = self;
    }
}

impl Model for Index {
    ghost use Rattle.sb_index.specs.Tables.{Indexed, IsIndex};

    ghost Value = { Indexed };

    ghost view = { λ i. record { rules = i.rules.value; tag = i.tag.value; tables = i.tables.items; buckets = i.buckets } };

    ghost invariant = { λ i. IsIndex (record { rules = i.rules.value; tag = i.tag.value; tables = i.tables.items; buckets = i.buckets }) };
}

// Puts the table of a parameter to the others, if the rules for the tag differ by its feature.
fn push_table(
    alloc: Global,
    tables: &mut Vec<Table>,
    rules: &[Rule],
    tag: CallTag,
    param: u32,
    kind: ParamKind,
) -> Result<(), NoMemory>
    requires few { length rules.now ≤ most_rules }
    requires two { length tables.old.items ≤ 2 }
    requires tables { AreTables rules.now tag tables.old.items }
    ensures two { OnOk result (length tables.new.items ≤ 2) }
    ensures tables { OnOk result (AreTables rules.now tag tables.new.items) }
{
    let feature = feature_of(alloc, rules, tag, param, kind)?;
    let bounds = bounds_of(alloc, rules, tag, feature)?;
    if bounds.len() > 0 && tables.len() < MAX_TABLES {
        tables.push(Table::new(alloc, rules, tag, feature, bounds)?)?;
    }
    Ok(())
}

fn tables_of(alloc: Global, rules: &[Rule], tag: CallTag) -> Result<Vec<Table>, NoMemory>
    requires { length rules.now ≤ most_rules }
    ensures two { IfOk result (λ tables. length tables.items ≤ 2) }
    ensures tables { IfOk result (λ tables. AreTables rules.now tag tables.items) }
{
    let mut tables = Vec::new(alloc);
    for (param, kind) in shape(tag).iter().enumerate() {
        push_table(alloc, &mut tables, rules, tag, param as u32, *kind)?;
    }
    Ok(tables)
}

fn is_string(kind: &ParamKind) -> bool {
    !kind.is_number()
}

// The first parameter of a call that is a string.
fn first_string(tag: CallTag) -> Option<u32> {
    let at = shape(tag).iter().position(is_string)?;
    Some(at as u32)
}

fn buckets_of(alloc: Global, rules: &[Rule], tag: CallTag) -> Result<Option<Buckets>, NoMemory>
    requires { length rules.now ≤ most_rules }
    ensures { IfOk result (λ buckets. IsBuckets rules.now tag buckets) }
{
    let Some(param) = first_string(tag) else {
        return Ok(None);
    };
    let buckets = Buckets::new(alloc, rules, tag, param)?;
    if buckets.is_empty() {
        Ok(None)
    } else {
        Ok(Some(buckets))
    }
}

impl Index {
    /// The index of the rules for a tag.
    ///
    /// # Errors
    /// `NoMemory` if there was none for the index.
    pub fn new(alloc: Global, rules: &Rules, tag: CallTag) -> Result<Index, NoMemory>
        requires { length rules.now ≤ most_rules }
        ensures rules { IfOk result (λ index. index.rules ≡ rules.now) }
        ensures tag { IfOk result (λ index. index.tag ≡ tag) }
    {
        let tables = tables_of(alloc, rules, tag)?;
        let buckets = buckets_of(alloc, rules, tag)?;
        Ok(Index {
            tables,
            buckets,
            rules: Snapshot::of(rules),
            tag: Snapshot::of(&tag),
        })
    }

    /// Whether the index asks nothing, so that all rules are candidates.
    pub fn is_empty(&self) -> bool
        ensures { IsTrue result ↔ ((self.now.tables ≡ []) × (self.now.buckets ≡ None)) }
    {
        self.tables.is_empty() && self.buckets.is_none()
    }

    /// The candidates: rules that are not in this set do not hold of the arguments. Rules are numbered from 0 among the
    /// rules for the tag. Does not allocate.
    pub fn candidates(&self, args: &[Arg]) -> RuleSet
        ensures { AreCandidates self.now args.now result }
    {
        let mut set = set_by_tables(&self.tables, args);
        if !set.has_several() {
            return set;
        }
        if let Some(buckets) = &self.buckets {
            buckets.narrow(args, &mut set);
        }
        set
    }
}

// The rules that pass all of these tables.
fn set_by_tables(tables: &[Table], args: &[Arg]) -> RuleSet
    requires { (i : ℕ) (d : Table) → i < length tables.now
        → length (slice_index_or tables.now i d).sets.items ≡ length (slice_index_or tables.now i d).bounds + 1 }
    ensures complete { (rules : List Rule) (tag : CallTag) → length rules ≤ most_rules → AreTables rules tag tables.now → HasAllThatHold rules tag args.now result }
    ensures alone { (rules : List Rule) (tag : CallTag) → AreTables rules tag tables.now → PassTables rules tag tables.now args.now result }
{
    rules_that_hold_pass();
    let mut set = RuleSet::all();
    for table in tables {
        table.narrow(args, &mut set);
    }
    set
}
