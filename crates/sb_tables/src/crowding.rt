// A directory with 100,000 names: adding, finding and renaming each of them.
ghost use Rattle.std.specs.Prelude.{◌≡◌, true};
ghost use Rattle.sb_base.specs.Names.{is_name_of};

use sb_base::{NoMemory, Wide, is_name};
use sb_names::{Lookup, NameTree, is_below};
use sb_rows::RowFault;
use std::alloc::Global;

// How many names there are.
const MANY: u64 = 100_000;

const BACKSLASH: u16 = 92;

// The letters `d`, `n` and `m`.
const DIRECTORY: u16 = 100;

const OLD: u16 = 110;

const NEW: u16 = 109;

/// Makes a tree of the directory and its names, in these rounds.
pub fn adds(alloc: Global, rounds: u64) -> Result<String, RowFault> {
    let names = names(alloc, OLD)?;
    let mut added: u64 = 0;
    for _round in 0..rounds {
        let mut tree = directory(alloc)?;
        added = added.saturating_add(add_all(&mut tree, &names)?);
    }
    Ok(format!(in alloc; "added {added}")?)
}

/// Looks for each name in the tree, in these rounds.
pub fn finds(alloc: Global, rounds: u64) -> Result<String, RowFault> {
    let names = names(alloc, OLD)?;
    let tree = crowd(alloc, &names)?;
    let mut found: u64 = 0;
    for _round in 0..rounds {
        found = found.saturating_add(found_names(&tree, &names));
    }
    Ok(format!(in alloc; "found {found}")?)
}

/// Renames each name in the tree, and back again, in these rounds.
pub fn renames(alloc: Global, rounds: u64) -> Result<String, RowFault> {
    let old = names(alloc, OLD)?;
    let new = names(alloc, NEW)?;
    let renamed = renamed(alloc, &old, &new, rounds)?;
    Ok(format!(in alloc; "renamed {renamed}")?)
}

// How many renames were made, there and back.
fn renamed(alloc: Global, old: &[Wide], new: &[Wide], rounds: u64) -> Result<u64, NoMemory> {
    let mut tree = crowd(alloc, old)?;
    let mut renamed: u64 = 0;
    for _round in 0..rounds {
        let there = rename_all(&mut tree, old, new)?;
        let back = rename_all(&mut tree, new, old)?;
        renamed = renamed.saturating_add(there).saturating_add(back);
    }
    Ok(renamed)
}

// A tree of the directory and these names.
fn crowd(alloc: Global, names: &[Wide]) -> Result<NameTree, NoMemory> {
    let mut tree = directory(alloc)?;
    add_all(&mut tree, names)?;
    Ok(tree)
}

// A tree of the directory `\d` alone.
fn directory(alloc: Global) -> Result<NameTree, NoMemory> {
    let mut tree = NameTree::new(alloc);
    let name = [BACKSLASH, DIRECTORY];
    if is_name(&name) {
        add(&mut tree, &name)?;
    }
    Ok(tree)
}

// The names in the directory: a letter and five digits each.
fn names(alloc: Global, letter: u16) -> Result<Vec<Wide>, NoMemory> {
    let mut names = Vec::new(alloc);
    for number in 0..MANY {
        names.push(name(alloc, letter, number)?)?;
    }
    Ok(names)
}

fn name(alloc: Global, letter: u16, number: u64) -> Result<Wide, NoMemory> {
    let units = [
        BACKSLASH,
        DIRECTORY,
        BACKSLASH,
        letter,
        digit(number / 10_000),
        digit(number / 1_000),
        digit(number / 100),
        digit(number / 10),
        digit(number),
    ];
    Ok(Wide::new(Vec::from_slice(alloc, &units)?))
}

// The last digit of a number.
fn digit(number: u64) -> u16 {
    (number % 10) as u16 + 48
}

fn add_all(tree: &mut NameTree, names: &[Wide]) -> Result<u64, NoMemory> {
    let mut added: u64 = 0;
    for name in names {
        let units = name.as_units();
        if is_name(units) && add(tree, units)? {
            added = added.saturating_add(1);
        }
    }
    Ok(added)
}

fn found_names(tree: &NameTree, names: &[Wide]) -> u64 {
    let mut found: u64 = 0;
    for name in names {
        let units = name.as_units();
        if is_name(units) && is_there(tree, units) {
            found = found.saturating_add(1);
        }
    }
    found
}

fn rename_all(tree: &mut NameTree, old: &[Wide], new: &[Wide]) -> Result<u64, NoMemory> {
    let mut renamed: u64 = 0;
    for pair in old.iter().zip(new.iter()) {
        let (from, to) = (pair.0.as_units(), pair.1.as_units());
        if is_name(from) && is_name(to) && rename(tree, from, to)? {
            renamed = renamed.saturating_add(1);
        }
    }
    Ok(renamed)
}

// Adds a name, if its directory is there and it is not.
fn add(tree: &mut NameTree, name: &[u16]) -> Result<bool, NoMemory>
    requires { is_name_of name.now ≡ true }
{
    let Lookup::Absent { directory, .. } = tree.seek(name) else {
        return Ok(false);
    };
    tree.add_at(directory, name, 1)?;
    Ok(true)
}

// Whether a name is there.
fn is_there(tree: &NameTree, name: &[u16]) -> bool
    requires { is_name_of name.now ≡ true }
{
    match tree.seek(name) {
        Lookup::There { .. } => true,
        _ => false,
    }
}

// Renames a name, if it is there, and the new one is neither there nor below it, and has a directory.
fn rename(tree: &mut NameTree, from: &[u16], to: &[u16]) -> Result<bool, NoMemory>
    requires from { is_name_of from.now ≡ true }
    requires to { is_name_of to.now ≡ true }
{
    let Lookup::There { node, .. } = tree.seek(from) else {
        return Ok(false);
    };
    if is_below(from, to) {
        return Ok(false);
    }
    let Lookup::Absent { directory, .. } = tree.seek(to) else {
        return Ok(false);
    };
    tree.rename_at(node, directory, from, to)?;
    Ok(true)
}
