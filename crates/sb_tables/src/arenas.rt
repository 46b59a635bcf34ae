// Table tests of the arena: steps on it, one after another, and what each gives.
ghost use Rattle.std.specs.Prelude.{IfOk};
ghost use Rattle.sb_arena.specs.Forests.{IsLive};

use sb_arena::{Arena, NodeId};
use sb_rows::{RowFault, number, put_between};
use std::alloc::Global;

/// What steps on an arena give that has no nodes at first. Semicolons separate the steps, and what they give.
pub fn told_steps(alloc: Global, parts: &[&str]) -> Result<String, RowFault> {
    let [steps] = parts else {
        return Err(RowFault::Unknown);
    };
    let mut arena = Arena::new(alloc);
    let mut out = String::new(alloc);
    for step in steps.split(';') {
        let told = told_step(alloc, &mut arena, step.trim_ascii())?;
        put_between(&mut out, "; ")?;
        out.push_str(told.as_str())?;
    }
    Ok(out)
}

// What a step gives.
fn told_step(alloc: Global, arena: &mut Arena<u64>, step: &str) -> Result<String, RowFault> {
    let (name, rest) = step.split_once(' ').unwrap_or((step, ""));
    match rest.split_once(' ') {
        Some((first, second)) => change_by_two(
            alloc,
            arena,
            name,
            (number(first)?, number(second)?),
        ),
        None => match rest {
            "" => told_room(alloc, arena, name),
            _ => told_node(alloc, arena, name, number(rest)?),
        },
    }
}

// What a step without a number gives.
fn told_room(alloc: Global, arena: &mut Arena<u64>, name: &str) -> Result<String, RowFault> {
    match name {
        "vacant" => Ok(format!(in alloc; "{}", arena.vacant().0)?),
        "reserve" => {
            arena.reserve()?;
            Ok(String::from_str(alloc, "ok")?)
        }
        _ => Err(RowFault::Unknown),
    }
}

// What a step with one number gives.
fn told_node(
    alloc: Global,
    arena: &mut Arena<u64>,
    name: &str,
    number: u64,
) -> Result<String, RowFault> {
    match name {
        "add" => add(alloc, arena, number),
        "unlink" | "free" => change_node(alloc, arena, name, number),
        "is_live" => Ok(format!(in alloc; "{}", arena.is_live(NodeId(number)))?),
        _ => told_links(alloc, arena, name, number),
    }
}

fn add(alloc: Global, arena: &mut Arena<u64>, value: u64) -> Result<String, RowFault> {
    match arena.add(value) {
        Ok(node) => Ok(format!(in alloc; "{}", node.0)?),
        Err(_) => Err(RowFault::NoMemory),
    }
}

// A node that is there.
fn live_node(arena: &Arena<u64>, number: u64) -> Result<NodeId, RowFault>
    ensures { IfOk result (λ node. IsLive arena.now node.0) }
{
    let node = NodeId(number);
    if !arena.is_live(node) {
        return Err(RowFault::NotInRange);
    }
    Ok(node)
}

// The parent, the first child, the next sibling or the value of a node.
fn told_links(
    alloc: Global,
    arena: &Arena<u64>,
    name: &str,
    number: u64,
) -> Result<String, RowFault> {
    let node = live_node(arena, number)?;
    match name {
        "parent" => told_id(alloc, arena.parent(node)),
        "first_child" => told_id(alloc, arena.first_child(node)),
        "next" => told_id(alloc, arena.next(node)),
        "value" => Ok(format!(in alloc; "{}", *arena.value(node))?),
        _ => Err(RowFault::Unknown),
    }
}

fn told_id(alloc: Global, node: Option<NodeId>) -> Result<String, RowFault> {
    Ok(match node {
        Some(node) => format!(in alloc; "{}", node.0)?,
        None => String::from_str(alloc, "none")?,
    })
}

// Takes a node away from its parent, or frees it.
fn change_node(
    alloc: Global,
    arena: &mut Arena<u64>,
    name: &str,
    number: u64,
) -> Result<String, RowFault> {
    let node = live_node(arena, number)?;
    match name {
        "unlink" => {
            arena.unlink(node);
            Ok(String::from_str(alloc, "ok")?)
        }
        _ => free(alloc, arena, node),
    }
}

// Frees a node that has neither parent nor children. What it gives is the value of the node.
fn free(alloc: Global, arena: &mut Arena<u64>, node: NodeId) -> Result<String, RowFault>
    requires { IsLive arena.old node.0 }
{
    if arena.parent(node).is_some() || arena.first_child(node).is_some() {
        return Err(RowFault::NotInRange);
    }
    let value = arena.free(node);
    Ok(format!(in alloc; "{value}")?)
}

// Links a node below another, or gives it another value.
fn change_by_two(
    alloc: Global,
    arena: &mut Arena<u64>,
    name: &str,
    numbers: (u64, u64),
) -> Result<String, RowFault> {
    let node = live_node(arena, numbers.0)?;
    match name {
        "link" => link(alloc, arena, node, numbers.1),
        "set" => Ok(format!(in alloc; "{}", arena.set(node, numbers.1))?),
        _ => Err(RowFault::Unknown),
    }
}

// Makes a node that has neither parent nor children the last child of another.
fn link(
    alloc: Global,
    arena: &mut Arena<u64>,
    child: NodeId,
    parent: u64,
) -> Result<String, RowFault>
    requires { IsLive arena.old child.0 }
{
    arena.establish_forest();
    let parent = live_node(arena, parent)?;
    if arena.parent(child).is_some() || arena.first_child(child).is_some() || child.0 == parent.0 {
        return Err(RowFault::NotInRange);
    }
    arena.link(child, parent);
    Ok(String::from_str(alloc, "ok")?)
}
