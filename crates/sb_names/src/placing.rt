// What changes a tree of names: room for a name, a name more, and a name renamed.
ghost use Rattle.std.specs.Prelude.{◌≡◌, None, true, false, Some, OnErr, IfOk, ◌++◌, ◌∷◌, Ok, IfErr, OnOk, map};
ghost use Rattle.sb_arena.specs.Forests.{IsLive, parent_of as node_parent, HasVacancy, node_number};
ghost use Rattle.sb_names.specs.Nodes.{IsApart, IsThere, hung, number_of, IsAt, IsChanged, KeepsNodes, rows_of, HasNoChild, KeepsAllBut, KeepsOtherNodes, KeepsRows, MovesEntry, hash_at, name_of};
ghost use Rattle.std.specs.BTreeMap.{insert_entry, IsUnchanged};
ghost use Rattle.std.specs.Cmp.Lexicographic.{slice_cmp};
ghost use Rattle.std.specs.Ordering.{nat_cmp};
ghost use Rattle.sb_base.specs.Names.{is_name_of, is_component};
ghost use Rattle.sb_names.specs.Keys.{key_of, parent_of, is_below};
ghost use Rattle.sb_names.specs.Rooms.{HasRoomFor, IsFreeFor, key_for};
ghost use Rattle.sb_names.specs.Maps.{found};
ghost use Rattle.sb_names.specs.Renames.{collected, renamed_key, renamed_rows, renamed_tree};

use crate::keys::hash_of;
use crate::trees::{NameNode, NameTree, hash_at, last_component};
use sb_arena::{
    Arena, NodeId, calls_change_one_value, links_change_one_parent, vacancies_change_nothing,
};
use sb_base::{NoMemory, Wide};
use std::collections::BTreeMap;

// Links a node without parent into a directory.
pub(crate) fn hang(nodes: &mut Arena<NameNode>, node: NodeId, directory: Option<NodeId>)
    requires node { IsLive nodes.old node.0 }
    requires root { node_parent nodes.old node.0 ≡ None }
    requires there { IsThere nodes.old (number_of directory) }
    requires apart { IsApart nodes.old node.0 (number_of directory) }
    ensures { nodes.new ≡ hung nodes.old node.0 (number_of directory) }
{
    match directory {
        Some(directory) => nodes.link(node, directory),
        None => {}
    }
}

/// A name that is to be added to a tree, with memory of its own.
#[derive(Drop)]
pub struct NewName {
    /// The node of its directory, or None for the root.
    pub directory: Option<NodeId>,
    /// Its last component, as it is spelled.
    pub part: Wide,
    /// The object to which it is to lead.
    pub object: u64,
}

// Adds a node in a directory that is there, if a node is free.
fn place_node(nodes: &mut Arena<NameNode>, directory: Option<NodeId>, node: NameNode)
    requires there { IsThere nodes.old (number_of directory) }
    requires vacant { HasVacancy nodes.old }
    ensures { IsChanged nodes.old nodes.new (node_number nodes.old) (Some node) (number_of directory) }
{
    nodes.establish_forest();
    links_change_one_parent::<NameNode>();
    calls_change_one_value::<NameNode>();
    let Ok(number) = nodes.add(node) else {
        unreachable!();
    };
    nodes.establish_forest();
    hang(nodes, number, directory);
}

impl NameTree {
    /// Allocates what a name with its object needs in its directory, as `seek` gave it, so that `add_reserved` can add the
    /// name. The names stay as they are.
    ///
    /// # Errors
    /// `NoMemory` if there is none for the name; then nothing is changed.
    pub fn reserve_at(
        &mut self,
        directory: Option<NodeId>,
        name: &[u16],
        object: u64,
    ) -> Result<NewName, NoMemory>
        requires name { is_name_of name.now ≡ true }
        requires at { IsAt self.old.nodes (number_of directory) (key_of (parent_of name.now)) }
        ensures room { IfOk result (λ new. HasRoomFor self.new new) }
        ensures key { IfOk result (λ new. key_for self.new.nodes new ≡ key_of name.now) }
        ensures object { IfOk result (λ new. new.object ≡ object) }
        ensures rows { rows_of self.new.nodes ≡ rows_of self.old.nodes }
        ensures nodes { KeepsNodes self.old.nodes self.new.nodes }
        ensures err { OnErr result (self.new.nodes ≡ self.old.nodes) }
    {
        self.establish_names();
        calls_change_one_value::<NameNode>();
        vacancies_change_nothing::<NameNode>();
        let (_, part) = last_component(name);
        let new = NewName {
            directory,
            part: Wide::from_units(self.alloc, part)?,
            object,
        };
        let hash = hash_of(directory, part);
        // An entry without its node does no harm, so that it stays if there is no memory for the node.
        let number = self.nodes.vacant().0;
        self.index.insert((hash, number), ())?;
        self.objects.insert((object, number), ())?;
        self.nodes.reserve()?;
        self.nodes.establish_forest();
        Ok(new)
    }

    /// Adds a name that is not there. There is room for it, so that nothing is allocated.
    pub fn add_reserved(&mut self, new: NewName)
        requires room { HasRoomFor self.old new }
        requires free { IsFreeFor self.old.nodes new }
        ensures rows { rows_of self.new.nodes ≡ insert_entry (slice_cmp nat_cmp) (rows_of self.old.nodes) (key_for self.old.nodes new) new.object }
        ensures nodes { KeepsNodes self.old.nodes self.new.nodes }
    {
        self.establish_names();
        calls_change_one_value::<NameNode>();
        let NewName {
            directory,
            part,
            object,
        } = new;
        place_node(&mut self.nodes, directory, NameNode { part, object });
        self.nodes.establish_forest();
    }
}

// Gives a node another value and another directory.
fn move_node(nodes: &mut Arena<NameNode>, node: NodeId, directory: Option<NodeId>, value: NameNode)
    requires live { IsLive nodes.old node.0 }
    requires there { IsThere nodes.old (number_of directory) }
    requires apart { IsApart nodes.old node.0 (number_of directory) }
    ensures { IsChanged nodes.old nodes.new node.0 (Some value) (number_of directory) }
{
    nodes.establish_forest();
    links_change_one_parent::<NameNode>();
    calls_change_one_value::<NameNode>();
    nodes.unlink(node);
    let _ = nodes.set(node, value);
    nodes.establish_forest();
    hang(nodes, node, directory);
}

// Puts a node under another hash, and takes its entry under the old one out.
fn reindex(
    index: &mut BTreeMap<(u64, u64), ()>,
    node: u64,
    old_hash: u64,
    hash: u64,
) -> Result<(), NoMemory>
    ensures moved { OnOk result (MovesEntry index.old.entries index.new.entries node old_hash hash) }
    ensures err { OnErr result (IsUnchanged index.old index.new) }
{
    index.insert((hash, node), ())?;
    if old_hash == hash {
        return Ok(());
    }
    index.remove(&(old_hash, node));
    Ok(())
}

impl NameTree {
    // Gives a node another component in a directory that is neither the node nor below it.
    fn put_elsewhere(
        &mut self,
        node: NodeId,
        directory: Option<NodeId>,
        part: &[u16],
    ) -> Result<(), NoMemory>
        requires live { IsLive self.old.nodes node.0 }
        requires there { IsThere self.old.nodes (number_of directory) }
        requires apart { IsApart self.old.nodes node.0 (number_of directory) }
        requires part { is_component part.now ≡ true }
        requires absent { HasNoChild self.old.nodes (number_of directory) (key_of part.now) }
        ensures rows { OnOk result (rows_of self.new.nodes ≡ collected (map (λ row. (renamed_key (name_of self.old.nodes (Some node.0)) (name_of self.old.nodes (number_of directory) ++ 92 ∷ key_of part.now) row.0, row.1)) (rows_of self.old.nodes))) }
        ensures kept { OnOk result (KeepsRows self.old.nodes self.new.nodes (name_of self.old.nodes (Some node.0)) (name_of self.old.nodes (number_of directory) ++ 92 ∷ key_of part.now)) }
        ensures others { OnOk result (KeepsOtherNodes self.old.nodes self.new.nodes node.0) }
        ensures entry { OnOk result (MovesEntry self.old.index self.new.index node.0 (hash_at self.old.nodes node.0) (hash_at self.new.nodes node.0)) }
        ensures err { OnErr result (self.new.nodes ≡ self.old.nodes) }
    {
        self.establish_names();
        let old_hash = hash_at(&self.nodes, node);
        let hash = hash_of(directory, part);
        let renamed = NameNode {
            part: Wide::from_units(self.alloc, part)?,
            object: self.nodes.value(node).object,
        };
        reindex(&mut self.index, node.0, old_hash, hash)?;
        move_node(&mut self.nodes, node, directory, renamed);
        self.nodes.establish_forest();
        Ok(())
    }

    /// Gives a name and all below it a new name, which is not there and does not lie below the old one, in its directory: with
    /// the node of the old name and the directory of the new one, as `seek` gave them. Objects and nodes stay, and the index has no
    /// more entries than before.
    ///
    /// # Errors
    /// `NoMemory` if there is none for the new component; then nothing is changed.
    #[tactic(auto, using(crate::proofs::AddLemmas::at_there))]
    pub fn rename_at(
        &mut self,
        node: NodeId,
        directory: Option<NodeId>,
        from: &[u16],
        to: &[u16],
    ) -> Result<(), NoMemory>
        requires to { is_name_of to.now ≡ true }
        requires node { IsAt self.old.nodes (Some node.0) (key_of from.now) }
        requires directory { IsAt self.old.nodes (number_of directory) (key_of (parent_of to.now)) }
        requires outside { is_below (key_of from.now) (key_of to.now) ≡ false }
        requires absent { found (rows_of self.old.nodes) to.now ≡ None }
        ensures rows { OnOk result (rows_of self.new.nodes ≡ renamed_rows (rows_of self.old.nodes) from.now to.now) }
        ensures kept { OnOk result (KeepsRows self.old.nodes self.new.nodes (key_of from.now) (key_of to.now)) }
        ensures others { OnOk result (KeepsAllBut self.old.nodes self.new.nodes (key_of from.now)) }
        ensures entry { OnOk result (MovesEntry self.old.index self.new.index node.0 (hash_at self.old.nodes node.0) (hash_at self.new.nodes node.0)) }
        ensures err { OnErr result (self.new.nodes ≡ self.old.nodes) }
    {
        self.establish_names();
        let (_, part) = last_component(to);
        self.put_elsewhere(node, directory, part)
    }
}
