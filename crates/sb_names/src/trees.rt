// A tree of names kept as linked nodes: each keeps one component, and its name is the path from the root.
ghost use Rattle.std.specs.Prelude.{◌≡◌, ◌≤◌, ◌<◌, ◌^◌, not, [], ◌++◌, ◌∷◌, true, false, Some, None, IfSome, IfNone, length, OnOk, OnErr, IfOk, reverse};
ghost use Rattle.std.specs.List.{list_any, prefix_len};
ghost use Rattle.sb_arena.specs.Forests.{Agrees, HasLiveLinks, HasSingleChildren, IsShallow, IsSound, no_nodes, parent_of as node_parent, IsLive, value_at};
ghost use Rattle.sb_base.specs.Names.{is_component, is_name_of};
ghost use Rattle.sb_names.specs.Keys.{key_of, parent_of, is_backslash};
ghost use Rattle.sb_names.specs.Hashes.{hash_of};
ghost use Rattle.sb_names.specs.Maps.{Rises, found, put};
ghost use Rattle.sb_names.specs.Trees.{AreFolded, AreNamed, IsTree, has_parent};
ghost use Rattle.sb_names.specs.Nodes.{HasNames, HasNoChild, HasOneNodeEach, IsAt, IsChild, IsUnnamed, is_child, is_path, is_same_node, key_at, number_of, object_at, rows_of, IsThere, KeepsNodes, name_of};
ghost use Rattle.sb_names.specs.Seeks.{IsSought, has_directory, object_by};
ghost use Rattle.sb_names.specs.Objects.{HasNoHolder, IsNameOf, has_object};

use crate::keys::{hash_of, parent_len};
use sb_arena::{Arena, NodeId};
use sb_base::{
    BACKSLASH, NoMemory, Wide, eq_ignore_ascii_case, names_are_paths, paths_are_names,
    to_ascii_uppercase,
};
use std::alloc::Global;
use std::collections::BTreeMap;
use std::marker::Model;

// A name in its directory.
pub(crate) struct NameNode {
    // The last component of the name, as it was spelled when the node was added or renamed.
    pub(crate) part: Wide,
    // The object that the name leads to.
    pub(crate) object: u64,
}

impl Drop for NameNode {
    fn drop(self) {
        let NameNode { part: _, object: _ } = self;
    }
}

// The hash of a node.
pub(crate) fn hash_at(nodes: &Arena<NameNode>, node: NodeId) -> u64
    requires { IsLive nodes.now node.0 }
    ensures { result ≡ hash_of (node_parent nodes.now node.0) (key_at nodes.now node.0) }
{
    hash_of(nodes.parent(node), nodes.value(node).part.as_units())
}

/// The names of objects, each in a directory that is there; the root is there always, and is no name of its own.
///
/// Names are compared folded. Each call walks the components of a name from the root, and finds each by an index: a hash of
/// 64 bits that anybody can compute. Components that were made to have one hash in their directory are compared one after the
/// other, so that k of them take time in the square of k.
pub struct NameTree {
    pub(crate) nodes: Arena<NameNode>,
    // Each node under the hash of its directory and component.
    pub(crate) index: BTreeMap<(u64, u64), ()>,
    // Each node under its object.
    pub(crate) objects: BTreeMap<(u64, u64), ()>,
    pub(crate) alloc: Global,
}

impl Drop for NameTree {
    fn drop(self) {
        let NameTree {
            nodes: _,
            index: _,
            objects: _,
            alloc: _,
        } = self;
    }
}

impl Model for NameTree {
    ghost use Rattle.std.specs.BTreeMap.{get};
    ghost use Rattle.sb_names.specs.Nodes.{HasNames, IsIndexed};
    ghost use Rattle.sb_names.specs.Objects.{HasObjects};
    ghost use Rattle.sb_base.specs.Orders.{by_pair};
    ghost use Rattle.sb_names.specs.Rooms.{Tree};

    ghost Value = { Tree };

    ghost view = { λ t. record { nodes = t.nodes; index = t.index.entries; objects = t.objects.entries } };

    ghost invariant = { λ t. HasNames t.nodes × IsIndexed (get by_pair t.index) t.nodes × HasObjects (get by_pair t.objects) t.nodes };
}

// Whether two directories are the same.
fn is_same_node(a: Option<NodeId>, b: Option<NodeId>) -> bool
    ensures { result ≡ is_same_node (number_of a) (number_of b) }
{
    match (a, b) {
        (None, None) => true,
        (Some(a), Some(b)) => a.0 == b.0,
        _ => false,
    }
}

// Whether a node is that of a component in a directory.
fn is_child(nodes: &Arena<NameNode>, directory: Option<NodeId>, part: &[u16], node: NodeId) -> bool
    ensures { result ≡ is_child nodes.now (number_of directory) (key_of part.now) node.0 }
{
    if !nodes.is_live(node) {
        return false;
    }
    if !is_same_node(nodes.parent(node), directory) {
        return false;
    }
    eq_ignore_ascii_case(nodes.value(node).part.as_units(), part)
}

// How many units are before the first `\`.
fn component_len(units: &[u16]) -> usize
    ensures len { result ≡ prefix_len (λ u. not (is_backslash u)) units.now }
    ensures short { result ≤ length units.now }
{
    let mut len = 0;
    while len < units.len() && units[len] != BACKSLASH {
        len += 1;
    }
    len
}

// The first component, and the path that follows.
#[tactic(auto, using(crate::proofs::NameLemmas::first_part, crate::proofs::NameLemmas::first_rest, crate::proofs::NameLemmas::parts_join))]
fn first_component(units: &[u16]) -> (&[u16], &[u16])
    ensures whole { units.now ≡ result.0.now ++ result.1.now }
    ensures part { list_any is_backslash result.0.now ≡ false }
    ensures path { is_path result.1.now ≡ true }
{
    units.split_at(component_len(units))
}

// The directory of a name, and its last component.
#[tactic(auto, using(crate::proofs::PathLemmas::last_cut, crate::proofs::PathLemmas::last_parent, crate::proofs::KeyLemmas::parent_start, crate::proofs::KeyLemmas::parent_short))]
pub(crate) fn last_component(name: &[u16]) -> (&[u16], &[u16])
    requires { is_name_of name.now ≡ true }
    ensures directory { result.0.now ≡ parent_of name.now }
    ensures whole { name.now ≡ parent_of name.now ++ 92 ∷ result.1.now }
    ensures part { is_component result.1.now ≡ true }
    ensures path { is_path (parent_of name.now) ≡ true }
{
    names_are_paths();
    let (directory, rest) = name.split_at(parent_len(name));
    match rest.split_first() {
        Some((_, part)) => (directory, part),
        None => (directory, rest),
    }
}

impl NameTree {
    /// No name is there.
    #[tactic(auto, using(crate::proofs::NodeLemmas::no_names))]
    pub fn new(alloc: Global) -> NameTree
        ensures nodes { result.nodes ≡ no_nodes }
        ensures rows { rows_of result.nodes ≡ [] }
    {
        NameTree {
            nodes: Arena::new(alloc),
            index: BTreeMap::new(alloc),
            objects: BTreeMap::new(alloc),
            alloc,
        }
    }

    /// Establishes for a proof what holds of every tree. It does nothing.
    pub fn establish_names(&self)
        ensures names { HasNames self.now.nodes }
        ensures shallow { IsShallow self.now.nodes.rows }
        ensures live { HasLiveLinks self.now.nodes }
        ensures agree { Agrees self.now.nodes }
        ensures sound { IsSound self.now.nodes }
        ensures even { length self.now.nodes.rows ≡ length self.now.nodes.values }
        ensures single { HasSingleChildren self.now.nodes }
        ensures small { length self.now.nodes.rows < 2 ^ 64 }
    {
        self.nodes.establish_forest();
    }

    /// Establishes for a proof what holds of the names of every tree: each is a name in a directory that is there,
    /// they are folded and rise, and no two nodes have one name. It does nothing.
    #[tactic(auto, using(crate::proofs::TreeLemmas::rows_are_tree, crate::proofs::TreeLemmas::rows_are_folded, crate::proofs::Named::rows_are_named, crate::proofs::NodeLemmas::one_node, crate::proofs::NodeLemmas::rows_rise))]
    pub fn establish_tree(&self)
        ensures tree { IsTree (rows_of self.now.nodes) }
        ensures named { AreNamed (rows_of self.now.nodes) }
        ensures folded { AreFolded (rows_of self.now.nodes) }
        ensures rise { Rises (rows_of self.now.nodes) }
        ensures one { HasOneNodeEach self.now.nodes }
    {
        self.establish_names();
        paths_are_names();
    }

    // The node of a component in a directory.
    pub(crate) fn child(&self, directory: Option<NodeId>, part: &[u16]) -> Option<NodeId>
        ensures found { IfSome result (λ node. IsChild self.now.nodes (number_of directory) (key_of part.now) node.0) }
        ensures absent { IfNone result (HasNoChild self.now.nodes (number_of directory) (key_of part.now)) }
    {
        let hash = hash_of(directory, part);
        for ((_, number), _) in self.index.range((hash, 0)..=(hash, u64::MAX)) {
            let node = NodeId(*number);
            if is_child(&self.nodes, directory, part, node) {
                return Some(node);
            }
        }
        None
    }

    // The directory of this name, the root of an empty one: None if it is not there.
    #[tactic(auto, using(crate::proofs::NodeLemmas::walked_on, crate::proofs::NodeLemmas::walk_ends))]
    pub(crate) fn directory(&self, path: &[u16]) -> Option<Option<NodeId>>
        requires { is_path path.now ≡ true }
        ensures found { IfSome result (λ d. IsAt self.now.nodes (number_of d) (key_of path.now)) }
        ensures absent { IfNone result (IsUnnamed self.now.nodes (key_of path.now)) }
        ensures root { IfNone result (path.now ≡ [] → ⊥) }
    {
        self.establish_names();
        let mut here = None;
        let mut rest = path;
        while let Some((_, later)) = rest.split_first() {
            let (part, after) = first_component(later);
            let Some(node) = self.child(here, part) else {
                return None;
            };
            here = Some(node);
            rest = after;
        }
        Some(here)
    }
}

/// Where the path of a name leads.
#[derive(Clone, Copy)]
pub enum Lookup {
    /// The directory of the name is not there.
    NoDirectory,
    /// The directory is there, and the name is not.
    Absent {
        /// The node of the directory, or None for the root.
        directory: Option<NodeId>,
        /// The object of the directory, or None for the root.
        parent: Option<u64>,
    },
    /// The name is there.
    There {
        /// The object of its directory, or None for the root.
        parent: Option<u64>,
        /// Its node.
        node: NodeId,
        /// Its object.
        object: u64,
    },
}

impl NameTree {
    // The object of a directory, or None for the root.
    fn object_of(&self, directory: Option<NodeId>) -> Option<u64>
        requires { IsThere self.now.nodes (number_of directory) }
        ensures { result ≡ object_by self.now.nodes (number_of directory) }
    {
        match directory {
            Some(node) => Some(self.nodes.value(node).object),
            None => None,
        }
    }

    /// Walks the path of a name from the root, once, and tells where it leads.
    #[tactic(auto, using(crate::proofs::AddLemmas::at_there))]
    pub fn seek(&self, name: &[u16]) -> Lookup
        requires { is_name_of name.now ≡ true }
        ensures sought { IsSought self.now.nodes name.now result }
        ensures parent { has_parent (rows_of self.now.nodes) name.now ≡ has_directory result }
    {
        self.establish_names();
        let (path, part) = last_component(name);
        let Some(directory) = self.directory(path) else {
            return Lookup::NoDirectory;
        };
        let parent = self.object_of(directory);
        match self.child(directory, part) {
            Some(node) => Lookup::There {
                parent,
                node,
                object: self.nodes.value(node).object,
            },
            None => Lookup::Absent { directory, parent },
        }
    }

    /// Adds a name that is not there with its object, in its directory, as `seek` gave it.
    ///
    /// # Errors
    /// `NoMemory` if there is none for the name; then nothing is changed.
    pub fn add_at(
        &mut self,
        directory: Option<NodeId>,
        name: &[u16],
        object: u64,
    ) -> Result<(), NoMemory>
        requires name { is_name_of name.now ≡ true }
        requires at { IsAt self.old.nodes (number_of directory) (key_of (parent_of name.now)) }
        requires absent { found (rows_of self.old.nodes) name.now ≡ None }
        ensures rows { OnOk result (rows_of self.new.nodes ≡ put (rows_of self.old.nodes) name.now object) }
        ensures nodes { OnOk result (KeepsNodes self.old.nodes self.new.nodes) }
        ensures err { OnErr result (self.new.nodes ≡ self.old.nodes) }
    {
        let new = self.reserve_at(directory, name, object)?;
        self.add_reserved(new);
        Ok(())
    }
}

// Whether a node is there and has this object.
fn has_object(nodes: &Arena<NameNode>, node: NodeId, number: u64) -> bool
    ensures { result ≡ has_object (value_at nodes.now node.0) number }
{
    if !nodes.is_live(node) {
        return false;
    }
    nodes.value(node).object == number
}

// Appends a component, folded, and the `\` before it, the last unit first.
fn push_backwards(units: &mut Vec<u16>, part: &[u16]) -> Result<(), NoMemory>
    ensures { OnOk result (reverse units.new.items ≡ 92 ∷ (key_of part.now ++ reverse units.old.items)) }
{
    let mut rest = part;
    while let Some((unit, before)) = rest.split_last() {
        units.push(to_ascii_uppercase(*unit))?;
        rest = before;
    }
    units.push(BACKSLASH)?;
    Ok(())
}

impl NameTree {
    // A node with this object.
    fn holder(&self, number: u64) -> Option<NodeId>
        ensures found { IfSome result (λ node. has_object (value_at self.now.nodes node.0) number ≡ true) }
        ensures absent { IfNone result (HasNoHolder self.now.nodes number) }
    {
        for ((_, node), _) in self.objects.range((number, 0)..=(number, u64::MAX)) {
            let node = NodeId(*node);
            if has_object(&self.nodes, node, number) {
                return Some(node);
            }
        }
        None
    }

    // The folded name of a node: its component and those of the directories above it, from the last to the first.
    #[tactic(auto, using(crate::proofs::ObjectLemmas::at_root, crate::proofs::ObjectLemmas::shorter_above))]
    fn name_at(&self, node: NodeId) -> Result<Wide, NoMemory>
        requires { IsLive self.now.nodes node.0 }
        ensures { IfOk result (λ name. name ≡ name_of self.now.nodes (Some node.0)) }
    {
        self.establish_names();
        let mut units = Vec::new(self.alloc);
        let mut here = Some(node);
        while let Some(at) = here {
            push_backwards(&mut units, self.nodes.value(at).part.as_units())?;
            here = self.nodes.parent(at);
        }
        units.reverse();
        Ok(Wide::new(units))
    }

    /// The name that leads to an object, folded, or None if no name leads to it. It takes the time of the name, however many
    /// names there are.
    ///
    /// # Errors
    /// `NoMemory` if there was none for the name.
    #[tactic(auto, using(crate::proofs::ObjectLemmas::holder_live, crate::proofs::ObjectLemmas::holder_named, crate::proofs::ObjectLemmas::none_holds))]
    pub fn name_of(&self, number: u64) -> Result<Option<Wide>, NoMemory>
        ensures { IfOk result (λ name. IsNameOf (rows_of self.now.nodes) number name) }
    {
        self.establish_names();
        match self.holder(number) {
            Some(node) => Ok(Some(self.name_at(node)?)),
            None => Ok(None),
        }
    }
}
