// An arena: nodes that are linked as trees, each known by its number.
ghost use Rattle.std.specs.Prelude.{◌≡◌, ◌<◌, ◌^◌, [], Some, None, IfOk, IfErr, OnOk, OnErr, IsSome, is_some, option_map, length, vec_capacity, ◌≤◌};
ghost use Rattle.sb_arena.specs.Forests.{no_nodes, with_node, with_vacancy, with_child, row_at, value_at, IsLive, parent_of, children_of, next_of, without_parent, node_number, without_node, with_value, IsRooted, IsShallow, IsSound, Agrees, HasLiveLinks, HasSingleChildren, first_of, IsAbove};

use crate::links::{Link, fresh, link_last, link_of, next_linked, unlink_from};
use std::alloc::{AllocError, Global};
use std::marker::Model;

/// A node, by its number. A number may be given again after its node was freed.
#[derive(Clone, Copy, Debug)]
pub struct NodeId(pub u64);

/// Out of memory for a node. The value comes back.
#[derive(Drop)]
pub struct AddRefused<T> {
    /// The value that was to be added.
    pub value: T,
}

/// Nodes with values, linked as trees: a node has at most one parent, and its children are in order. Only `add` and `reserve`
/// allocate.
#[derive(Drop)]
pub struct Arena<T> {
    links: Vec<Link>,
    values: Vec<Option<T>>,
    // The numbers of free nodes, the one freed last at the end. There is room for the number of each node.
    free: Vec<u64>,
}

impl<T> Model for Arena<T> {
    ghost use Rattle.std.specs.Prelude.{◌≡◌, ◌≤◌, length, vec_capacity};
    ghost use Rattle.sb_arena.specs.Forests.{Forest, forest_code, IsSound, IsRooted};

    ghost Value = { Forest T };

    ghost coded = { forest_code T.code };

    ghost use Rattle.sb_arena.specs.Links.{rows_of, IsTied};

    ghost view = { λ a. record { rows = rows_of a.links.items; values = a.values.items; free = a.free.items } };

    ghost invariant = { λ a. (length a.links.items ≡ length a.values.items) × IsTied a.links.items
        × (length a.values.items ≤ vec_capacity a.free) × IsSound (record { rows = rows_of a.links.items; values = a.values.items; free = a.free.items })
        × IsRooted (rows_of a.links.items) };
}

// The node of a number.
fn node_at(at: Option<u64>) -> Option<NodeId>
    ensures { option_map (λ n. n.0) result ≡ at }
{
    match at {
        Some(n) => Some(NodeId(n)),
        None => None,
    }
}

// Makes room for one more node, and for the number of each node among those that are free.
fn make_room<T>(
    links: &mut Vec<Link>,
    values: &mut Vec<Option<T>>,
    free: &mut Vec<u64>,
) -> Result<(), AllocError>
    ensures links { links.new.items ≡ links.old.items }
    ensures values { values.new.items ≡ values.old.items }
    ensures free { free.new.items ≡ free.old.items }
    ensures kept { vec_capacity free.old ≤ vec_capacity free.new }
    ensures link { OnOk result (length links.new.items < vec_capacity links.new) }
    ensures value { OnOk result (length values.new.items < vec_capacity values.new) }
    ensures number { OnOk result (length values.new.items < vec_capacity free.new) }
{
    free.reserve(values.as_slice().len() + 1)?;
    links.reserve(1)?;
    values.reserve(1)
}

impl<T> Arena<T> {
    /// An arena without nodes.
    #[tactic(auto, using(crate::proofs::Roots::rooted_none))]
    pub fn new(alloc: Global) -> Arena<T>
        ensures { result ≡ no_nodes }
    {
        Arena {
            links: Vec::new(alloc),
            values: Vec::new(alloc),
            free: Vec::new(alloc),
        }
    }

    /// Establishes for a proof what holds of every arena. It does nothing.
    pub fn establish_forest(&self)
        ensures rooted { IsRooted self.now.rows }
        ensures agree { Agrees self.now }
        ensures live { HasLiveLinks self.now }
        ensures single { HasSingleChildren self.now }
        ensures sound { IsSound self.now }
        ensures shallow { IsShallow self.now.rows }
        ensures even { length self.now.rows ≡ length self.now.values }
        ensures small { length self.now.rows < 2 ^ 64 }
    {
        // A body that reads a field has the invariant of the whole to conclude from.
        let _count = self.links.as_slice().len();
    }

    /// The number of the node that is added next.
    pub fn vacant(&self) -> NodeId
        ensures { result.0 ≡ node_number self.now }
    {
        match self.free.as_slice() {
            [.., number] => NodeId(*number),
            [] => NodeId(self.links.as_slice().len() as u64),
        }
    }

    /// Whether the node is live: it was added, and not freed since.
    pub fn is_live(&self, node: NodeId) -> bool
        ensures { result ≡ is_some (value_at self.now node.0) }
    {
        match self.values.get(node.0 as usize) {
            Some(value) => value.is_some(),
            None => false,
        }
    }

    /// The parent of the node, or None if it has none.
    #[tactic(auto, using(crate::proofs::LinkTies::row_read))]
    pub fn parent(&self, node: NodeId) -> Option<NodeId>
        requires { IsLive self.now node.0 }
        ensures { option_map (λ n. n.0) result ≡ parent_of self.now node.0 }
    {
        node_at(link_of(&self.links, node.0).parent)
    }

    /// The first child of the node, or None if it has none.
    #[tactic(auto, using(crate::proofs::LinkTies::row_read, crate::proofs::Readers::first_read))]
    pub fn first_child(&self, node: NodeId) -> Option<NodeId>
        requires { IsLive self.now node.0 }
        ensures { option_map (λ n. n.0) result ≡ first_of (children_of self.now node.0) }
    {
        node_at(link_of(&self.links, node.0).first)
    }

    /// The next child of the node's parent, or None if the node is the last child or has no parent.
    pub fn next(&self, node: NodeId) -> Option<NodeId>
        requires { IsLive self.now node.0 }
        ensures { option_map (λ n. n.0) result ≡ next_of self.now node.0 }
    {
        node_at(next_linked(link_of(&self.links, node.0)))
    }

    /// The value of the node.
    pub fn value(&self, node: NodeId) -> &T
        requires { IsLive self.now node.0 }
        ensures { value_at self.now node.0 ≡ Some result.now }
    {
        match &self.values[node.0 as usize] {
            Some(value) => value,
            None => unreachable!(),
        }
    }

    /// Makes a node without parent the last child of `parent`, which must be neither the node itself nor below it.
    pub fn link(&mut self, child: NodeId, parent: NodeId)
        requires child { IsLive self.old child.0 }
        requires parent { IsLive self.old parent.0 }
        requires unlinked { parent_of self.old child.0 ≡ None }
        requires apart { IsAbove self.old child.0 parent.0 → ⊥ }
        ensures { self.new ≡ with_child self.old child.0 parent.0 }
    {
        link_last(&mut self.links, child.0, parent.0);
    }
}

impl<T> Arena<T> {
    /// Takes a node away from its parent, if it has one. Its children stay its own.
    pub fn unlink(&mut self, child: NodeId)
        requires { IsLive self.old child.0 }
        ensures { self.new ≡ without_parent self.old child.0 }
    {
        if let Some(parent) = link_of(&self.links, child.0).parent {
            unlink_from(&mut self.links, child.0, parent);
        }
    }
}

impl<T: Drop> Arena<T> {
    /// Adds a node that has neither parent nor children. It has the number of the node freed last if there is a free one,
    /// and then nothing is allocated.
    ///
    /// # Errors
    /// `AddRefused` with the value if there was no memory. The arena is then as it was.
    pub fn add(&mut self, value: T) -> Result<NodeId, AddRefused<T>>
        ensures number { IfOk result (λ node. node.0 ≡ node_number self.old) }
        ensures ok { OnOk result (self.new ≡ with_node self.old value) }
        ensures refused { IfErr result (λ refused. refused.value ≡ value) }
        ensures err { OnErr result (self.new ≡ self.old) }
        ensures room { OnErr result (self.old.free ≡ []) }
    {
        match self.free.pop() {
            Some(number) => {
                self.values[number as usize] = Some(value);
                Ok(NodeId(number))
            }
            None => {
                let number = self.links.as_slice().len();
                let Ok(()) = make_room(&mut self.links, &mut self.values, &mut self.free) else {
                    return Err(AddRefused { value });
                };
                self.links.push_reserved(fresh());
                self.values.push_reserved(Some(value));
                Ok(NodeId(number as u64))
            }
        }
    }

    /// Allocates one more node, so that the next `add` allocates nothing: there is a free node afterwards.
    ///
    /// # Errors
    /// `AllocError` if there was no memory for a node. The arena is then as it was.
    pub fn reserve(&mut self) -> Result<(), AllocError>
        ensures ok { OnOk result (self.new ≡ with_vacancy self.old) }
        ensures err { OnErr result (self.new ≡ self.old) }
    {
        if !self.free.as_slice().is_empty() {
            return Ok(());
        }
        let number = self.links.as_slice().len();
        make_room(&mut self.links, &mut self.values, &mut self.free)?;
        self.links.push_reserved(fresh());
        self.values.push_reserved(None);
        self.free.push_reserved(number as u64);
        Ok(())
    }

    /// Replaces the value of the node and returns the old one. Its parent and children stay.
    pub fn set(&mut self, node: NodeId, value: T) -> T
        requires { IsLive self.old node.0 }
        ensures value { value_at self.old node.0 ≡ Some result }
        ensures set { self.new ≡ with_value self.old node.0 value }
    {
        match self.values[node.0 as usize].replace(value) {
            Some(old) => old,
            None => unreachable!(),
        }
    }

    /// Frees a node that has neither parent nor children, and returns its value.
    pub fn free(&mut self, node: NodeId) -> T
        requires live { IsLive self.old node.0 }
        requires unlinked { parent_of self.old node.0 ≡ None }
        requires childless { children_of self.old node.0 ≡ [] }
        ensures value { value_at self.old node.0 ≡ Some result }
        ensures free { self.new ≡ without_node self.old node.0 }
    {
        let value = self.values[node.0 as usize].take();
        self.free.push_reserved(node.0);
        match value {
            Some(value) => value,
            None => unreachable!(),
        }
    }
}
