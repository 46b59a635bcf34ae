// Lists of links.
ghost use Rattle.std.specs.Prelude.{◌≡◌, ◌<◌, ◌++◌, ◌∷◌, [], false, true, length, option_map, OnOk, OnErr};
ghost use Rattle.std.specs.List.{list_any};
ghost use Rattle.sb_base.specs.Wide.{is_same};
ghost use Rattle.sb_link.specs.Links.{AreLinks, is_from, is_link, is_link_name, most_links};
ghost use Rattle.sb_link.specs.Resolution.{applying};

use crate::sorted_froms::{SortedFrom, index_with, longest};
use sb_base::{Items, NoMemory, Wide, eq_ignore_ascii_case, is_name};
use std::alloc::Global;
use std::marker::Model;

/// The most links of a list.
pub const MAX_LINKS: usize = 64;

/// The most UTF-16 units of each name of a link.
pub const MAX_UNITS: usize = 256;

/// The most steps by which a name resolves.
pub const MAX_STEPS: u32 = 8;

/// A link: names that are `from`, or have it before a `\`, lead to `to`.
pub struct Link {
    /// The name that is replaced.
    pub from: Wide,
    /// The name that replaces it.
    pub to: Wide,
}

impl Drop for Link {
    fn drop(self) {
        let Link { from: _, to: _ } = self;
    }
}

/// At most 64 links, each with two names of at most 256 units. No two begin with the same name. Contracts see the list of them.
///
/// Beside the list is an index of its FROMs in order, by which one walk finds the link that applies to a name.
pub struct Links {
    items: Items<Link>,
    sorted: Vec<SortedFrom>,
}

impl Drop for Links {
    fn drop(self) {
        let Links {
            items: _,
            sorted: _,
        } = self;
    }
}

impl Model for Links {
    ghost use Rattle.std.specs.Prelude.{List};
    ghost use Rattle.sb_link.specs.SortedFroms.{AreIndexed};
    ghost use Rattle.sb_link.specs.declared.links.Link.{Link};

    ghost Value = { List Link };

    ghost view = { λ l. l.items };

    ghost invariant = { λ l. AreIndexed l.items l.sorted.items };
}

/// Whether units are what a link may begin with or lead to: a name of at most 256 units.
pub(crate) fn is_link_name(units: &[u16]) -> bool
    ensures { result ≡ is_link_name units.now }
{
    is_name(units) && units.len() <= MAX_UNITS
}

fn is_from(name: &[u16], link: &Link) -> bool
    ensures { result ≡ is_from name.now link.now }
{
    eq_ignore_ascii_case(link.from.as_units(), name)
}

impl Links {
    /// No links. Does not allocate.
    pub fn empty(alloc: Global) -> Links
        ensures { result ≡ [] }
    {
        Links {
            items: Items::empty(alloc),
            sorted: Vec::new(alloc),
        }
    }

    /// The number of links, at most 64.
    pub fn len(&self) -> usize
        ensures { result ≡ length self.now }
    {
        self.items.len()
    }

    /// What every list of links is. It does nothing.
    pub fn establish_links(&self)
        ensures { AreLinks self.now }
    {
        let _items = &self.items;
    }

    /// Of the links that apply to a name the one with the longest FROM, in a time that grows with the units of the name and the number of
    /// links, and not with their product.
    #[tactic(auto, using(crate::proofs::Walked::walk_finds))]
    pub(crate) fn applying(&self, name: &[u16]) -> Option<&Link>
        ensures { option_map (λ l. l.now) result ≡ applying self.now name.now }
    {
        longest(self.items.as_slice(), self.sorted.as_slice(), name)
    }

    /// Whether a link begins with this name, except for the case of letters.
    pub fn has_from(&self, name: &[u16]) -> bool
        ensures { result ≡ list_any (is_from name.now) self.now }
    {
        self.items.iter().any(|link| is_from(name, link))
    }

    /// Appends a link. There is room for it, its names are of links, and no link begins with the same name.
    ///
    /// # Errors
    /// `NoMemory` if there is none for the link; then the list is as it was.
    pub fn push(&mut self, link: Link) -> Result<(), NoMemory>
        requires room { length self.old < most_links }
        requires named { is_link link ≡ true }
        requires new { list_any (is_from link.from) self.old ≡ false }
        ensures ok { OnOk result (self.new ≡ self.old ++ link ∷ []) }
        ensures err { OnErr result (self.new ≡ self.old) }
    {
        let alloc = *self.sorted.allocator();
        let links = self.items.as_slice();
        let sorted = index_with(
            alloc,
            links,
            link.from.as_units(),
            links.len(),
            self.sorted.as_slice(),
        )?;
        self.items.push(link)?;
        self.sorted = sorted;
        Ok(())
    }
}
