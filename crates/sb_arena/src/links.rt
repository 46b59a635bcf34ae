// How nodes are linked. Each step sets one field of one node, and the whole is a composition of such steps.
ghost use Rattle.std.specs.Prelude.{◌≡◌, ◌<◌, ℕ, Some, None, IfSome, length};
ghost use Rattle.sb_arena.specs.Links.{no_link, next_linked, at, linked, unlinked, joined_on, joined_back, with_parent, with_first, with_last, with_next, with_prev};

// The links of a node: its parent, its first and last child, and its neighbours among the children of its parent.
#[derive(Clone, Copy)]
pub(crate) struct Link {
    pub(crate) parent: Option<u64>,
    pub(crate) first: Option<u64>,
    pub(crate) last: Option<u64>,
    pub(crate) next: Option<u64>,
    pub(crate) prev: Option<u64>,
}

fn set_parent(links: &mut Vec<Link>, node: u64, to: Option<u64>)
    requires { node < length links.old.items }
    ensures { links.new.items ≡ with_parent links.old.items node to }
{
    links[node as usize].parent = to;
}

fn set_first(links: &mut Vec<Link>, node: u64, to: Option<u64>)
    requires { node < length links.old.items }
    ensures { links.new.items ≡ with_first links.old.items node to }
{
    links[node as usize].first = to;
}

fn set_last(links: &mut Vec<Link>, node: u64, to: Option<u64>)
    requires { node < length links.old.items }
    ensures { links.new.items ≡ with_last links.old.items node to }
{
    links[node as usize].last = to;
}

fn set_next(links: &mut Vec<Link>, node: u64, to: Option<u64>)
    requires { node < length links.old.items }
    ensures { links.new.items ≡ with_next links.old.items node to }
{
    links[node as usize].next = to;
}

fn set_prev(links: &mut Vec<Link>, node: u64, to: Option<u64>)
    requires { node < length links.old.items }
    ensures { links.new.items ≡ with_prev links.old.items node to }
{
    links[node as usize].prev = to;
}

// The links of a node.
pub(crate) fn link_of(links: &[Link], node: u64) -> Link
    requires { node < length links.now }
    ensures { result ≡ at links.now node }
{
    links[node as usize]
}

// The links of a node that has neither parent nor children.
pub(crate) fn fresh() -> Link
    ensures { result ≡ no_link }
{
    Link {
        parent: None,
        first: None,
        last: None,
        next: None,
        prev: None,
    }
}

// The next sibling of a node, if it has a parent.
pub(crate) fn next_linked(link: Link) -> Option<u64>
    ensures { result ≡ next_linked link }
{
    match link.parent {
        Some(_) => link.next,
        None => None,
    }
}

// Makes a node the last child of another.
pub(crate) fn link_last(links: &mut Vec<Link>, child: u64, parent: u64)
    requires child { child < length links.old.items }
    requires parent { parent < length links.old.items }
    requires last { IfSome (at links.old.items parent).last (λ b. b < length links.old.items) }
    ensures { links.new.items ≡ linked links.old.items child parent }
{
    let last = link_of(links, parent).last;
    set_next(links, child, None);
    set_parent(links, child, Some(parent));
    set_prev(links, child, last);
    set_last(links, parent, Some(child));
    match last {
        Some(before) => set_next(links, before, Some(child)),
        None => set_first(links, parent, Some(child)),
    }
}

// The sibling before a node, or else its parent, now names the one after it.
fn join_on(links: &mut Vec<Link>, prev: Option<u64>, next: Option<u64>, parent: u64)
    requires parent { parent < length links.old.items }
    requires prev { IfSome prev (λ b. b < length links.old.items) }
    ensures new { links.new.items ≡ joined_on prev next parent links.old.items }
    ensures long { length links.new.items ≡ length links.old.items }
{
    match prev {
        Some(before) => set_next(links, before, next),
        None => set_first(links, parent, next),
    }
}

// The sibling after a node, or else its parent, now names the one before it.
fn join_back(links: &mut Vec<Link>, next: Option<u64>, prev: Option<u64>, parent: u64)
    requires parent { parent < length links.old.items }
    requires next { IfSome next (λ b. b < length links.old.items) }
    ensures new { links.new.items ≡ joined_back next prev parent links.old.items }
    ensures long { length links.new.items ≡ length links.old.items }
{
    match next {
        Some(after) => set_prev(links, after, prev),
        None => set_last(links, parent, prev),
    }
}

// Takes a node away from its parent.
pub(crate) fn unlink_from(links: &mut Vec<Link>, child: u64, parent: u64)
    requires child { child < length links.old.items }
    requires parent { parent < length links.old.items }
    requires prev { IfSome (at links.old.items child).prev (λ b. b < length links.old.items) }
    requires next { IfSome (at links.old.items child).next (λ b. b < length links.old.items) }
    ensures { links.new.items ≡ unlinked links.old.items child parent }
{
    let link = link_of(links, child);
    join_on(links, link.prev, link.next, parent);
    join_back(links, link.next, link.prev, parent);
    set_parent(links, child, None);
}
