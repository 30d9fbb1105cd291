ghost use Rattle.std.specs.Prelude.{◌≡◌, ◌++◌, OnOk};
ghost use Rattle.hb_unknowns.specs.Joined.{at, entry_at, joined, same_atom, parts};

use hb_base::Memory;
use hb_types::Atom;

/// What is known of the type at a node: nothing, that it is the type at a node above, or what it is.
#[derive(Clone, Copy, Debug)]
pub enum Node {
    Free,
    Link(usize),
    Leaf(Atom),
    Apply(usize, usize),
}

/// A node and its level: links lead to lower levels, so that few of them follow one another.
#[derive(Clone, Copy, Debug)]
pub struct Entry {
    pub node: Node,
    pub level: u64,
}

/// Two types that are to be one, by their places.
#[derive(Clone, Copy, Debug)]
pub struct Pair {
    pub left: usize,
    pub right: usize,
}

pub fn entry_at(entries: &[Entry], place: usize) -> Entry
    ensures { result ≡ entry_at entries.now place }
{
    match entries.get(place) {
        Some(entry) => *entry,
        None => Entry {
            node: Node::Free,
            level: 0,
        },
    }
}

pub fn node_at(entries: &[Entry], place: usize) -> Node
    ensures { result ≡ at entries.now place }
{
    entry_at(entries, place).node
}

fn is_same(a: Atom, b: Atom) -> bool
    ensures { result ≡ same_atom a b }
{
    match a {
        Atom::Var(n) => match b {
            Atom::Var(m) => n == m,
            _ => false,
        },
        Atom::Con(n) => match b {
            Atom::Con(m) => n == m,
            _ => false,
        },
        Atom::Nat(n) => match b {
            Atom::Nat(m) => n == m,
            _ => false,
        },
    }
}

/// What is known of one type that is as both nodes say, or nothing where there is none. Neither is a link.
pub fn join(first: Node, second: Node) -> Option<Node>
    ensures { result ≡ joined first second }
{
    match first {
        Node::Free => Some(second),
        Node::Link(_) => None,
        Node::Leaf(a) => match second {
            Node::Free => Some(first),
            Node::Leaf(b) => { if is_same(a, b) { Some(first) } else { None } }
            _ => None,
        },
        Node::Apply(_, _) => match second {
            Node::Free | Node::Apply(_, _) => Some(first),
            _ => None,
        },
    }
}

/// Puts the equations between parts that two applications make at the end of those that wait.
pub fn push_parts(pending: &mut Vec<Pair>, first: Node, second: Node) -> Result<(), Memory>
    ensures { OnOk result (pending.new.items ≡ pending.old.items ++ parts first second) }
{
    if let Node::Apply(f, x) = first {
        if let Node::Apply(g, y) = second {
            pending.push(Pair { left: f, right: g })?;
            pending.push(Pair { left: x, right: y })?;
        }
    }
    Ok(())
}
