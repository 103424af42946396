//! The members of a schedule in a treap, a search tree that stays flat by chance: each member has a priority that looks
//! random, and stands above those of lower priority.
//!
//! What is proved is the list of members from left to right. The priorities are for speed alone: whatever they are, the
//! answers are the same. No call here takes memory.
ghost use Rattle.std.specs.Prelude.{◌≡◌, ◌++◌, true, slice_get};
ghost use Rattle.scheduled_queue.specs.Dues.{are_in_order, inserted};
ghost use Rattle.scheduled_queue.specs.Kept.{in_order};
ghost use Rattle.scheduled_queue.specs.inside.Parts.{until, beyond, without_due, next_after};

use crate::due::Due;
use std::marker::Model;
use std::mem;

/// A tree, or none where it has no member.
pub(crate) type Tree = Option<Box<Node>>;

/// A member, and the trees of those before and behind it.
#[derive(Drop)]
pub(crate) struct Node {
    member: Due,
    before: Tree,
    behind: Tree,
}

impl Model for Node {
    ghost use Rattle.std.specs.Prelude.{◌∷◌, ◌++◌, List, length};
    ghost use Rattle.scheduled_queue.specs.declared.due.Due.{Due};
    ghost use Rattle.scheduled_queue.specs.Kept.{in_order};
    ghost use Rattle.std.proofs.Common.{arith, length-append};

    ghost Value = { List Due };

    ghost view = { λ n. in_order n.before ++ n.member ∷ in_order n.behind };

    ghost size = { length };

    ghost size_decreases = { λ a h. Prim.grind (arith, length-append) };
}

impl Node {
    /// A node for any member, to be used later.
    pub(crate) fn blank() -> Node {
        Node {
            member: Due { due: 0, number: 0 },
            before: None,
            behind: None,
        }
    }
}

/// A member's priority: its number with the bits mixed, so that no two have the same (the last steps of MurmurHash3).
fn priority_of(member: Due) -> u32 {
    let number = member.number;
    let mixed = (number ^ (number >> 16)).wrapping_mul(0x85eb_ca6b);
    let mixed = (mixed ^ (mixed >> 13)).wrapping_mul(0xc2b2_ae35);
    mixed ^ (mixed >> 16)
}

/// The members up to this one, and those behind it.
#[tactic(auto, using(crate::proofs::Lists::at_a_node))]
fn split(tree: Tree, member: Due) -> (Tree, Tree)
    requires { are_in_order (in_order tree) ≡ true }
    ensures until { in_order result.0 ≡ until member (in_order tree) }
    ensures beyond { in_order result.1 ≡ beyond member (in_order tree) }
{
    match tree {
        None => (None, None),
        Some(mut root) => {
            let node = &mut *root;
            if member.is_before(node.member) {
                let (before, behind) = split(node.before.take(), member);
                node.before = behind;
                (before, Some(root))
            } else {
                let (before, behind) = split(node.behind.take(), member);
                node.behind = before;
                (Some(root), behind)
            }
        }
    }
}

/// The members of one tree, and behind them those of the other.
fn join(first: Tree, second: Tree) -> Tree
    ensures { in_order result ≡ in_order first ++ in_order second }
{
    match (first, second) {
        (None, second) => second,
        (first, None) => first,
        (Some(mut first), Some(mut second)) => {
            if priority_of(first.member) > priority_of(second.member) {
                let node = &mut *first;
                node.behind = join(node.behind.take(), Some(second));
                Some(first)
            } else {
                let node = &mut *second;
                node.before = join(Some(first), node.before.take());
                Some(second)
            }
        }
    }
}

/// One more member, in its place. `spare` is the box that it will stand in; what it holds is let go.
pub(crate) fn insert(tree: &mut Tree, member: Due, spare: Box<Node>)
    requires { are_in_order (in_order tree.old) ≡ true }
    ensures { in_order tree.new ≡ inserted member (in_order tree.old) }
{
    plant(tree, member, priority_of(member), spare);
}

/// One more member, below all nodes whose priority is at least this.
#[tactic(auto, using(crate::proofs::Lists::at_a_node))]
fn plant(tree: &mut Tree, member: Due, priority: u32, mut spare: Box<Node>)
    requires { are_in_order (in_order tree.old) ≡ true }
    ensures { in_order tree.new ≡ inserted member (in_order tree.old) }
{
    match tree {
        Some(root) if priority_of(root.member) >= priority => {
            let node = &mut **root;
            if member.is_before(node.member) {
                plant(&mut node.before, member, priority, spare);
            } else {
                plant(&mut node.behind, member, priority, spare);
            }
        }
        _ => {
            let (before, behind) = split(tree.take(), member);
            *spare = Node {
                member,
                before,
                behind,
            };
            *tree = Some(spare);
        }
    }
}

/// Takes a member out, and gives the box that it stood in.
#[tactic(auto, using(crate::proofs::Lists::at_a_node))]
pub(crate) fn remove(tree: &mut Tree, member: Due) -> Tree
    requires { are_in_order (in_order tree.old) ≡ true }
    ensures { in_order tree.new ≡ without_due member (in_order tree.old) }
{
    match tree {
        None => None,
        Some(root) => {
            let node = &mut **root;
            if member.is_before(node.member) {
                remove(&mut node.before, member)
            } else if node.member.is_before(member) {
                remove(&mut node.behind, member)
            } else {
                let rest = join(node.before.take(), node.behind.take());
                mem::replace(tree, rest)
            }
        }
    }
}

/// The first member.
#[tactic(auto, using(crate::proofs::Lists::at_a_node))]
pub(crate) fn first(tree: &Tree) -> Option<Due>
    ensures { result ≡ slice_get (in_order tree.now) 0 }
{
    let mut first = None;
    let mut rest = tree;
    while let Some(root) = rest {
        let node = &**root;
        first = Some(node.member);
        rest = &node.before;
    }
    first
}

/// The first moment after this one that a member is due at.
#[tactic(auto, using(crate::proofs::Lists::at_a_node))]
pub(crate) fn next_after(tree: &Tree, t: u64) -> Option<u64>
    requires { are_in_order (in_order tree.now) ≡ true }
    ensures { result ≡ next_after t (in_order tree.now) }
{
    let mut next = None;
    let mut rest = tree;
    while let Some(root) = rest {
        let node = &**root;
        if t < node.member.due {
            next = Some(node.member.due);
            rest = &node.before;
        } else {
            rest = &node.behind;
        }
    }
    next
}
