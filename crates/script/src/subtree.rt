// The nodes of a script up to a place, and the tree that ends there.
ghost use Rattle.script.specs.Lists.{SomeTree};

use crate::node::Node;

// The nodes of a script up to a place, and how many orders stand before it.
#[derive(Clone, Copy)]
pub(crate) struct Front<'a> {
    pub(crate) nodes: &'a [Node],
    pub(crate) orders: u16,
}

// The tree whose nodes end a front.
#[derive(Clone, Copy)]
pub(crate) struct Subtree<'a> {
    pub(crate) front: Front<'a>,
    ghost tree: { ∥ SomeTree front.nodes.now front.orders ∥₁ },
}
