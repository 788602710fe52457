// The machine of a script, for any kind of label.
ghost use Rattle.std.specs.Prelude.{◌≡◌};
ghost use Rattle.automata.specs.Walks.{labelled};
ghost use Rattle.script.specs.Machines.{label_of, of_kind, passes, every_node, size_on, moves_in, tree_of, MachineOf};
ghost use Rattle.script.specs.MachineLaws.{at_most_256, target_below, outside_rejected};

use crate::lent::Script;
use crate::node::Node;
use automata::{Label, Machine, Move};
use labels::Order;
use std::marker::PhantomData;

// The machine over the script in a node list, if each order has a label of the kind; else it is void.
#[derive(Drop)]
pub struct ScriptMachine<'a, L> {
    script: Option<Script<'a>>,
    kind: PhantomData<L>,
}

// Whether an order has a label of the kind.
fn has_label<L: Label>(order: Order) -> bool
    ensures { result ≡ of_kind L.Label order }
{
    L::from_bytes(order.bytes()).is_some()
}

// Whether the node, if it is an order, has a label of the kind.
fn suits<L: Label>(node: Node) -> bool
    ensures { result ≡ passes (of_kind L.Label) node }
{
    match node {
        Node::Order(order) => has_label::<L>(order),
        _ => true,
    }
}

// Whether each order in a list has a label of the kind.
fn all_suit<L: Label>(nodes: &[Node]) -> bool
    ensures { result ≡ every_node (of_kind L.Label) nodes.now }
{
    nodes.iter().all(|node| suits::<L>(*node))
}

// The move with a label of the kind in place of the order; it rejects where there is none. No `From`: a move is of another crate, and an
// order may have no label.
fn with_labels<L: Label>(said: Move<Order>) -> Move<L>
    ensures { result ≡ labelled (label_of L.Label) said }
{
    match said {
        Move::Accept => Move::Accept,
        Move::Reject => Move::Reject,
        Move::Step(order, target) => {
            L::from_bytes(order.bytes()).map_or(Move::Reject, |label| Move::Step(label, target))
        }
    }
}

impl<'a, L: Label> ScriptMachine<'a, L> {
    // The machine over any node list: that of its script, and void if it is not one whole script of the kind.
    pub fn of(nodes: &'a [Node]) -> ScriptMachine<'a, L>
        ensures { MachineOf L.Label nodes.now (size_on (tree_of result.script)) (moves_in L.Label (tree_of result.script)) }
    {
        ScriptMachine {
            script: all_suit::<L>(nodes).then(|| Script::of(nodes)),
            kind: PhantomData,
        }
    }
}

impl<'a, L: Label> Machine for ScriptMachine<'a, L> {
    type Label = L;

    ghost states = { λ m. size_on (tree_of m.script) };

    ghost moves = { λ m s a. moves_in L.Label (tree_of m.script) s a };

    ghost small = { λ m. at_most_256 m.script };

    ghost closed = { λ m s a l t e. target_below (record { kind = L.kind; alike = L.alike; made = L.made; written = L.written }) (tree_of m.script) s a l t e };

    ghost outside = { λ m s a h. outside_rejected (record { kind = L.kind; alike = L.alike; made = L.made; written = L.written }) (tree_of m.script) s a h };

    fn size(&self) -> usize {
        self.script.map_or(0, |script| script.size())
    }

    fn step(&self, state: usize, atom: u8) -> Move<L> {
        self.script.map_or(Move::Reject, |script| with_labels(script.step(state, atom)))
    }
}
