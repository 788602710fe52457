// The node list of a script, and the machine that walks it.
#![tactic(auto)]

ghost use Rattle.std.specs.Prelude.{◌≡◌, ℕ, ◌+◌, ◌^◌, ◌<◌, ◌≤◌, List, [], IfSome, if◌then◌else◌};
ghost use Rattle.atoms.specs.Sets.{member, every};
ghost use Rattle.automata.specs.declared.Move.TheVariants.{Accept, Reject};
ghost use Rattle.automata.specs.Walks.{first_move, after_move, then_move, turn_move};
ghost use Rattle.script.specs.Trees.{Tree, expr_of};
ghost use Rattle.script.specs.Lists.{blank_node, all_blank, script_in, Ends, SomeTree};
ghost use Rattle.script.specs.Extents.{extent_of};
ghost use Rattle.script.specs.Machines.{script_move, size_on};
ghost use Rattle.script.specs.Tallies.{Tallied, NumberedUsed, Grows};

use atoms::{ATOMS, AtomSet};
use automata::Move;
use labels::Order;
use subtree::{Front, Subtree};

// The most steps that a script has.
pub const MOST_STEPS: usize = 255;

mod lent;
mod machine;
mod node;
mod subtree;

pub use lent::Script;
pub use machine::ScriptMachine;
pub use node::Node;

// Whether the node is blank. By one pattern: `==` would look at what other nodes hold.
fn is_blank(node: Node) -> bool
    ensures { result ≡ blank_node node }
{
    matches!(node, Node::Blank)
}

// Whether every node is blank.
fn blank(nodes: &[Node]) -> bool
    ensures { result ≡ all_blank nodes.now }
{
    nodes.iter().all(|node| is_blank(*node))
}

// The trees that a list of nodes has made so far, in numbers.
#[derive(Clone, Copy, Default)]
struct Tally {
    height: usize,
    steps: usize,
    orders: usize,
}

impl Tally {
    // What one more node makes of them; none if it lacks trees to join.
    fn with(self, node: Node) -> Option<Tally>
        requires heights { self.height + 1 < 2 ^ 64 }
        requires steps { self.steps + 1 < 2 ^ 64 }
        requires orders { self.orders + 1 < 2 ^ 64 }
        ensures told { (st : List Tree) → Tallied st self.height self.steps self.orders → Grows node st result }
        ensures near { IfSome result (λ y. (y.height ≤ self.height + 1) × (y.steps ≤ self.steps + 1) × (self.orders ≤ self.steps → y.orders ≤ y.steps)) }
    {
        match node {
            Node::Order(_) => Some(Tally {
                height: self.height + 1,
                steps: self.steps + 1,
                orders: self.orders + 1,
            }),
            Node::Test(_) => Some(Tally {
                height: self.height + 1,
                steps: self.steps + 1,
                ..self
            }),
            Node::Sequence if self.height >= 2 => Some(Tally {
                height: self.height - 1,
                ..self
            }),
            Node::If(_) if self.height >= 2 => Some(Tally {
                height: self.height - 1,
                steps: self.steps + 1,
                ..self
            }),
            Node::When(_) | Node::While(_) if self.height >= 1 => Some(Tally {
                steps: self.steps + 1,
                ..self
            }),
            _ => None,
        }
    }
}

// The trees that the nodes before the first blank one make, in numbers, and how many nodes these are; none if one of them lacks trees
// to join: no node behind it is looked at then.
fn tallied(nodes: &[Node]) -> Option<(Tally, usize)>
    ensures { NumberedUsed nodes.now result }
{
    let mut tally = Tally::default();
    for (used, node) in nodes.iter().enumerate() {
        if is_blank(*node) {
            return Some((tally, used));
        }
        tally = tally.with(*node)?;
    }
    Some((tally, nodes.len()))
}

// How many nodes a script takes, and how many of them are orders. Numbers and no slice: the script keeps its whole list, of which the
// slice would be a part held twice.
#[derive(Clone, Copy)]
pub(crate) struct Extent {
    used: usize,
    orders: u16,
}

// The extent of the whole script of at most 255 steps in a list, if it is one.
fn survey(nodes: &[Node]) -> Option<Extent>
    ensures { result ≡ extent_of nodes.now }
{
    let (tally, used) = tallied(nodes)?;
    if tally.height != 1 || tally.steps > MOST_STEPS || !blank(&nodes[used..]) {
        return None;
    }
    // A narrowing cast: that it fits is proved, and `try_from` would ask for an answer that never comes. So in `step`.
    Some(Extent {
        used,
        orders: tally.orders as u16,
    })
}

// Where the first accepts, the second moves.
fn then(first: Move<Order>, second: Move<Order>) -> Move<Order>
    ensures { result ≡ then_move first second }
{
    match first {
        Move::Accept => second,
        m => m,
    }
}

// A loop whose body passes an atom without an order rejects it.
fn turn(body: Move<Order>) -> Move<Order>
    ensures { result ≡ turn_move body }
{
    match body {
        Move::Accept => Move::Reject,
        m => m,
    }
}

// At the atoms of the set the one move, at others the other.
fn choose(set: AtomSet, atom: u8, inside: Move<Order>, outside: Move<Order>) -> Move<Order>
    ensures { result ≡ (if member set.bits atom then inside else outside) }
{
    if set.contains(atom) { inside } else { outside }
}

// The move of `skip`, which every atom passes.
fn skip(atom: u8) -> Move<Order>
    ensures { result ≡ (if member every atom then Accept else Reject) }
{
    choose(AtomSet::all(), atom, Move::Accept, Move::Reject)
}

impl<'a> Front<'a> {
    // Takes the tree that ends the front off it, and gives the first move of that tree.
    // What is left may end with no tree, so the front keeps no ghost field for one.
    fn take_first(&mut self, atom: u8) -> Move<Order>
        requires { ∥ SomeTree self.old.nodes.now self.old.orders ∥₁ }
        ensures { (t : Tree) (ns : List Node) (n : ℕ) → Ends self.old.nodes.now self.old.orders t ns n → (result ≡ first_move (expr_of t) n atom) × (self.new.nodes.now ≡ ns) × (self.new.orders ≡ n) }
    {
        let [below @ .., last] = self.nodes else {
            unreachable()
        };
        self.nodes = below;
        match *last {
            Node::Blank => unreachable(),
            Node::Order(order) => {
                let number = self.orders;
                self.orders -= 1;
                Move::Step(order, number)
            }
            Node::Test(set) => choose(set, atom, Move::Accept, Move::Reject),
            Node::Sequence => {
                let right = self.take_first(atom);
                let left = self.take_first(atom);
                then(left, right)
            }
            Node::If(set) => {
                let right = self.take_first(atom);
                let left = self.take_first(atom);
                choose(set, atom, left, right)
            }
            Node::When(set) => {
                let body = self.take_first(atom);
                choose(set, atom, body, skip(atom))
            }
            Node::While(set) => {
                let body = self.take_first(atom);
                choose(set, atom, turn(body), Move::Accept)
            }
        }
    }
}

impl<'a> Subtree<'a> {
    // The first move of the tree.
    fn first(self, atom: u8) -> Move<Order>
        ensures { (t : Tree) (ns : List Node) (n : ℕ) → Ends self.entry.front.nodes.now self.entry.front.orders t ns n → result ≡ first_move (expr_of t) n atom }
    {
        let mut front = self.front;
        front.take_first(atom)
    }

    // The move of a loop at its beginning: its body's first, at the atoms of the set.
    fn enter(self, set: AtomSet, atom: u8) -> Move<Order>
        ensures { (t : Tree) (ns : List Node) (n : ℕ) → Ends self.entry.front.nodes.now self.entry.front.orders t ns n → result ≡ (if member set.bits atom then turn_move (first_move (expr_of t) n atom) else Accept) }
    {
        if set.contains(atom) {
            turn(self.first(atom))
        } else {
            Move::Accept
        }
    }

    // The move just after the order with the number `k`.
    fn after(self, k: u16, atom: u8) -> Move<Order>
        requires reached { k ≤ self.front.orders }
        ensures { (t : Tree) (ns : List Node) (n : ℕ) → Ends self.entry.front.nodes.now self.entry.front.orders t ns n → result ≡ after_move (expr_of t) n k atom }
    {
        let [nodes @ .., last] = self.front.nodes else {
            unreachable()
        };
        let below = Front {
            nodes,
            ..self.front
        };
        match *last {
            Node::Blank => unreachable(),
            Node::Order(_) => Move::Accept,
            Node::Test(_) => Move::Reject,
            Node::Sequence | Node::If(_) => {
                let mut middle = below;
                let next = middle.take_first(atom);
                // the order is one of the last tree's
                if k > middle.orders {
                    return Subtree { front: below }.after(k, atom);
                }
                let left = Subtree { front: middle }.after(k, atom);
                match *last {
                    Node::Sequence => then(left, next),
                    _ => left,
                }
            }
            Node::When(_) => Subtree { front: below }.after(k, atom),
            Node::While(set) => {
                let body = Subtree { front: below };
                match body.after(k, atom) {
                    Move::Accept => body.enter(set, atom),
                    m => m,
                }
            }
        }
    }
}

impl<'a> Script<'a> {
    // The script in a node list.
    pub fn of(nodes: &'a [Node]) -> Script<'a>
        ensures { result.nodes.now ≡ nodes.now }
    {
        Script {
            nodes,
            extent: survey(nodes),
        }
    }

    // How many states the script's machine has: its start, and one after each order.
    pub fn size(&self) -> usize
        ensures { result ≡ size_on (script_in self.now.nodes.now) }
    {
        self.extent
            .map_or(0, |extent| usize::from(extent.orders) + 1)
    }

    // The move of a state at an atom, with the order as the script says it.
    pub fn step(&self, state: usize, atom: u8) -> Move<Order>
        ensures { result ≡ script_move (script_in self.now.nodes.now) state atom }
    {
        let Some(extent) = self.extent else {
            return Move::Reject;
        };
        if atom >= ATOMS || state > usize::from(extent.orders) {
            return Move::Reject;
        }
        let front = Front {
            nodes: &self.nodes[..extent.used],
            orders: extent.orders,
        };
        let tree = Subtree { front };
        if state == 0 {
            return tree.first(atom);
        }
        // a narrowing cast, as in `survey`
        tree.after(state as u16, atom)
    }
}
