// The node list of a script.
use atoms::AtomSet;
use labels::Order as ScriptOrder;

// A node of a script. Each stands after those below it.
// Reading and running use no heap, so a script is a lent list of these and no tree of boxes.
#[derive(Clone, Copy, Debug, PartialEq, Eq)]
pub enum Node {
    // no node: a lent list has a fixed length, and blanks fill it up
    Blank,
    // an order
    Order(ScriptOrder),
    // a test: the atoms that pass
    Test(AtomSet),
    // the tree before the last, then the last
    Sequence,
    // at the atoms of the set the tree before the last, else the last
    If(AtomSet),
    // at the atoms of the set the last tree, else nothing
    When(AtomSet),
    // the last tree again and again, as long as the atom is in the set
    While(AtomSet),
}
