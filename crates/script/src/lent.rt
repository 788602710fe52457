// The script in a lent node list, with its extent.
ghost use Rattle.std.specs.Prelude.{◌≡◌};
ghost use Rattle.script.specs.Extents.{extent_of};

use crate::Extent;
use crate::node::Node;

// A node list with the extent of the script that it holds, if it holds one.
#[derive(Clone, Copy)]
pub struct Script<'a> {
    pub(crate) nodes: &'a [Node],
    pub(crate) extent: Option<Extent>,
    ghost surveyed: { extent ≡ extent_of nodes.now },
}
