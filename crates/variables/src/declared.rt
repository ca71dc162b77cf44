// A declaration at its node: the type, the section, the bounds and the cells of its variables.
ghost use Rattle.std.specs.Prelude.{◌≡◌};
ghost use Rattle.paper.specs.Names.{size_of, is_array};
ghost use Rattle.tree.specs.Nodes.{child_of};
ghost use Rattle.variables.specs.Table.{type_at, section_at, bounds_in};

use paper::{Kind, Ty};
use tree::node::Node;
use value::type_with;

// The node of its bounds.
pub fn bounds_of(n: Node) -> Node
    ensures { (result.pool ≡ n.entry.pool) × (result.at ≡ child_of n.entry.pool.now (child_of n.entry.pool.now n.entry.at 2) 1) }
{
    n.child(2).child(1)
}

// Whether it is an array's.
pub fn is_array(n: Node) -> bool
    ensures { result ≡ is_array (bounds_in n.entry.pool.now n.entry.at) }
{
    bounds_of(n).is_bounds()
}

// How many cells each variable has: none where the bounds are the wrong way round.
pub fn size_of(n: Node) -> usize
    ensures { result ≡ size_of (bounds_in n.entry.pool.now n.entry.at) }
{
    let bounds = bounds_of(n);
    if !bounds.is_bounds() {
        return 1;
    }
    let lo = bounds.child(1).wide() as usize;
    let hi = bounds.child(2).wide() as usize;
    (hi + 1).saturating_sub(lo)
}

// Its section.
pub fn section_of(n: Node) -> Kind
    ensures { result ≡ section_at n.entry.pool.now n.entry.at }
{
    match n.word(3) {
        0 => Kind::Input,
        1 => Kind::Output,
        _ => Kind::Other,
    }
}

// Its type.
pub fn type_of(n: Node) -> Ty
    ensures { result ≡ type_at n.entry.pool.now n.entry.at }
{
    type_with(n.child(2).word(3) as u32)
}
