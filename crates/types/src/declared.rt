// Refusal 6 of declarations: bounds that are no DINT, a declared value of another type.
ghost use Rattle.std.specs.Prelude.{◌≡◌, not, pos};
ghost use Rattle.std.specs.Bool.{then_some};
ghost use Rattle.paper.specs.declared.Ty.TheVariants.{Dint as DINT};
ghost use Rattle.paper.specs.Types as Y;
ghost use Rattle.paper.specs.Typing as T;
ghost use Rattle.tree.specs.Trees.{wide, place_at, bounds_at, initial_at};
ghost use Rattle.faults.specs.Soonest.{soonest};
ghost use Rattle.types.specs.Statements.{value_at, IsDeclaration, IsDeclarations};

use crate::parts::{for_numbers, is_integer};
use faults::sooner_of;
use paper::Ty;
use tree::kinds::Initial;
use tree::node::Node;
use value::fits;
use variables::declared::{bounds_of, type_of};

// A bound of an array.
fn bound(n: Node) -> Option<usize>
    ensures { result ≡ then_some (not (Y.fits DINT (pos (wide n.entry.pool.now n.entry.at)))) (place_at n.entry.pool.now n.entry.at) }
{
    (!fits(Ty::Dint, n.wide() as i64)).then_some(n.place() as usize)
}

#[tactic(auto, using(faults::proofs::Soonest::soonest_steps))]
fn bounds(n: Node) -> Option<usize>
    ensures { result ≡ soonest (T.bounds_faults (bounds_at n.entry.pool.now n.entry.at)) }
{
    if !n.is_bounds() {
        return None;
    }
    let x = bound(n.child(1));
    let y = bound(n.child(2));
    sooner_of(x, y)
}

// A declared number that doesn't fit, else the wrong kind at `:=`.
#[tactic(auto, using(faults::proofs::Soonest::soonest_steps))]
fn number(t: Ty, n: Node) -> Option<usize>
    ensures { result ≡ soonest (T.initial_faults t (value_at n.entry.pool.now n.entry.at)) }
{
    let number = n.child(1);
    if fits(for_numbers(t), number.whole()) {
        return (!is_integer(t)).then_some(n.place() as usize);
    }
    Some(number.place() as usize)
}

#[tactic(auto, using(faults::proofs::Soonest::soonest_steps))]
fn initial(t: Ty, n: Node) -> Option<usize>
    ensures { result ≡ soonest (T.initial_faults t (initial_at n.entry.pool.now n.entry.at)) }
{
    match n.initial() {
        Initial::Nothing => None,
        Initial::Value => number(t, n),
        Initial::Flag(_) => is_integer(t).then_some(n.place() as usize),
    }
}

// The declaration at a node, whose names share their faults.
#[tactic(auto, using(crate::proofs::Declares::nothing_declared, crate::proofs::Declares::one_declared))]
fn declaration(n: Node, best: Option<usize>) -> Option<usize>
    ensures { IsDeclaration n.entry.pool.now n.entry.at best result }
{
    if n.child(1).at == 0 {
        return best;
    }
    let b = bounds(bounds_of(n));
    let v = initial(type_of(n), n.child(2).child(2));
    sooner_of(best, sooner_of(b, v))
}

// All declarations, from the node `n` on. A loop, so that a long list takes no more stack.
pub fn declarations(n: Node, best: Option<usize>) -> Option<usize>
    ensures { IsDeclarations n.entry.pool.now n.entry.at best result }
{
    let mut rest = n;
    let mut x = best;
    while rest.at != 0 {
        x = declaration(rest.child(2), x);
        rest = rest.child(1);
    }
    x
}
