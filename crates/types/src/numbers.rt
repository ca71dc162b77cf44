// Numbers, divisors and scan constants.
ghost use Rattle.std.specs.Prelude.{◌≡◌};
ghost use Rattle.paper.specs.Types as Y;
ghost use Rattle.paper.specs.Typing.{is_scan_op, is_constant};
ghost use Rattle.tree.specs.Trees.{expr_at};
ghost use Rattle.types.specs.Says.{around, IsNumber, IsNumberFaults, IsDivisorFault, IsGoodDivisor};

use faults::{of_rule, sooner_of};
use paper::{Op, Ty};
use tree::kinds::Expression;
use tree::node::Node;
use value::{fits, is_signed};
use variables::among;

// Whether a node is a number, with or without minus.
#[tactic(auto, using(crate::proofs::Constants::plain_numbers))]
pub fn is_number(n: Node) -> bool
    ensures { IsNumber n.entry.pool.now n.entry.at result }
{
    matches!(n.expression(), Expression::Number)
}

fn divides(o: Op) -> bool
    ensures { result ≡ Y.divides o }
{
    matches!(o, Op::Div | Op::Mod)
}

// A divisor of zero, at its own place.
#[tactic(auto, using(crate::proofs::Constants::divisors))]
pub fn divisor_fault(o: Op, n: Node) -> Option<usize>
    ensures { IsDivisorFault n.entry.pool.now o n.entry.at result }
{
    if !divides(o) {
        return None;
    }
    match n.expression() {
        Expression::Number => (n.wide() == 0).then_some(n.place() as usize),
        _ => None,
    }
}

// A divisor is a plain number.
pub fn is_good_divisor(o: Op, n: Node) -> bool
    ensures { IsGoodDivisor n.entry.pool.now o n.entry.at result }
{
    !divides(o) || is_number(n)
}

// The faults of numbers, brackets and arithmetic, where the whole takes the type `t`.
#[tactic(auto, using(crate::proofs::Constants::numbers))]
pub fn number_faults(t: Ty, n: Node) -> Option<usize>
    ensures { IsNumberFaults n.entry.pool.now t n.entry.at result }
{
    match n.expression() {
        Expression::Number => (!fits(t, n.whole())).then_some(n.place() as usize),
        Expression::Minus => {
            let x = number_faults(t, n.child(1));
            of_rule(x, is_signed(t), n.place())
        }
        Expression::Brackets => number_faults(t, n.child(1)),
        Expression::Binary(o) => {
            let r = n.child(2);
            let x = number_faults(t, n.child(1));
            let y = number_faults(t, r);
            let parts = sooner_of(sooner_of(x, y), divisor_fault(o, r));
            of_rule(parts, is_good_divisor(o, r), n.place())
        }
        _ => None,
    }
}

// Whether an operator may stand in a scan constant.
fn is_scan(o: Op) -> bool
    ensures { result ≡ is_scan_op o }
{
    matches!(o, Op::Mul | Op::Add | Op::Sub)
}

// Whether an expression can be worked out of numbers and the variables of the FORs around.
#[tactic(auto, using(crate::proofs::Constants::constants))]
pub fn is_constant(text: &[u8], loops: &[u16], n: Node) -> bool
    ensures { result ≡ is_constant (around text.now loops.now) (expr_at text.now n.entry.pool.now n.entry.at) }
{
    match n.expression() {
        Expression::Number => true,
        Expression::Variable => among(text, loops, n.place()),
        Expression::Minus | Expression::Brackets | Expression::Conversion(..) => {
            is_constant(text, loops, n.child(1))
        }
        Expression::Binary(o) => {
            is_scan(o)
                && is_constant(text, loops, n.child(1))
                && is_constant(text, loops, n.child(2))
        }
        _ => false,
    }
}
