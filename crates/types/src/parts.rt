// One walk of an expression gives its type, or that it is made of numbers only, or that it is faulty.
ghost use Rattle.std.specs.Prelude.{◌≡◌, not, ◌&&◌, ◌<◌};
ghost use Rattle.std.specs.Bool.{then_some};
ghost use Rattle.std.specs.Option.{option_or};
ghost use Rattle.paper.specs.Types as Y;
ghost use Rattle.tree.specs.Nodes.{child_of};
ghost use Rattle.variables.specs.Table.{variables_in};
ghost use Rattle.types.specs.Says.{fault_of, is_open, Settling, JudgedAt, SettledAt};
ghost use Rattle.types.specs.Joins.{Unless, IsOperation, offered_by, NamedAs, ElementAs, NegatedAs, ComplementAs, ConvertedAs, OperatedAs, JoinedAs};

use crate::numbers::{divisor_fault, is_constant, is_good_divisor, number_faults};
use faults::{of_rule, sooner_of, with_fault};
use paper::{Op, Ty};
use tree::kinds::Expression;
use tree::node::Node;
use value::is_signed;
use variables::declared::{is_array, type_of};
use variables::listed::Variables;

// What a walk says: its type; numbers, brackets and arithmetic only; or the place of its soonest fault.
#[derive(Clone, Copy)]
pub enum Judged {
    Typed(Ty),
    Numbers,
    Faulty(usize),
}

impl Judged {
    // The place of its soonest fault.
    pub fn fault(self) -> Option<usize>
        ensures { result ≡ fault_of self }
    {
        match self {
            Judged::Faulty(place) => Some(place),
            _ => None,
        }
    }

    // Whether it is numbers only, whose type is open.
    fn is_open(self) -> bool
        ensures { result ≡ is_open self }
    {
        matches!(self, Judged::Numbers)
    }
}

// The type is settled; `first` is the place of the soonest fault.
#[derive(Clone, Copy)]
pub struct Settled {
    pub first: Option<usize>,
    pub ty: Ty,
}

pub fn is_integer(t: Ty) -> bool
    ensures { result ≡ Y.is_integer t }
{
    t != Ty::Bool
}

// What numbers take where `t` is offered: DINT beside BOOL.
pub fn for_numbers(t: Ty) -> Ty
    ensures { result ≡ Y.for_numbers t }
{
    if is_integer(t) { t } else { Ty::Dint }
}

// Of the type `t`, if there is no fault.
#[tactic(auto, using(faults::proofs::Soonest::soonest_steps, faults::proofs::Soonest::soonest_empty))]
fn typed_unless(first: Option<usize>, t: Ty) -> Judged
    ensures { Unless first t result }
{
    match first {
        None => Judged::Typed(t),
        Some(place) => Judged::Faulty(place),
    }
}

// An expression where `t` is offered.
#[tactic(auto, using(faults::proofs::Soonest::soonest_steps))]
pub fn settle(t: Ty, n: Node, x: Judged) -> Settled
    ensures { Settling n.entry.pool.now t n.entry.at x result }
{
    match x {
        Judged::Faulty(place) => Settled {
            first: Some(place),
            ty: t,
        },
        Judged::Typed(own) => Settled {
            first: None,
            ty: own,
        },
        Judged::Numbers => {
            let u = for_numbers(t);
            Settled {
                first: number_faults(u, n),
                ty: u,
            }
        }
    }
}

// A name: with a subscript, whose soonest fault is `sub`, it is an array, else none.
fn named(vars: Variables, place: u16, subscripted: bool, sub: Option<usize>) -> Judged
    ensures { NamedAs vars.entry.text.now vars.entry.pool.now vars.entry.table.now place subscripted sub result }
{
    if let Some(v) = vars.find(place) {
        let declared = vars.declaration(v);
        if is_array(declared) == subscripted {
            return typed_unless(sub, type_of(declared));
        }
    }
    typed_unless(with_fault(sub, place), Ty::Bool)
}

// A name with a subscript, judged x.
fn element(vars: Variables, loops: &[u16], n: Node, x: Judged) -> Judged
    ensures { ElementAs (variables_in vars.entry.text.now vars.entry.pool.now vars.entry.table.now) vars.entry.text.now loops.now
        n.entry.pool.now n.entry.at x result }
{
    let a = n.child(1);
    let s = settle(Ty::Dint, a, x);
    let sub = of_rule(s.first, is_constant(vars.text, loops, a), n.word(2));
    named(vars, n.place(), true, sub)
}

// Unary minus: open where its operand is, else of a signed type.
#[tactic(auto, using(faults::proofs::Soonest::soonest_steps))]
fn negated(p: u16, x: Judged) -> Judged
    ensures { NegatedAs p x result }
{
    match x {
        Judged::Typed(t) => typed_unless((!is_signed(t)).then_some(p as usize), t),
        _ => x,
    }
}

// NOT, of a BOOL.
#[tactic(auto, using(faults::proofs::Soonest::soonest_steps))]
fn complement(n: Node, x: Judged) -> Judged
    ensures { ComplementAs n.entry.pool.now n.entry.at x result }
{
    let s = settle(Ty::Dint, n.child(1), x);
    typed_unless(demand(Ty::Bool, n.place(), s), Ty::Bool)
}

// An operand that must have the type `t`, else the fault is at `p`.
pub fn demand(t: Ty, p: u16, s: Settled) -> Option<usize>
    ensures { result ≡ option_or s.first (then_some (not (Y.same_ty t s.ty)) p) }
{
    of_rule(s.first, t == s.ty, p)
}

// Whether what has the type `own` may be converted from `t` to `u`.
fn is_conversion(t: Ty, u: Ty, own: Ty) -> bool
    ensures { result ≡ (Y.same_ty t own && Y.is_integer t && Y.is_integer u && not (Y.same_ty t u)) }
{
    t == own && is_integer(t) && is_integer(u) && t != u
}

// From the integer type `t` to another.
#[tactic(auto, using(faults::proofs::Soonest::soonest_steps))]
fn converted(n: Node, t: Ty, u: Ty, x: Judged) -> Judged
    ensures { ConvertedAs n.entry.pool.now n.entry.at t u x result }
{
    let s = settle(t, n.child(1), x);
    let good = is_conversion(t, u, s.ty);
    typed_unless(of_rule(s.first, good, n.place()), u)
}

// Whether an operator is arithmetic, so that numbers stay open.
fn is_arithmetic(o: Op) -> bool
    ensures { result ≡ Y.is_arithmetic (Y.sort_of o) }
{
    match o {
        Op::Mul | Op::Div | Op::Mod | Op::Add | Op::Sub => true,
        Op::Lt | Op::Gt | Op::Le | Op::Ge | Op::Eq | Op::Ne | Op::And | Op::Xor | Op::Or => false,
    }
}

// Whether an operator takes operands of a type: arithmetic and order integers, equality any, logic BOOL.
fn takes(o: Op, t: Ty) -> bool
    ensures { result ≡ Y.takes (Y.sort_of o) t }
{
    match o {
        Op::Eq | Op::Ne => true,
        Op::And | Op::Xor | Op::Or => !is_integer(t),
        _ => is_integer(t),
    }
}

// The type of the result for operands of the type `t`.
fn gives(o: Op, t: Ty) -> Ty
    ensures { result ≡ Y.gives (Y.sort_of o) t }
{
    if is_arithmetic(o) { t } else { Ty::Bool }
}

// Whether an operator takes operands of the types `t` and `u`, and the right one, at a node, as a divisor.
fn is_operation(o: Op, n: Node, t: Ty, u: Ty) -> bool
    ensures { IsOperation n.entry.pool.now o n.entry.at t u result }
{
    t == u && takes(o, t) && is_good_divisor(o, n)
}

// The operator's own rule: one type on both sides, of its kind, and a good divisor.
#[tactic(auto, using(faults::proofs::Soonest::soonest_steps))]
fn operated(n: Node, o: Op, x: Settled, y: Settled) -> Judged
    ensures { OperatedAs n.entry.pool.now n.entry.at o x y result }
{
    let right = n.child(2);
    let parts = sooner_of(sooner_of(x.first, y.first), divisor_fault(o, right));
    let good = is_operation(o, right, x.ty, y.ty);
    typed_unless(of_rule(parts, good, n.place()), gives(o, x.ty))
}

// The type that two operands offer each other: that of the first that has one, else DINT.
fn offered(x: Judged, y: Judged) -> Ty
    ensures { result ≡ offered_by x y }
{
    match (x, y) {
        (Judged::Typed(t), _) => t,
        (_, Judged::Typed(u)) => u,
        _ => Ty::Dint,
    }
}

// Each operand takes its type from the other; two of numbers only are DINT, but for arithmetic, which stays open.
fn joined(n: Node, o: Op, x: Judged, y: Judged) -> Judged
    ensures { JoinedAs n.entry.pool.now n.entry.at o x y result }
{
    if let Some(place) = sooner_of(x.fault(), y.fault()) {
        return Judged::Faulty(place);
    }
    if x.is_open() && y.is_open() && is_arithmetic(o) {
        return x;
    }
    let t = offered(x, y);
    let v = settle(t, n.child(1), x);
    let w = settle(t, n.child(2), y);
    operated(n, o, v, w)
}

// The operand `k` of the expression at a node.
#[cycle(judging)]
fn operand(vars: Variables, loops: &[u16], n: Node, k: usize) -> Judged
    requires { (0 < n.at) × (k < 4) }
    ensures { JudgedAt (variables_in vars.entry.text.now vars.entry.pool.now vars.entry.table.now) vars.entry.text.now loops.now
        n.entry.pool.now (child_of n.entry.pool.now n.entry.at k) result }
{
    judge(vars, loops, n.child(k))
}

// The expression at a node. One call for the first operand of whatever kind, and one for the second, so that a long chain takes less stack.
#[cycle(judging)]
#[tactic(auto, using(crate::proofs::Walking::walks))]
pub fn judge(vars: Variables, loops: &[u16], n: Node) -> Judged
    ensures { JudgedAt (variables_in vars.entry.text.now vars.entry.pool.now vars.entry.table.now) vars.entry.text.now loops.now
        n.entry.pool.now n.entry.at result }
{
    let e = n.expression();
    match e {
        Expression::Nothing | Expression::Truth(_) => return Judged::Typed(Ty::Bool),
        Expression::Number => return Judged::Numbers,
        Expression::Variable => return named(vars, n.place(), false, None),
        _ => {}
    }
    let x = operand(vars, loops, n, 1);
    match e {
        Expression::Element => element(vars, loops, n, x),
        Expression::Minus => negated(n.place(), x),
        Expression::Complement => complement(n, x),
        Expression::Conversion(t, u) => converted(n, t, u, x),
        Expression::Binary(o) => {
            let y = operand(vars, loops, n, 2);
            joined(n, o, x, y)
        }
        // Brackets
        _ => x,
    }
}

// The expression at a node, where `t` is offered.
#[tactic(auto, unfolding(paper::specs::Typing::settled))]
pub fn judge_in(vars: Variables, loops: &[u16], t: Ty, n: Node) -> Settled
    ensures { SettledAt (variables_in vars.entry.text.now vars.entry.pool.now vars.entry.table.now) vars.entry.text.now loops.now
        n.entry.pool.now t n.entry.at result }
{
    settle(t, n, judge(vars, loops, n))
}
