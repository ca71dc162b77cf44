// Types of sound expressions, and what can be worked out before the program runs.
// The variables of the table and what their cells hold are lent to each function.
#![tactic(auto)]

ghost use Rattle.std.specs.Prelude.{◌≡◌, not, ◌&&◌, ◌-◌, pos, get_or, IfSome};
ghost use Rattle.std.proofs.Math.Option.{some};
ghost use Rattle.paper.specs.declared.Ty.TheVariants.{Bool as BOOL};
ghost use Rattle.paper.specs.declared.Op.TheVariants.{Or};
ghost use Rattle.paper.specs.Types.{negate, convert, bit, is_true, decode, divides, sort_of, is_arithmetic};
ghost use Rattle.paper.specs.Typing.{is_zero, type_of_name, type_of, operand_type};
ghost use Rattle.paper.specs.Plain as Plain;
ghost use Rattle.paper.specs.Meaning.{operate, variable_cell, element_cell, whole_value};
ghost use Rattle.tree.specs.Trees.{name_at, operators, expr_at};
ghost use Rattle.tree.specs.Kinds.{operand, IsExpression};
ghost use Rattle.tree.specs.declared.kinds.Expression.TheVariants.{Binary};
ghost use Rattle.variables.specs.Table.{listed_in};
ghost use Rattle.constants.specs.Answers.{maybe, valued, celled, cell_between, NamedCell, CellIn, ValueIn, TypedAt, Offers, result_at, type_over};

use paper::{Op, Ty};
use tree::kinds::{Expression, operator_with};
use tree::node::Node;
use value::{apply, bit_of, converted, is_true, negated, residue_of, type_with, value_of};
use variables::declared::{bounds_of, is_array, type_of};
use variables::listed::Variables;

// A residue and the type that it is of.
#[derive(Clone, Copy)]
pub struct Valued {
    pub residue: u32,
    pub ty: Ty,
}

// A cell and its variable's type.
#[derive(Clone, Copy)]
pub struct Celled {
    pub cell: usize,
    pub ty: Ty,
}

// ---- types

// The declared type of a name, DINT where there is none.
pub fn type_of_name(vars: Variables, place: u16) -> Ty
    ensures { result ≡ type_of_name (listed_in vars.entry.text.now vars.entry.pool.now vars.entry.table.now) (name_at vars.entry.text.now place) }
{
    match vars.find(place) {
        Some(v) => type_of(vars.declaration(v)),
        None => Ty::Dint,
    }
}

// Whether an operator is arithmetic: its result has the type of its operands.
fn is_arithmetic(o: Op) -> bool
    ensures { result ≡ is_arithmetic (sort_of o) }
{
    match o {
        Op::Mul | Op::Div | Op::Mod | Op::Add | Op::Sub => true,
        Op::Lt | Op::Gt | Op::Le | Op::Ge | Op::Eq | Op::Ne | Op::And | Op::Xor | Op::Or => false,
    }
}

// The type of the expression at a node, over variables that are lent, so that none is copied on the way down.
// A loop, so that a long chain of second operands takes no more stack.
#[tactic(auto, using(crate::proofs::Types::types_by_kind))]
fn own_type(vars: &Variables, n: Node) -> Option<Ty>
    ensures { maybe result ≡ type_of (listed_in vars.now.text.now vars.now.pool.now vars.now.table.now)
        (expr_at vars.now.text.now n.entry.pool.now n.entry.at) }
{
    let mut rest = n;
    loop {
        match rest.expression() {
            Expression::Number => return None,
            Expression::Variable | Expression::Element => {
                return Some(type_of_name(*vars, rest.place()));
            }
            Expression::Minus | Expression::Brackets => rest = rest.child(1),
            Expression::Conversion(_, u) => return Some(u),
            Expression::Binary(o) if !is_arithmetic(o) => return Some(Ty::Bool),
            Expression::Binary(_) => match own_type(vars, rest.child(1)) {
                Some(u) => return Some(u),
                None => rest = rest.child(2),
            },
            _ => return Some(Ty::Bool),
        }
    }
}

// The type of the expression at a node; what is made of numbers only has none.
pub fn type_of_expression(vars: Variables, n: Node) -> Option<Ty>
    ensures { maybe result ≡ type_of (listed_in vars.entry.text.now vars.entry.pool.now vars.entry.table.now)
        (expr_at vars.entry.text.now n.entry.pool.now n.entry.at) }
{
    own_type(&vars, n)
}

// The operator of a node's kind, the first and the last beyond the ends.
pub fn operator_at(k: u16) -> Op
    ensures { result ≡ get_or operators (k - 11) Or }
{
    operator_with(k.saturating_sub(11) as u32).unwrap_or(Op::Or)
}

// The one type of both operands of the operator at a node, where `t` is offered to the whole.
pub fn operand_type(vars: Variables, t: Ty, o: Op, n: Node) -> Ty
    ensures { result ≡ operand_type (listed_in vars.entry.text.now vars.entry.pool.now vars.entry.table.now) t o
        (operand n.entry.pool.now n.entry.at vars.entry.text.now 1)
        (operand n.entry.pool.now n.entry.at vars.entry.text.now 2) }
{
    if let Some(a) = type_of_expression(vars, n.child(1)) {
        return a;
    }
    if let Some(b) = type_of_expression(vars, n.child(2)) {
        return b;
    }
    if is_arithmetic(o) { t } else { Ty::Dint }
}

// Whether an expression begins with what has a type of its own, and so has one itself; a number has none.
// A loop, so that a long chain takes no more stack.
pub fn is_typed(n: Node) -> bool
    ensures { TypedAt n.entry.pool.now n.entry.at result }
{
    let mut first = n;
    loop {
        match first.expression() {
            Expression::Nothing | Expression::Number => return false,
            Expression::Minus | Expression::Brackets => first = first.child(1),
            Expression::Binary(o) if !is_arithmetic(o) => return true,
            Expression::Binary(_) => first = first.child(1),
            _ => return true,
        }
    }
}

// The type that is offered to the first of two operands: where it has its own, any will do, and no name is looked up for it.
pub fn offered_first(vars: Variables, t: Ty, o: Op, n: Node) -> Ty
    ensures { Offers (listed_in vars.entry.text.now vars.entry.pool.now vars.entry.table.now) t o
        (operand n.entry.pool.now n.entry.at vars.entry.text.now 1)
        (operand n.entry.pool.now n.entry.at vars.entry.text.now 2) result }
{
    if is_typed(n.child(1)) {
        return t;
    }
    operand_type(vars, t, o, n)
}

// The type of a node of the kind `k`, whose word 2 is `w`, over operands of the type `u`.
#[tactic(auto, using(crate::proofs::Types::by_kind))]
pub fn result_type(k: u16, w: u16, u: Ty) -> Ty
    ensures { result ≡ result_at k w u }
{
    match k {
        8 => Ty::Bool,
        10 => type_with(w as u32 % 8),
        0..=10 => u,
        _ => type_over(Expression::Binary(operator_at(k)), u),
    }
}

// The type of an expression over operands of the type `u`.
pub fn type_over(e: Expression, u: Ty) -> Ty
    ensures { result ≡ type_over e u }
{
    match e {
        Expression::Complement => Ty::Bool,
        Expression::Conversion(_, v) => v,
        Expression::Binary(o) => if is_arithmetic(o) { u } else { Ty::Bool },
        _ => u,
    }
}

// ---- cells

// The cell of a variable that is no array.
pub fn variable_cell(vars: Variables, place: u16) -> Option<Celled>
    ensures { NamedCell (listed_in vars.entry.text.now vars.entry.pool.now vars.entry.table.now) (name_at vars.entry.text.now place)
        (variable_cell (listed_in vars.entry.text.now vars.entry.pool.now vars.entry.table.now) (name_at vars.entry.text.now place)) result }
{
    let v = vars.find(place)?;
    let declared = vars.declaration(v);
    if is_array(declared) {
        return None;
    }
    Some(Celled {
        cell: vars.first_cell(v) as usize,
        ty: type_of(declared),
    })
}

// The cell of the element `n` of an array from `lo` to `hi`, if it lies in the array.
fn cell_from(first: u16, lo: u32, hi: u32, n: usize) -> Option<usize>
    ensures { maybe result ≡ cell_between first lo hi n }
{
    let a = lo as usize;
    let b = hi as usize;
    if n < a || b < n {
        return None;
    }
    Some(first as usize + (n - a))
}

// The same of the array of a name.
fn cell_at(vars: Variables, place: u16, n: usize) -> Option<Celled>
    ensures { NamedCell (listed_in vars.entry.text.now vars.entry.pool.now vars.entry.table.now) (name_at vars.entry.text.now place)
        (element_cell (listed_in vars.entry.text.now vars.entry.pool.now vars.entry.table.now) (name_at vars.entry.text.now place) (some (pos n)))
        result }
{
    let v = vars.find(place)?;
    let declared = vars.declaration(v);
    if !is_array(declared) {
        return None;
    }
    let bounds = bounds_of(declared);
    let lo = bounds.child(1).wide();
    let hi = bounds.child(2).wide();
    let cell = cell_from(vars.first_cell(v), lo, hi, n)?;
    Some(Celled {
        cell,
        ty: type_of(declared),
    })
}

// The same of a whole number.
fn element_cell(vars: Variables, place: u16, z: i64) -> Option<Celled>
    ensures { NamedCell (listed_in vars.entry.text.now vars.entry.pool.now vars.entry.table.now) (name_at vars.entry.text.now place)
        (element_cell (listed_in vars.entry.text.now vars.entry.pool.now vars.entry.table.now) (name_at vars.entry.text.now place) (some z)) result }
{
    if z < 0 {
        return None;
    }
    cell_at(vars, place, z as usize)
}

// ---- operations

// What a cell holds, 0 beyond the end.
fn look(env: &[u32], c: Celled) -> Valued
    ensures residue { result.residue ≡ Plain.look env.now (record { 0 = c.cell }) }
    ensures ty { result.ty ≡ c.ty }
{
    Valued {
        residue: env.get(c.cell).copied().unwrap_or(0),
        ty: c.ty,
    }
}

// The residue as a whole number.
fn whole_of(x: Valued) -> i64
    ensures { result ≡ decode x.ty x.residue }
{
    value_of(x.ty, x.residue)
}

// A truth value.
fn truth_of(b: bool) -> Valued
    ensures residue { result.residue ≡ bit b }
    ensures ty { result.ty ≡ BOOL }
{
    Valued {
        residue: bit_of(b),
        ty: Ty::Bool,
    }
}

// Unary minus.
fn minus_of(x: Valued) -> Valued
    ensures residue { result.residue ≡ negate x.ty x.residue }
    ensures ty { result.ty ≡ x.ty }
{
    Valued {
        residue: negated(x.ty, x.residue),
        ty: x.ty,
    }
}

// NOT.
fn complement_of(x: Valued) -> Valued
    ensures residue { result.residue ≡ bit (not (is_true x.residue)) }
    ensures ty { result.ty ≡ BOOL }
{
    truth_of(!is_true(x.residue))
}

// A conversion from the type `t` to the type `u`.
fn conversion_of(t: Ty, u: Ty, x: Valued) -> Valued
    ensures residue { result.residue ≡ convert t u x.residue }
    ensures ty { result.ty ≡ u }
{
    Valued {
        residue: converted(t, u, x.residue),
        ty: u,
    }
}

// Whether an operator divides by zero.
fn by_zero(o: Op, t: Ty, b: u32) -> bool
    ensures { result ≡ divides o && is_zero (decode t b) }
{
    matches!(o, Op::Div | Op::Mod) && value_of(t, b) == 0
}

// An operator on two operands of the type `t`: none by zero.
fn result_of(o: Op, t: Ty, a: u32, b: u32) -> Option<Valued>
    ensures value { valued result ≡ operate o t a b }
    ensures ty { IfSome result (λ r. r.ty ≡ type_over (Binary o) t) }
{
    if by_zero(o, t, b) {
        return None;
    }
    Some(Valued {
        residue: apply(o, t, a, b),
        ty: type_over(Expression::Binary(o), t),
    })
}

// ---- values

// The cell of the name or element at a node.
#[cycle(values)]
#[tactic(auto, using(crate::proofs::Values::nothing_of_nothing))]
pub fn cell_of(vars: Variables, env: &[u32], n: Node) -> Option<Celled>
    ensures { CellIn (listed_in vars.entry.text.now vars.entry.pool.now vars.entry.table.now) env.now
        (expr_at vars.entry.text.now n.entry.pool.now n.entry.at) result }
{
    match n.expression() {
        Expression::Variable => variable_cell(vars, n.place()),
        Expression::Element => {
            let z = whole_in(vars, env, Ty::Dint, n.child(1))?;
            element_cell(vars, n.place(), z)
        }
        _ => None,
    }
}

// The value of the expression at a node with two operands; the first one's value tells the type of both.
#[cycle(values)]
#[tactic(auto, using(crate::proofs::Values::nothing_of_two))]
fn binary_value(vars: Variables, env: &[u32], t: Ty, o: Op, n: Node) -> Option<Valued>
    requires { IsExpression n.pool.now n.at (Binary o) }
    ensures { ValueIn (listed_in vars.entry.text.now vars.entry.pool.now vars.entry.table.now) env.now t
        (expr_at vars.entry.text.now n.entry.pool.now n.entry.at) result }
{
    let offered = offered_first(vars, t, o, n);
    let x = value_in(vars, env, offered, n.child(1))?;
    let u = x.ty;
    let y = value_in(vars, env, u, n.child(2))?;
    result_of(o, u, x.residue, y.residue)
}

// The value of the expression at a node, where `t` is offered.
#[cycle(values)]
#[tactic(auto, using(crate::proofs::Values::nothing_of_nothing))]
pub fn value_in(vars: Variables, env: &[u32], t: Ty, n: Node) -> Option<Valued>
    ensures { ValueIn (listed_in vars.entry.text.now vars.entry.pool.now vars.entry.table.now) env.now t
        (expr_at vars.entry.text.now n.entry.pool.now n.entry.at) result }
{
    match n.expression() {
        Expression::Nothing => Some(truth_of(false)),
        Expression::Number => Some(Valued {
            residue: residue_of(t, n.whole()),
            ty: t,
        }),
        Expression::Truth(b) => Some(truth_of(b)),
        Expression::Variable | Expression::Element => {
            let c = cell_of(vars, env, n)?;
            Some(look(env, c))
        }
        Expression::Minus => {
            let x = value_in(vars, env, t, n.child(1))?;
            Some(minus_of(x))
        }
        Expression::Complement => {
            let x = value_in(vars, env, Ty::Dint, n.child(1))?;
            Some(complement_of(x))
        }
        Expression::Brackets => value_in(vars, env, t, n.child(1)),
        Expression::Conversion(u, v) => {
            let x = value_in(vars, env, u, n.child(1))?;
            Some(conversion_of(u, v, x))
        }
        Expression::Binary(o) => binary_value(vars, env, t, o, n),
    }
}

// The same as a whole number: of bounds, steps and subscripts.
#[cycle(values)]
#[tactic(auto, using(crate::proofs::Values::nothing_of_nothing))]
pub fn whole_in(vars: Variables, env: &[u32], t: Ty, n: Node) -> Option<i64>
    ensures { maybe result ≡ whole_value (listed_in vars.entry.text.now vars.entry.pool.now vars.entry.table.now) env.now t
        (expr_at vars.entry.text.now n.entry.pool.now n.entry.at) }
{
    let x = value_in(vars, env, t, n)?;
    Some(whole_of(x))
}
