// Expressions of ST0, in nodes of four words.
ghost use Rattle.std.specs.Prelude.{◌≡◌, List, ℕ, ◌≤◌, ◌<◌, ◌+◌, ◌*◌, min, length, get_or};
ghost use Rattle.paper.specs.Plain.{number, truth};
ghost use Rattle.paper.specs.Types.{tag};
ghost use Rattle.paper.specs.declared.Ty.TheVariants.{Bool as BOOL};
ghost use Rattle.paper.specs.declared.Op.TheVariants.{Or};
ghost use Rattle.paper.specs.Unwinding.{bracket_of};
ghost use Rattle.tree.specs.Kinds.{IsExpression};
ghost use Rattle.tree.specs.declared.kinds.Expression.TheVariants.{Binary};
ghost use Rattle.tree.specs.Trees as T;
ghost use Rattle.variables.specs.Table.{listed_in};
ghost use Rattle.unwind.specs.Walks.{Spelt};
ghost use Rattle.unwind.specs.Parts.{Holds, Room, Emitted, PlainDid, CellDid, ReadDid, NoCell};

use constants::{Celled, cell_of, offered_first, type_over};
use paper::{Op, Refusal, Ty, Why};
use tree::kinds::Expression;
use tree::node::Node;
use tree::put;
use variables::listed::Variables;

// The last node, which is the expression's own, its number of parts, 3001 standing for more than 3000, and its type.
#[derive(Clone, Copy)]
pub struct Part {
    pub count: usize,
    pub parts: usize,
    pub ty: Ty,
}

// One node more, where there is room; of what is too long to weigh nothing is kept.
pub fn emit(out: &mut [u16], count: usize, kind: u16, a: u16, b: u16, c: u16) -> usize
    requires { Holds out.old count }
    ensures { Emitted out.old out.new count kind a b c result }
{
    if count + 2 <= out.len() / 4 {
        put(out, count + 1, kind, a, b, c);
        return count + 1;
    }
    count
}

// An expression that ends in a node just written.
fn ended(count: usize, parts: usize, ty: Ty) -> Part
    ensures { (result.count ≡ count) × (result.parts ≡ min 3001 parts) × (result.ty ≡ ty) }
{
    Part {
        count,
        parts: parts.min(3001),
        ty,
    }
}

// The place of an element's `[`, of any other expression its own.
pub fn bracket_of(n: Node) -> usize
    ensures { (t : List ℕ) → result ≡ bracket_of (T.expr_at t n.entry.pool.now n.entry.at) }
{
    match n.expression() {
        Expression::Nothing => 0,
        Expression::Element => n.word(2) as usize,
        _ => n.place() as usize,
    }
}

// 8 at the place of an element's `[`.
fn no_cell(n: Node) -> Refusal
    ensures { NoCell n.entry.pool.now n.entry.at result }
{
    Refusal {
        why: Why::BadWalk,
        place: bracket_of(n),
    }
}

// The cell of the name or element at a node, which is one of the environment's.
pub fn cell_in(vars: Variables, env: &[u32], n: Node) -> Result<Celled, Refusal>
    ensures { CellDid (listed_in vars.entry.text.now vars.entry.pool.now vars.entry.table.now) env.now (T.expr_at vars.entry.text.now n.entry.pool.now n.entry.at) result }
{
    let Some(c) = cell_of(vars, env, n) else {
        return Err(no_cell(n));
    };
    if c.cell < env.len() {
        return Ok(c);
    }
    Err(no_cell(n))
}

// The read of that cell.
fn read(
    vars: Variables,
    env: &[u32],
    n: Node,
    out: &mut [u16],
    count: usize,
) -> Result<Part, Refusal>
    requires { Room out.old count × (length env.now ≤ 64) }
    ensures { ReadDid (listed_in vars.entry.text.now vars.entry.pool.now vars.entry.table.now) vars.entry.text.now n.entry.pool.now env.now n.entry.at out.old out.new count result }
{
    let c = cell_in(vars, env, n)?;
    let last = emit(out, count, 5, c.cell as u16, 0, 0);
    Ok(ended(last, 1, c.ty))
}

// The number at a node, with the type `t`.
pub fn number_at(n: Node, t: Ty, out: &mut [u16], count: usize) -> usize
    requires { Holds out.old count }
    ensures { Spelt out.old out.new count 1 (number t (T.whole_at n.entry.pool.now n.entry.at)) result }
{
    let low = n.word(1);
    let high = n.word(2);
    let v = u8::from(t) as u16;
    if n.word(0) == 2 {
        return emit(out, count, 2, low, high, v);
    }
    emit(out, count, 1, low, high, v)
}

// FALSE or TRUE.
fn truth(b: bool, out: &mut [u16], count: usize) -> Part
    requires { Holds out.old count }
    ensures node { Spelt out.old out.new count 1 (truth b) result.count }
    ensures parts { result.parts ≡ min 3001 1 }
    ensures ty { result.ty ≡ BOOL }
{
    if b {
        return ended(emit(out, count, 4, 0, 0, 0), 1, Ty::Bool);
    }
    ended(emit(out, count, 3, 0, 0, 0), 1, Ty::Bool)
}

// The number of an operator: its kind is 11 more.
pub fn operator_number(o: Op) -> u16
    ensures small { result < 14 }
    ensures is { get_or T.operators result Or ≡ o }
{
    match o {
        Op::Mul => 0,
        Op::Div => 1,
        Op::Mod => 2,
        Op::Add => 3,
        Op::Sub => 4,
        Op::Lt => 5,
        Op::Gt => 6,
        Op::Le => 7,
        Op::Ge => 8,
        Op::Eq => 9,
        Op::Ne => 10,
        Op::And => 11,
        Op::Xor => 12,
        Op::Or => 13,
    }
}

// An operator of one operand, just walked, by its kind and its second word; `ty` is the type of the whole.
fn over(x: Part, kind: u16, w: u16, ty: Ty, out: &mut [u16]) -> Part
    requires { Room out.old x.count × (x.parts ≤ 3001) }
    ensures node { Emitted out.old out.new x.count kind x.count w (tag x.ty) result.count }
    ensures parts { result.parts ≡ min 3001 (x.parts + 1) }
    ensures ty { result.ty ≡ ty }
{
    let u = x.ty;
    let last = emit(out, x.count, kind, x.count as u16, w, u8::from(u) as u16);
    ended(last, x.parts + 1, ty)
}

// The two types of a conversion in one word.
fn both_types(u: Ty, v: Ty) -> u16
    ensures { result ≡ 8 * tag u + tag v }
{
    8 * u8::from(u) as u16 + u8::from(v) as u16
}

// The expression at a node, where `t` is offered, its subscripts looked at from the left.
#[cycle(operands)]
pub fn plain_of(
    vars: Variables,
    env: &[u32],
    t: Ty,
    n: Node,
    out: &mut [u16],
    count: usize,
) -> Result<Part, Refusal>
    requires { Room out.old count × (length env.now ≤ 64) }
    ensures { PlainDid (listed_in vars.entry.text.now vars.entry.pool.now vars.entry.table.now) vars.entry.text.now n.entry.pool.now env.now t n.entry.at out.old out.new count result }
{
    match n.expression() {
        Expression::Nothing => Ok(truth(false, out, count)),
        Expression::Number => Ok(ended(number_at(n, t, out, count), 1, t)),
        Expression::Truth(b) => Ok(truth(b, out, count)),
        Expression::Variable | Expression::Element => read(vars, env, n, out, count),
        Expression::Minus => {
            let x = plain_of(vars, env, t, n.child(1), out, count)?;
            Ok(over(x, 7, 0, x.ty, out))
        }
        Expression::Complement => {
            let x = plain_of(vars, env, Ty::Dint, n.child(1), out, count)?;
            Ok(over(x, 8, 0, Ty::Bool, out))
        }
        Expression::Brackets => plain_of(vars, env, t, n.child(1), out, count),
        Expression::Conversion(u, v) => {
            let x = plain_of(vars, env, u, n.child(1), out, count)?;
            Ok(over(x, 10, both_types(u, v), v, out))
        }
        Expression::Binary(o) => binary_of(vars, env, t, o, n, out, count),
    }
}

// With two operands.
#[cycle(operands)]
fn binary_of(
    vars: Variables,
    env: &[u32],
    t: Ty,
    o: Op,
    n: Node,
    out: &mut [u16],
    count: usize,
) -> Result<Part, Refusal>
    requires { IsExpression n.pool.now n.at (Binary o) × Room out.old count × (length env.now ≤ 64) }
    ensures { PlainDid (listed_in vars.entry.text.now vars.entry.pool.now vars.entry.table.now) vars.entry.text.now n.entry.pool.now env.now t n.entry.at out.old out.new count result }
{
    let v = offered_first(vars, t, o, n);
    let x = plain_of(vars, env, v, n.child(1), out, count)?;
    let u = x.ty;
    let y = plain_of(vars, env, u, n.child(2), out, x.count)?;
    let last = emit(
        out,
        y.count,
        11 + operator_number(o),
        x.count as u16,
        y.count as u16,
        u8::from(u) as u16,
    );
    Ok(ended(
        last,
        x.parts + y.parts + 1,
        type_over(Expression::Binary(o), u),
    ))
}
