// What nodes of ST0 are, by their kinds: of expressions, and of lists of statements.
ghost use Rattle.std.specs.Prelude.{◌≡◌};
ghost use Rattle.plain.specs.Flat.{type_at, cell_at};
ghost use Rattle.plain.specs.Kinds.{IsExpression, IsStatement};

use paper::{Cell, Op, Ty};
use tree::kinds::operator_with;
use tree::node::Node;
use value::type_with;

// The node of an expression; its operands are its children. A node that is none is FALSE.
#[derive(Clone, Copy)]
pub enum Expression {
    Number,
    Truth(bool),
    Read,
    Minus,
    Complement,
    Conversion(Ty, Ty),
    Binary(Op),
}

// The node of a list: an assignment, an IF, or a list and another behind it.
#[derive(Clone, Copy)]
pub enum Statement {
    Nothing,
    Assignment,
    Choice,
    List,
}

// The node as that of an expression.
pub fn as_expression(n: Node) -> Expression
    ensures { IsExpression n.entry.pool.now n.entry.at result }
{
    match n.kind() {
        1 | 2 => Expression::Number,
        4 => Expression::Truth(true),
        5 => Expression::Read,
        7 => Expression::Minus,
        8 => Expression::Complement,
        10 => {
            let w = n.word(2) as u32;
            Expression::Conversion(type_with(w / 8), type_with(w % 8))
        }
        0 | 3 | 6 | 9 => Expression::Truth(false),
        k => match operator_with(k as u32 - 11) {
            Some(o) => Expression::Binary(o),
            None => Expression::Truth(false),
        },
    }
}

// The node as that of a list of statements.
pub fn as_statement(n: Node) -> Statement
    ensures { IsStatement n.entry.pool.now n.entry.at result }
{
    if n.at == 0 {
        return Statement::Nothing;
    }
    match n.word(0) {
        0..=40 => Statement::Assignment,
        41 => Statement::Choice,
        44 => Statement::List,
        _ => Statement::Nothing,
    }
}

// The type that stands at a node.
pub fn type_of(n: Node) -> Ty
    ensures { result ≡ type_at n.entry.pool.now n.entry.at }
{
    type_with(n.word(3) as u32)
}

// The cell that a node reads or assigns.
pub fn cell_of(n: Node) -> Cell
    ensures { result ≡ cell_at n.entry.pool.now n.entry.at }
{
    Cell(n.word(1))
}
