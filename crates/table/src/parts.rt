// Rows of expressions: one for each part, and the row that stands for a cell where it is read.
ghost use Rattle.std.specs.Prelude.{◌≡◌, ◌≤◌};
ghost use Rattle.paper.specs.declared.Ty.{Ty};
ghost use Rattle.paper.specs.declared.Row.{Row};
ghost use Rattle.paper.specs.Tables as T;
ghost use Rattle.paper.specs.Tables.{expression_rows};
ghost use Rattle.plain.specs.Flat.{expr_at};
ghost use Rattle.table.specs.Growth.{rows_in};
ghost use Rattle.table.specs.Walks.{Makes};

use crate::records::{Made, head, push_number, push_one, push_two};
use crate::standing::row_of;
use paper::{Op, Ty};
use plain::kinds::{Expression, as_expression, cell_of, type_of};
use tree::node::Node;
use value::{bit_of, residue_of};

// An operator's number in a row.
fn operation_of(o: Op) -> u32
    ensures number { (t : Ty) (a b : Row) → result ≡ T.operation (T.binary o t a b) }
    ensures most { result ≤ 18 }
{
    match o {
        Op::Mul => 5,
        Op::Div => 6,
        Op::Mod => 7,
        Op::Add => 8,
        Op::Sub => 9,
        Op::Lt => 10,
        Op::Gt => 11,
        Op::Le => 12,
        Op::Ge => 13,
        Op::Eq => 14,
        Op::Ne => 15,
        Op::And => 16,
        Op::Xor => 17,
        Op::Or => 18,
    }
}

// The rows of the expression at a node.
pub fn expression_rows(n: Node, env: &[u16], rows: &mut [u32], count: u16) -> Made
    ensures { Makes rows.old rows.new count (expression_rows (rows_in env.now) (expr_at n.entry.pool.now n.entry.at)) result }
{
    match as_expression(n) {
        Expression::Number => {
            let t = type_of(n);
            push_number(rows, count, head(0, t), residue_of(t, n.whole()))
        }
        Expression::Truth(b) => push_number(rows, count, 0, bit_of(b)),
        Expression::Read => Made {
            count,
            at: row_of(env, cell_of(n)),
        },
        Expression::Minus => {
            let x = expression_rows(n.child(1), env, rows, count);
            push_one(rows, x.count, head(2, type_of(n)), x.at)
        }
        Expression::Complement => {
            let x = expression_rows(n.child(1), env, rows, count);
            push_one(rows, x.count, head(3, Ty::Bool), x.at)
        }
        Expression::Conversion(t, u) => {
            let x = expression_rows(n.child(1), env, rows, count);
            push_one(rows, x.count, head(18 + u8::from(u) as u32, t), x.at)
        }
        Expression::Binary(o) => {
            let x = expression_rows(n.child(1), env, rows, count);
            let y = expression_rows(n.child(2), env, rows, x.count);
            push_two(rows, y.count, head(operation_of(o), type_of(n)), x.at, y.at)
        }
    }
}
