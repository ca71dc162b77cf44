// The value of one row, and the next value of one cell. A row or cell that isn't there counts as 0.
ghost use Rattle.std.specs.Prelude.{◌≡◌, cond, ◌+◌, ◌*◌, ◌-◌, ◌/◌, ◌%◌, ◌≤◌, eqb, length, get_or};
ghost use Rattle.paper.specs.Types.{is_true};
ghost use Rattle.paper.specs.Tables.{line_value};
ghost use Rattle.rows.specs.Lent.{line_at};

use crate::line::{Line, line_at};
use value::{apply, bit_of, converted, is_true, negated};

// The number at a place, or 0.
fn value_at(list: &[u32], a: u32) -> u32
    ensures { result ≡ get_or list.now a 0 }
{
    list.get(a as usize).copied().unwrap_or(0)
}

// The value a where the condition c holds, else b.
fn selected(c: u32, a: u32, b: u32) -> u32
    ensures { result ≡ cond (is_true c) a b }
{
    if is_true(c) { a } else { b }
}

// The value of row i, where the rows before it have the values `vals`.
pub fn row_value(rows: &[u32], i: usize, state: &[u32], vals: &[u32]) -> u32
    requires { 4 * i + 4 ≤ length rows.now }
    ensures { result ≡ line_value state.now vals.now (line_at rows.now i) }
{
    match line_at(rows, i) {
        Line::Number(_, n) => n,
        Line::Read(_, c) => value_at(state, c),
        Line::Minus(t, a) => negated(t, value_at(vals, a)),
        Line::Complement(_, a) => bit_of(!is_true(value_at(vals, a))),
        Line::Select(_, c, a, b) => {
            selected(value_at(vals, c), value_at(vals, a), value_at(vals, b))
        }
        Line::Binary(o, t, a, b) => apply(o, t, value_at(vals, a), value_at(vals, b)),
        Line::Conversion(t, u, a) => converted(t, u, value_at(vals, a)),
    }
}

// Whether a cell is an input.
pub fn is_input(x: u32) -> bool
    ensures { result ≡ eqb (x / 8 % 2) 1 }
{
    x / 8 % 2 == 1
}

// A cell's next row; row 0 stands for none.
pub fn next_row(x: u32) -> u32
    ensures { result ≡ x / 16 - 1 }
{
    (x / 16).saturating_sub(1)
}

// The next value of the cell x that holds v: an input keeps its reading.
pub fn next_value(x: u32, vals: &[u32], v: u32) -> u32
    ensures { result ≡ cond (eqb (x / 8 % 2) 1) v (get_or vals.now (x / 16 - 1) 0) }
{
    if is_input(x) {
        v
    } else {
        value_at(vals, next_row(x))
    }
}
