// Rule 11 for one row, for the rows and for the cells. Every part is total: rows and cells may hold anything.
ghost use Rattle.std.specs.Prelude.{[], map, ◌≡◌, ◌+◌, ◌*◌, ◌≤◌, length};
ghost use Rattle.paper.specs.Tables.{row, binary, line_keeps, line_type, is_earlier, is_divisor, is_cell, lines_in, cell_keeps, cells_keep};
ghost use Rattle.rows.specs.Lent.{line_at, is_known, row_keeps, rows_keep, info_in};

use crate::line::{Form, Line, form_of, line_at};
use crate::operators::{divides, gives, is_residue, takes};
use crate::steps::{is_input, next_row};
use paper::{Op, Ty};
use value::{is_signed, type_with};

// ---- one row

// The type of the value of row i, by its head alone.
#[tactic(auto, using(crate::proofs::Lines::other_type), unfolding(crate::specs::Lent::line_at))]
fn row_type(rows: &[u32], i: usize) -> Ty
    requires { 4 * i + 4 ≤ length rows.now }
    ensures { result ≡ line_type (line_at rows.now i) }
{
    let head = rows[4 * i];
    let t = type_with(head % 8);
    match form_of(head / 8) {
        Form::Binary(o) => gives(o, t),
        Form::Conversion(u) => u,
        _ => t,
    }
}

// Whether row a is one of the first n, of the type t.
#[tactic(auto, using(crate::proofs::Lines::earlier_there, crate::proofs::Lines::earlier_missing))]
fn is_earlier(rows: &[u32], n: usize, t: Ty, a: u32) -> bool
    requires { 4 * n ≤ length rows.now }
    ensures { result ≡ is_earlier (lines_in n rows.now) t (row a) }
{
    let i = a as usize;
    i < n && t == row_type(rows, i)
}

// Whether row b is one of the first n, of a number other than 0.
#[tactic(auto, using(crate::proofs::Lines::divisor_there, crate::proofs::Lines::divisor_missing, crate::proofs::Lines::other_divisor), unfolding(crate::specs::Lent::line_at))]
fn is_divisor(rows: &[u32], n: usize, b: u32) -> bool
    requires { 4 * n ≤ length rows.now }
    ensures { result ≡ is_divisor (lines_in n rows.now) (row b) }
{
    let i = b as usize;
    if n <= i {
        return false;
    }
    let at = 4 * i;
    match form_of(rows[at] / 8) {
        Form::Number => rows[at + 1] != 0,
        _ => false,
    }
}

// Whether there is a cell c, of the type t.
#[tactic(auto, using(crate::proofs::Infos::cell_there, crate::proofs::Infos::cell_missing))]
fn is_cell(cells: &[u32], t: Ty, c: u32) -> bool
    ensures { result ≡ is_cell (map info_in cells.now) t (record { 0 = c }) }
{
    match cells.get(c as usize) {
        Some(x) => t == type_with(x % 8),
        None => false,
    }
}

// An operator's operands: earlier rows of one type that it takes, and a good divisor.
fn binary_keeps(rows: &[u32], n: usize, o: Op, t: Ty, a: u32, b: u32) -> bool
    requires { 4 * n ≤ length rows.now }
    ensures { result ≡ line_keeps [] (lines_in n rows.now) (binary o t (row a) (row b)) }
{
    takes(o, t)
        & is_earlier(rows, n, t, a)
        & is_earlier(rows, n, t, b)
        & (!divides(o) | is_divisor(rows, n, b))
}

// A known operation and a known type.
fn is_known(head: u32) -> bool
    ensures { result ≡ is_known head }
{
    head / 8 < 23 && head % 8 < 5
}

// Rule 11 for row i.
fn row_keeps(rows: &[u32], i: usize, cells: &[u32]) -> bool
    requires { 4 * i + 4 ≤ length rows.now }
    ensures { result ≡ row_keeps (map info_in cells.now) rows.now i }
{
    if !is_known(rows[4 * i]) {
        return false;
    }
    match line_at(rows, i) {
        Line::Number(t, z) => is_residue(t, z),
        Line::Read(t, c) => is_cell(cells, t, c),
        Line::Minus(t, a) => is_signed(t) & is_earlier(rows, i, t, a),
        Line::Complement(t, a) => (t == Ty::Bool) & is_earlier(rows, i, Ty::Bool, a),
        Line::Select(t, c, a, b) => {
            is_earlier(rows, i, Ty::Bool, c) & is_earlier(rows, i, t, a) & is_earlier(rows, i, t, b)
        }
        Line::Binary(o, t, a, b) => binary_keeps(rows, i, o, t, a, b),
        Line::Conversion(t, u, a) => {
            (t != Ty::Bool) & (u != Ty::Bool) & (t != u) & is_earlier(rows, i, t, a)
        }
    }
}

// Rule 11 for the first n rows.
#[tactic(auto, using(crate::proofs::Keeping::keep_none, crate::proofs::Keeping::keep_turn, crate::proofs::Keeping::keep_stop))]
pub fn rows_keep(rows: &[u32], n: usize, cells: &[u32]) -> bool
    requires { 4 * n ≤ length rows.now }
    ensures { result ≡ rows_keep (map info_in cells.now) rows.now n }
{
    for i in 0..n {
        if !row_keeps(rows, i, cells) {
            return false;
        }
    }
    true
}

// ---- the cells

// A next row of the cell's type, and none for an input.
fn cell_keeps(rows: &[u32], n: usize, x: u32) -> bool
    requires { 4 * n ≤ length rows.now }
    ensures { result ≡ cell_keeps (lines_in n rows.now) (info_in x) x }
{
    let has_next = x / 16 != 0;
    if is_input(x) {
        !has_next
    } else {
        has_next && is_earlier(rows, n, type_with(x % 8), next_row(x))
    }
}

// Rule 11 for the cells, over the first n rows.
pub fn cells_keep(rows: &[u32], n: usize, cells: &[u32]) -> bool
    requires { 4 * n ≤ length rows.now }
    ensures { result ≡ cells_keep (lines_in n rows.now) (map info_in cells.now) cells.now }
{
    cells.iter().all(|x| cell_keeps(rows, n, *x))
}
