// Cells by one number each, as in a table: the type's number, and 8 for an input. What stands above these bits is not looked at.
// Values as lent and as held, refusal 12, and the cells and the starting state of declared variables.
#![tactic(auto)]

ghost use Rattle.std.specs.Prelude.{◌≡◌, ◌+◌, ◌*◌, ◌≤◌, length};
ghost use Rattle.paper.specs.Judge.{cell_fits, all_fit, lent, over, initial_value};
ghost use Rattle.variables.specs.Table.{initial_in};
ghost use Rattle.cells.specs.Pour.{Filled};
ghost use Rattle.cells.specs.Numbers.{info_of, number_of, held_of, Says, read_in, declared_info, CellsIn, StartIn};

use paper::{Kind, Ty};
use tree::kinds::Initial;
use tree::node::Node;
use value::{fits, residue_of, type_with, value_of};
use variables::declared::{section_of, size_of, type_of};
use variables::listed::declaration_in;

// The type of a cell; BOOL where the number names none.
pub fn cell_type(x: u32) -> Ty
    ensures { result ≡ (info_of x).ty }
{
    type_with(x % 8)
}

// Whether a cell is an input.
pub fn is_input(x: u32) -> bool
    ensures { result ≡ (info_of x).is_input }
{
    x / 8 % 2 == 1
}

// ---- refusal 12

// Whether a cell's value fits, and of an input the reading too.
fn cell_fits(x: u32, value: i64, reading: i64) -> bool
    ensures { result ≡ cell_fits (info_of x) value reading }
{
    let t = cell_type(x);
    fits(t, value) && (!is_input(x) || fits(t, reading))
}

// The same of every cell.
pub fn fit(cells: &[u32], state: &[i64], inputs: &[i64]) -> bool
    requires { (length cells.now ≤ length state.now) × (length cells.now ≤ length inputs.now) }
    ensures { Says cells.now (λ is. result ≡ all_fit is state.now inputs.now) }
{
    for (i, x) in cells.iter().enumerate() {
        if !cell_fits(*x, state[i], inputs[i]) {
            return false;
        }
    }
    true
}

// ---- as held, and as lent

// What a cell holds as a scan starts: an input its reading, any other its value.
fn cell_held(x: u32, value: i64, reading: i64) -> u32
    ensures { result ≡ held_of (info_of x) value reading }
{
    let t = cell_type(x);
    if is_input(x) {
        residue_of(t, reading)
    } else {
        residue_of(t, value)
    }
}

// The lent state as held, with the readings put.
pub fn hold(cells: &[u32], state: &[i64], inputs: &[i64], values: &mut [u32])
    requires { (length cells.now ≤ length state.now) × (length cells.now ≤ length inputs.now) × (length cells.now ≤ length values.old) }
    ensures { Says cells.now (λ is. values.new ≡ over (read_in is state.now inputs.now) values.old) }
{
    for (i, x) in cells.iter().enumerate() {
        values[i] = cell_held(*x, state[i], inputs[i]);
    }
}

// What cells hold, as lent.
pub fn lend(cells: &[u32], held: &[u32], state: &mut [i64])
    requires { (length cells.now ≤ length held.now) × (length cells.now ≤ length state.old) }
    ensures { Says cells.now (λ is. state.new ≡ over (lent is held.now) state.old) }
{
    for (i, x) in cells.iter().enumerate() {
        state[i] = value_of(cell_type(*x), held[i]);
    }
}

// ---- declared variables

// Writes `n` times `x` from `at` on, as far as there is room: the place behind.
#[tactic(auto, using(crate::proofs::Pours::fill_start, crate::proofs::Pours::fill_step, crate::proofs::Pours::fill_end))]
fn fill<T: Copy>(list: &mut [T], at: usize, n: usize, x: T) -> usize
    requires { at ≤ length list.old }
    ensures { Filled at n x list.old list.new result }
{
    let end = at + n.min(list.len() - at);
    for i in at..end {
        list[i] = x;
    }
    end
}

// The number of the cells of a declared variable.
fn cell_number(n: Node) -> u32
    ensures { result ≡ number_of (declared_info n.entry.pool.now n.entry.at) }
{
    let tag = u8::from(type_of(n)) as u32;
    if section_of(n) == Kind::Input {
        tag + 8
    } else {
        tag
    }
}

// The cells of the variables of a table in order, as many as there is room for.
pub fn cells_of(pool: &[u16], table: &[u16], cells: &mut [u32]) -> usize
    requires { 4 ≤ length pool.now }
    ensures { CellsIn pool.now table.now cells.old cells.new result }
{
    let mut at = 0;
    for v in 0..table.len() / 4 {
        let n = declaration_in(pool, table, v);
        at = fill(cells, at, size_of(n), cell_number(n));
    }
    at
}

// The declared value of a variable, 0 where there is none.
fn declared_value(n: Node) -> i64
    ensures { result ≡ initial_value (initial_in n.entry.pool.now n.entry.at) }
{
    let value = n.child(2).child(2);
    match value.initial() {
        Initial::Value => value.child(1).whole(),
        Initial::Flag(true) => 1,
        Initial::Flag(false) | Initial::Nothing => 0,
    }
}

// The declared values of the variables of a table in order, as many as there is room for.
pub fn start(pool: &[u16], table: &[u16], state: &mut [i64])
    requires { 4 ≤ length pool.now }
    ensures { StartIn pool.now table.now state.old state.new }
{
    let mut at = 0;
    for v in 0..table.len() / 4 {
        let n = declaration_in(pool, table, v);
        at = fill(state, at, size_of(n), declared_value(n));
    }
}
