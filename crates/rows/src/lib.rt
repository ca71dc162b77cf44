// The next-state table as it is lent: run, and tested by rule 11.
#![tactic(auto)]

ghost use Rattle.std.specs.Prelude.{[], ◌≡◌, ◌*◌, ◌≤◌, length, take};
ghost use Rattle.paper.specs.Tables.{values, infos_of, lines_in, table_in};
ghost use Rattle.rows.specs.Lent.{IsNext, lent, Answers};

use crate::rule::{cells_keep, rows_keep};
use crate::steps::{next_value, row_value};

mod line;
mod operators;
mod rule;
mod steps;

// Works out the first n rows in order.
#[tactic(auto, using(crate::proofs::Lines::values_none, crate::proofs::Lines::values_turn))]
pub fn run_rows(rows: &[u32], n: usize, state: &[u32], vals: &mut [u32])
    requires { (4 * n ≤ length rows.now) × (n ≤ length vals.old) }
    ensures { (take n vals.new ≡ values state.now [] (lines_in n rows.now)) × (length vals.new ≡ length vals.old) }
{
    for i in 0..n {
        vals[i] = row_value(rows, i, state, &vals[..i]);
    }
}

// Gives each cell the value of its next row; an input keeps its reading.
#[tactic(auto, using(crate::proofs::Infos::nexts_turn, crate::proofs::Infos::nexts_done))]
pub fn next_state(cells: &[u32], vals: &[u32], state: &mut [u32])
    requires { length cells.now ≡ length state.old }
    ensures { IsNext cells.now vals.now state.old state.new }
{
    for (i, v) in state.iter_mut().enumerate() {
        *v = next_value(cells[i], vals, *v);
    }
}

// Whether every cell's type is known.
pub fn cells_known(cells: &[u32]) -> bool
    ensures { Answers (infos_of cells.now) result }
{
    cells.iter().all(|x| x % 8 < 5)
}

// Whether a table keeps rule 11.
#[tactic(auto, using(crate::proofs::Infos::known_back, crate::proofs::Tested::verdict))]
pub fn table_keeps(rows: &[u32], cells: &[u32], n: usize) -> bool
    requires { 4 * n ≤ length rows.now }
    ensures { Answers (table_in (lent rows.now cells.now n)) result }
{
    cells.len() <= 64
        && n <= 3064
        && cells_known(cells)
        && rows_keep(rows, n, cells)
        && cells_keep(rows, n, cells)
}
