// Which variable has a cell. An index of the first 64 cells, as many as a program may have, is made once for a print.
ghost use Rattle.std.specs.Prelude.{◌≡◌, ◌/◌, ◌<◌, length};
ghost use Rattle.print.specs.Parts.{Holds, holds, Entered, Indexed};

use variables::declared::size_of;
use variables::listed::Variables;

// Whether the variable `v` has the cell `c`.
fn has(vars: Variables, v: usize, c: usize) -> bool
    requires { v < length vars.table.now / 4 }
    ensures { result ≡ holds vars.entry.pool.now vars.entry.table.now c v }
{
    let first = vars.first_cell(v) as usize;
    let n = size_of(vars.declaration(v));
    first <= c && c - first < n
}

// The first variable that has the cell `c`, or how many variables there are, for any cell.
fn walked(vars: Variables, c: usize) -> usize
    ensures { Holds vars.entry.pool.now vars.entry.table.now c result }
{
    for v in 0..vars.count() {
        if has(vars, v, c) {
            return v;
        }
    }
    vars.count()
}

// The cells of the variable `v` get its number, as far as the index goes.
fn enter(vars: Variables, v: usize, index: &mut [usize; 64])
    requires { (v < length vars.table.now / 4) × (length index.old ≡ 64) }
    ensures { Entered vars.entry.pool.now vars.entry.table.now v index.old index.new }
{
    let first = vars.first_cell(v) as usize;
    let n = size_of(vars.declaration(v));
    for c in first..first.saturating_add(n).min(64) {
        index[c] = v;
    }
}

// The first variable of each cell, or how many variables there are. Entered from the last to the first, so that the first wins.
pub fn indexed(vars: Variables) -> [usize; 64]
    ensures { Indexed vars.entry.pool.now vars.entry.table.now result }
{
    let n = vars.count();
    let mut index = [n; 64];
    for v in (0..n).rev() {
        enter(vars, v, &mut index);
    }
    index
}

// What names cells: the variables, and the index of their first cells.
#[derive(Clone, Copy)]
pub struct Names<'a> {
    pub variables: Variables<'a>,
    pub index: &'a [usize; 64],
    pub ghost entered: { Indexed variables.pool.now variables.table.now index.now },
}

// The first variable that has the cell `c`, by the index; for a cell beyond it the variables are walked.
pub fn variable_of(names: Names, c: usize) -> usize
    ensures { Holds names.entry.variables.pool.now names.entry.variables.table.now c result }
{
    if c < 64 {
        return names.index[c];
    }
    walked(names.variables, c)
}
