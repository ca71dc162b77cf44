// Tables as they are lent: checked, and scans from them. No public function has a `requires`, and a refusal leaves the state
// as it was.
#![tactic(auto)]

ghost use Rattle.std.specs.Prelude.{◌≡◌, ◌&&◌, ◌*◌, ◌≤◌, leb, length};
ghost use Rattle.paper.specs.Refusals.{refusal};
ghost use Rattle.paper.specs.Judge.{scan_lent, scan_checked};
ghost use Rattle.lent.specs.Tables.{CheckDid, ScanDid, lent_with};
ghost use Rattle.lent.specs.Totals.{Readable, Runnable, Runs, Scannable, Follows, Scans};

use cells::{fit, hold, lend};
use paper::{Refusal, Why};
use rows::{cells_known, next_state, run_rows, table_keeps};

// Done, with what the function counts; or the refusal.
pub type Outcome = Result<usize, Refusal>;

// ---- refusals 10 to 12

// A refusal that no place in a text has.
pub fn refused(why: Why) -> Refusal
    ensures { result ≡ refusal why 0 }
{
    Refusal { why, place: 0 }
}

// Whether the buffers of a table hold as many rows and cells as it counts.
pub fn has_room(rows: &[u32], cells: &[u32], n_rows: usize, n_cells: usize) -> bool
    ensures { result ≡ leb (4 * n_rows) (length rows.now) && leb n_cells (length cells.now) }
{
    n_rows <= rows.len() / 4 && n_cells <= cells.len()
}

// ---- rule 11

// Whether a lent table keeps rule 11; the number of its cells.
pub fn check_table(rows: &[u32], cells: &[u32], n_rows: usize, n_cells: usize) -> Outcome
    ensures { CheckDid (lent_with rows.now cells.now n_rows n_cells) result }
{
    if !has_room(rows, cells, n_rows, n_cells) {
        return Err(refused(Why::NoRoom));
    }
    if !table_keeps(rows, &cells[..n_cells], n_rows) {
        return Err(refused(Why::BadTable));
    }
    Ok(n_cells)
}

// ---- a scan

// Whether the state and the inputs hold a value for each cell.
fn has_values(state: &[i64], inputs: &[i64], n: usize) -> bool
    ensures { result ≡ leb n (length state.now) && leb n (length inputs.now) }
{
    n <= state.len() && n <= inputs.len()
}

// Whether n rows and these cells have a total reading: their numbers and the cells' types tell.
fn is_readable(cells: &[u32], n: usize) -> bool
    ensures { Readable cells.now n result }
{
    if 64 < cells.len() {
        return false;
    }
    if 3064 < n {
        return false;
    }
    cells_known(cells)
}

// Gives each cell that holds no reading its next value: n rows are worked out in `vals`.
fn run_table(rows: &[u32], cells: &[u32], n: usize, held: &mut [u32], vals: &mut [u32])
    requires { Runnable rows.now cells.now n held.old vals.old }
    ensures { Runs rows.now cells.now n held.old held.new }
{
    run_rows(rows, n, held, vals);
    next_state(cells, &vals[..n], held);
}

// The same with an array of N values.
fn run_in<const N: usize>(rows: &[u32], cells: &[u32], n: usize, held: &mut [u32])
    requires { (n ≤ N) × (N ≤ 3064) × (4 * n ≤ length rows.now) × (length cells.now ≡ length held.old) }
    ensures { Runs rows.now cells.now n held.old held.new }
{
    let mut vals = [0u32; N];
    run_table(rows, cells, n, held, &mut vals);
}

// What the cells hold after a scan by the total reading of a table of n rows. Fewer rows have a shorter array for their values,
// since it takes time to clear one.
fn follow(rows: &[u32], cells: &[u32], n: usize, state: &[i64], inputs: &[i64], held: &mut [u32])
    requires { Scannable rows.now cells.now n inputs.now state.now × (length held.old ≡ length cells.now) }
    ensures { Follows rows.now cells.now n inputs.now state.now held.new }
{
    hold(cells, state, inputs, held);
    if n <= 64 {
        run_in::<64>(rows, cells, n, held);
    } else if n <= 512 {
        run_in::<512>(rows, cells, n, held);
    } else {
        run_in::<3064>(rows, cells, n, held);
    }
}

// A scan by the total reading: 12, or the state that follows, in one pass over the rows.
fn scan_by(rows: &[u32], cells: &[u32], n: usize, state: &mut [i64], inputs: &[i64]) -> Outcome
    requires { Scannable rows.now cells.now n inputs.now state.old }
    ensures { Scans rows.now cells.now n inputs.now state.old state.new result }
{
    if !fit(cells, state, inputs) {
        return Err(refused(Why::BadValue));
    }
    let count = cells.len();
    let mut held = [0u32; 64];
    follow(rows, cells, n, state, inputs, &mut held[..count]);
    lend(cells, &held[..count], state);
    Ok(count)
}

// A scan from a lent table, which is tested by rule 11 before; the number of its cells.
pub fn scan_table(
    rows: &[u32],
    cells: &[u32],
    n_rows: usize,
    n_cells: usize,
    state: &mut [i64],
    inputs: &[i64],
) -> Outcome
    ensures { ScanDid scan_lent (lent_with rows.now cells.now n_rows n_cells) inputs.now state.old state.new result }
{
    if !has_room(rows, cells, n_rows, n_cells) {
        return Err(refused(Why::NoRoom));
    }
    if !has_values(state, inputs, n_cells) {
        return Err(refused(Why::NoRoom));
    }
    if !table_keeps(rows, &cells[..n_cells], n_rows) {
        return Err(refused(Why::BadTable));
    }
    scan_by(rows, &cells[..n_cells], n_rows, state, inputs)
}

// The same from a table that was checked before, in one pass over its rows: its total reading is run.
pub fn scan_checked(
    rows: &[u32],
    cells: &[u32],
    n_rows: usize,
    n_cells: usize,
    state: &mut [i64],
    inputs: &[i64],
) -> Outcome
    ensures { ScanDid scan_checked (lent_with rows.now cells.now n_rows n_cells) inputs.now state.old state.new result }
{
    if !has_room(rows, cells, n_rows, n_cells) {
        return Err(refused(Why::NoRoom));
    }
    if !has_values(state, inputs, n_cells) {
        return Err(refused(Why::NoRoom));
    }
    if !is_readable(&cells[..n_cells], n_rows) {
        return Err(refused(Why::BadTable));
    }
    scan_by(rows, &cells[..n_cells], n_rows, state, inputs)
}
