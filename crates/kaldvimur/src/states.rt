// The starting state, and a scan by the statements.
ghost use Rattle.std.specs.Prelude.{◌+◌, ◌*◌, ◌≤◌, length};
ghost use Rattle.plain.specs.Flat.{list_at};
ghost use Rattle.cells.specs.Numbers.{Says};
ghost use Rattle.judge.specs.Judged.{Roomy};
ghost use Rattle.kaldvimur.specs.Arrays.{In};
ghost use Rattle.kaldvimur.specs.Prints.{Lies};
ghost use Rattle.kaldvimur.specs.Scans.{StartDid, ScanDid};
ghost use Rattle.kaldvimur.specs.States.{CarriedOut, ScansIn};

use crate::Outcome;
use crate::arrays::{NOTHING, Program, accepted, in_arrays};
use lent::refused;
use paper::Why;
use tree::node::node_at;

// The declared values into the front of `state`, from a text that is judged in lent buffers.
fn start_in(
    text: &[u8],
    pool: &mut [u16],
    table: &mut [u16],
    plain: &mut [u16],
    state: &mut [i64],
) -> Outcome
    requires { Roomy text.now pool.old table.old plain.old }
    ensures { StartDid text.now state.old state.new result }
{
    let program = accepted(text, pool, table, plain)?;
    let judged = program.judged;
    if state.len() < judged.cells {
        return Err(refused(Why::NoRoom));
    }
    cells::start(program.pool, &program.table[..4 * judged.variables], state);
    Ok(judged.cells)
}

// The declared values into the front of `state`; the number of cells.
pub fn start(text: &[u8], state: &mut [i64]) -> Outcome
    ensures { StartDid text.now state.old state.new result }
{
    in_arrays(
        text,
        state,
        &mut NOTHING,
        |pool, table, plain, state, _| start_in(text, pool, table, plain, state),
    )
}

// The readings into the input cells, and the list carried out: the number of steps, 65535 standing for more.
fn carry_out(program: Program, cells: &[u32], state: &mut [i64], inputs: &[i64]) -> usize
    requires lies { In program Lies }
    requires few { length cells.now ≤ 64 }
    requires room { (length cells.now ≤ length state.old) × (length cells.now ≤ length inputs.now) }
    ensures { Says cells.now (λ is. CarriedOut is (list_at program.entry.plain.now program.entry.judged.list) inputs.now state.old state.new result) }
{
    let n = cells.len();
    let mut held = [0u32; 64];
    cells::hold(cells, state, inputs, &mut held);
    let steps = run::run_list(node_at(program.plain, program.judged.list), &mut held[..n]);
    cells::lend(cells, &held[..n], state);
    steps
}

// A scan of the judged program.
fn scan_judged(program: Program, state: &mut [i64], inputs: &[i64]) -> Outcome
    requires { In program Lies }
    ensures { In program.entry (λ p table q j. ScansIn p table q j inputs.now state.old state.new result) }
{
    let table = &program.table[..4 * program.judged.variables];
    let mut cells = [0u32; 64];
    let n = cells::cells_of(program.pool, table, &mut cells);
    if state.len() < n || inputs.len() < n {
        return Err(refused(Why::NoRoom));
    }
    if !cells::fit(&cells[..n], state, inputs) {
        return Err(refused(Why::BadValue));
    }
    Ok(carry_out(program, &cells[..n], state, inputs))
}

// A scan of a text that is judged in lent buffers.
fn scan_in(
    text: &[u8],
    pool: &mut [u16],
    table: &mut [u16],
    plain: &mut [u16],
    state: &mut [i64],
    inputs: &[i64],
) -> Outcome
    requires { Roomy text.now pool.old table.old plain.old }
    ensures { ScanDid text.now inputs.now state.old state.new result }
{
    let program = accepted(text, pool, table, plain)?;
    scan_judged(program, state, inputs)
}

// A scan: the readings into the input cells, then the statements; the number of steps.
pub fn scan(text: &[u8], state: &mut [i64], inputs: &[i64]) -> Outcome
    ensures { ScanDid text.now inputs.now state.old state.new result }
{
    in_arrays(
        text,
        state,
        &mut NOTHING,
        |pool, table, plain, state, _| scan_in(text, pool, table, plain, state, inputs),
    )
}
