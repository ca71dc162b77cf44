// The public functions for C. A slice is a pointer and a length, in its own elements; at length 0 the pointer isn't looked at.
// Each function answers 0 for done, or a refusal's number * 65536 + its place, and a refusal changes nothing lent.
#![tactic(auto)]

ghost use Rattle.std.specs.Prelude.{◌≡◌, ◌<◌};
ghost use Rattle.paper.specs.Judge.{print_into, start_into, check_lent, scan_lent, scan_checked};
ghost use Rattle.lent.specs.Tables.{lent_with};
ghost use Rattle.kaldvimur_c.specs.Codes.{code_of, answered, Near, told, Did};
ghost use Rattle.kaldvimur_c.specs.Lending.{too_short, accept_into, scan_into, table_with};

use kaldvimur::Outcome;
use lent::refused;
use paper::{Refusal, Why};

// ---- an answer in one number

// A place below 65536 leaves the number as it is.
fn code(refusal: Refusal) -> u32
    requires { refusal.place < 65536 }
    ensures { result ≡ code_of refusal.why refusal.place }
{
    u8::from(refusal.why) as u32 * 65536 + refusal.place as u32
}

// What a function counts is no part of its answer.
fn answer(o: Outcome) -> u32
    requires { Near o }
    ensures { result ≡ told o }
{
    match o {
        Ok(_) => 0,
        Err(refusal) => code(refusal),
    }
}

// The answer where the numbers of a text have no room: its own refusal, else 10.
fn no_room(text: &[u8]) -> u32
    ensures { result ≡ answered (too_short text.now) }
{
    if let Err(refusal) = kaldvimur::accept(text) {
        return code(refusal);
    }
    code(refused(Why::NoRoom))
}

// ---- a text

// Cells, weight, figure and length of the print into `four`.
#[unsafe(no_mangle)]
pub extern "C" fn kv_accept(text: &[u8], four: &mut [u32]) -> u32
    ensures { Did (accept_into text.now) four.old four.new result }
{
    if four.len() < 4 {
        return no_room(text);
    }
    match kaldvimur::accept(text) {
        Err(refusal) => code(refusal),
        Ok(numbers) => {
            four[0] = numbers.cells as u32;
            four[1] = numbers.weight as u32;
            four[2] = numbers.figure as u32;
            four[3] = numbers.length as u32;
            0
        }
    }
}

// ST0 as text into `out`.
#[unsafe(no_mangle)]
pub extern "C" fn kv_print(text: &[u8], out: &mut [u8]) -> u32
    ensures { Did (print_into text.now) out.old out.new result }
{
    answer(kaldvimur::print(text, out))
}

// The declared values into `state`.
#[unsafe(no_mangle)]
pub extern "C" fn kv_start(text: &[u8], state: &mut [i64]) -> u32
    ensures { Did (start_into text.now) state.old state.new result }
{
    answer(kaldvimur::states::start(text, state))
}

// A scan: the readings into the input cells, then the statements; the number of steps into `steps`.
#[unsafe(no_mangle)]
pub extern "C" fn kv_scan(text: &[u8], state: &mut [i64], inputs: &[i64], steps: &mut [u32]) -> u32
    ensures { Did (scan_into text.now inputs.now) (state.old, steps.old) (state.new, steps.new) result }
{
    if steps.len() < 1 {
        return no_room(text);
    }
    match kaldvimur::states::scan(text, state, inputs) {
        Err(refusal) => code(refusal),
        Ok(n) => {
            steps[0] = n as u32;
            0
        }
    }
}

// The next-state table into `rows`, four places a row, and `cells`; how many rows and cells into `two`.
#[unsafe(no_mangle)]
pub extern "C" fn kv_table(text: &[u8], rows: &mut [u32], cells: &mut [u32], two: &mut [u32]) -> u32
    ensures { Did (table_with text.now) (rows.old, cells.old, two.old) (rows.new, cells.new, two.new) result }
{
    if two.len() < 2 {
        return no_room(text);
    }
    match kaldvimur::tables::table(text, rows, cells) {
        Err(refusal) => code(refusal),
        Ok(sizes) => {
            two[0] = sizes.rows as u32;
            two[1] = sizes.cells as u32;
            0
        }
    }
}

// ---- a table

// Whether a lent table keeps rule 11.
#[unsafe(no_mangle)]
pub extern "C" fn kv_check_table(rows: &[u32], cells: &[u32], n_rows: u32, n_cells: u32) -> u32
    ensures { result ≡ answered (check_lent (lent_with rows.now cells.now n_rows n_cells)) }
{
    answer(kaldvimur::tables::check_table(rows, cells, n_rows as usize, n_cells as usize))
}

// A scan from a lent table, which is tested by rule 11 before.
#[unsafe(no_mangle)]
pub extern "C" fn kv_scan_table(
    rows: &[u32],
    cells: &[u32],
    n_rows: u32,
    n_cells: u32,
    state: &mut [i64],
    inputs: &[i64],
) -> u32
    ensures { Did (λ s. scan_lent (lent_with rows.now cells.now n_rows n_cells) s inputs.now) state.old state.new result }
{
    let n = n_rows as usize;
    let k = n_cells as usize;
    answer(kaldvimur::tables::scan_table(rows, cells, n, k, state, inputs))
}

// The same from a table that was checked before: rule 11 isn't looked at again.
#[unsafe(no_mangle)]
pub extern "C" fn kv_scan_checked(
    rows: &[u32],
    cells: &[u32],
    n_rows: u32,
    n_cells: u32,
    state: &mut [i64],
    inputs: &[i64],
) -> u32
    ensures { Did (λ s. scan_checked (lent_with rows.now cells.now n_rows n_cells) s inputs.now) state.old state.new result }
{
    let n = n_rows as usize;
    let k = n_cells as usize;
    answer(kaldvimur::tables::scan_checked(rows, cells, n, k, state, inputs))
}
