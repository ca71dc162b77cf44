// Answers and the states they leave, compared with the expected ones.
ghost use Rattle.std.specs.Prelude.{◌≡◌, true, ◌/◌, length};
ghost use Rattle.paper.specs.Judge.{scan_lent, check_lent, scan_checked};
ghost use Rattle.lent.specs.Outcomes.{outcome};
ghost use Rattle.try_runs.specs.Lines.{table_of};
ghost use Rattle.try_runs.specs.Expected.{IsAs, StartsAs, LentAs, BothAs};

use kaldvimur::{Outcome, states, tables};
use numbers::same_values;
use pack::Refused;

// What is expected: what a function counts, or a refusal.
pub type Wanted = Result<usize, Refused>;

// A table as it is lent, and the numbers of its rows and cells that are handed in.
#[derive(Clone, Copy)]
pub struct Lent<'a> {
    pub rows: &'a [u32],
    pub cells: &'a [u32],
    pub row_count: usize,
    pub cell_count: usize,
}

// A scan's inputs, the state expected behind it, and its expected answer.
#[derive(Clone, Copy)]
pub struct Scan<'a> {
    pub inputs: &'a [i64],
    pub after: &'a [i64],
    pub wanted: Wanted,
}

pub fn is_as(o: Outcome, w: Wanted) -> bool
    ensures { result ≡ true → IsAs o w }
{
    o.map_err(Refused::from) == w
}

// Whether an answer and the state that it leaves are as expected.
fn left_as(o: Outcome, state: &[i64], after: &[i64], w: Wanted) -> bool
    ensures { result ≡ true → (state.now ≡ after.now) × IsAs o w }
{
    same_values(state, after) && is_as(o, w)
}

// Whether starting is as expected.
pub fn started(text: &[u8], state: &mut [i64], after: &[i64], w: Wanted) -> bool
    ensures { result ≡ true → StartsAs text.now state.old after.now w }
{
    let o = states::start(text, state);
    left_as(o, state, after, w)
}

// Whether rule 11 is answered for as expected.
pub fn checked(t: Lent, w: Wanted) -> bool
    ensures { result ≡ true → IsAs (outcome (λ _. t.entry.cell_count) (check_lent (table_of t.entry))) w }
{
    is_as(
        tables::check_table(t.rows, t.cells, t.row_count, t.cell_count),
        w,
    )
}

// Whether a scan from a lent table is as expected.
pub fn scanned_lent(t: Lent, scan: Scan, state: &mut [i64]) -> bool
    ensures { result ≡ true → LentAs scan_lent (table_of t.entry) scan.entry.inputs.now state.old scan.entry.after.now scan.entry.wanted }
{
    let o = tables::scan_table(
        t.rows,
        t.cells,
        t.row_count,
        t.cell_count,
        state,
        scan.inputs,
    );
    left_as(o, state, scan.after, scan.wanted)
}

// The same from a table that was checked before.
pub fn scanned_checked(t: Lent, scan: Scan, state: &mut [i64]) -> bool
    ensures { result ≡ true → LentAs scan_checked (table_of t.entry) scan.entry.inputs.now state.old scan.entry.after.now scan.entry.wanted }
{
    let o = tables::scan_checked(
        t.rows,
        t.cells,
        t.row_count,
        t.cell_count,
        state,
        scan.inputs,
    );
    left_as(o, state, scan.after, scan.wanted)
}

// Whether a scan by the text is as expected, and one from its table.
pub fn scanned(text: &[u8], t: Lent, scan: Scan, x: &mut [i64], y: &mut [i64]) -> bool
    ensures { result ≡ true → BothAs text.now (table_of t.entry) scan.entry.inputs.now x.old y.old scan.entry.after.now scan.entry.wanted }
{
    let o = states::scan(text, x, scan.inputs);
    if !left_as(o, x, scan.after, scan.wanted) {
        return false;
    }
    let wanted = scan.wanted.map(|_| t.cell_count);
    scanned_lent(t, Scan { wanted, ..scan }, y)
}
