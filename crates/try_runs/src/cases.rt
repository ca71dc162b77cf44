// Tables as lent: rule 11 and a scan, by cases.
ghost use Rattle.std.specs.Prelude.{◌≤◌, length, IfSome};

use crate::compare::{Lent, Scan, Wanted, checked, scanned_checked, scanned_lent};
use crate::lines::{behind, refusal_in, values_in};
use crate::states::{States, state_line};
use pack::line_of;

// The number that stands first in a line, and how many values stand behind it.
#[derive(Clone, Copy)]
struct Counted {
    count: usize,
    values: usize,
}

// The values as u32, if they are.
fn narrow(values: &[i64], out: &mut [u32]) -> Option<()> {
    for (z, n) in values.iter().zip(out) {
        *n = u32::try_from(*z).ok()?;
    }
    Some(())
}

// `N v,v,..`: the values into the front of `out`; N is 0 where it is left out.
fn words_in(s: &[u8], out: &mut [u32]) -> Option<Counted>
    ensures { IfSome result (λ c. c.values ≤ length out.old) }
{
    let mut wide = [0i64; 12260];
    let (count, list) = match pack::digits(s) {
        Some(number) => (number.value, &s[number.count..]),
        None => (0, s),
    };
    let values = values_in(list.strip_prefix(b" ")?, &mut wide)?;
    if out.len() < values {
        return None;
    }
    narrow(&wide[..values], out)?;
    Some(Counted {
        count: count as usize,
        values,
    })
}

// What is expected of a scan: a refusal, or `state v,v,..`, which is put into `after`.
fn scan_wanted(s: &[u8], k: usize, after: &mut [i64]) -> Option<Wanted> {
    let Some(list) = s.strip_prefix(b"state ") else {
        return Some(Err(refusal_in(s)?));
    };
    if values_in(list, after)? != after.len() {
        return None;
    }
    Some(Ok(k))
}

// `check sound` or `check refused N at P`, and `scan state v,v,..` or `scan refused N at P`. A table that is sound is scanned without being checked too.
fn answered(t: Lent, states: States, inputs: &[i64], expected: &[u8]) -> Option<bool> {
    let States {
        mut by_text,
        mut by_table,
        mut after,
        count,
    } = states;
    let (said, rest) = behind(expected, b"check ")?;
    let (scan, rest) = behind(rest, b"scan ")?;
    if !rest.is_empty() {
        return None;
    }
    let wanted = scan_wanted(scan, t.cell_count, &mut after[..count])?;
    let scan = Scan {
        inputs,
        after: &after[..count],
        wanted,
    };
    if !scanned_lent(t, scan, &mut by_text[..count]) {
        return Some(false);
    }
    if !said.starts_with(b"sound\n") {
        return Some(checked(t, Err(refusal_in(said)?)));
    }
    Some(checked(t, Ok(t.cell_count)) && scanned_checked(t, scan, &mut by_table[..count]))
}

// `state v,v,..` and `inputs v,v,..`: the buffers are exactly so long.
fn with_state(t: Lent, s: &[u8], expected: &[u8]) -> Option<bool> {
    let mut inputs = [0i64; 80];
    let (state, rest) = behind(s, b"state ")?;
    let (list, rest) = behind(rest, b"inputs ")?;
    if !rest.is_empty() {
        return None;
    }
    let states = state_line(state)?;
    let n = values_in(list, &mut inputs)?;
    answered(t, states, &inputs[..n], expected)
}

// A case: its name, then `rows N v,v,..` and `cells K v,v,..`, the numbers being those handed in; whether it is answered as
// expected, if the lines are such.
pub fn case_as(s: &[u8], expected: &[u8]) -> Option<bool> {
    let mut rows = [0u32; 12260];
    let mut cells = [0u32; 65];
    let named = &s[line_of(s)..];
    let (row_list, rest) = behind(named, b"rows ")?;
    let (cell_list, rest) = behind(rest, b"cells ")?;
    let r = words_in(row_list, &mut rows)?;
    let c = words_in(cell_list, &mut cells)?;
    let t = Lent {
        rows: &rows[..r.values],
        cells: &cells[..c.values],
        row_count: r.count,
        cell_count: c.count,
    };
    with_state(t, rest, expected)
}
