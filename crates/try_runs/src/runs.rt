// A text's runs: the starting state and scans, by the text and from its table.
use crate::compare::{Lent, Scan, Wanted, checked, scanned};
use crate::lines::refusal_in;
use crate::short::short_refused;
use crate::states::{States, start_line, state_line};
use kaldvimur::tables::{Sizes, table};
use numbers::listed_in;
use pack::alone;
use tally::Answer;

// `S,S,.. in N`, the values into `after`, or `refused N at P`.
fn wanted_in(s: &[u8], after: &mut [i64]) -> Option<Wanted> {
    if s.starts_with(b"refused ") {
        return Some(Err(refusal_in(s)?));
    }
    let l = listed_in(s, after).ok()?;
    if l.values != after.len() {
        return None;
    }
    let steps = alone(s[l.count..].strip_prefix(b" in ")?)?;
    Some(Ok(steps as usize))
}

// `I,I,.. -> ` and what is expected: a scan from the state that the line before left; the states behind it, if it is as expected.
fn scan_line(text: &[u8], t: Lent, states: States, s: &[u8]) -> Option<States> {
    let States {
        mut by_text,
        mut by_table,
        mut after,
        count,
    } = states;
    let mut inputs = [0i64; 80];
    let l = listed_in(s, &mut inputs).ok()?;
    let answer = s[l.count..].strip_prefix(b" -> ")?;
    let wanted = wanted_in(answer, &mut after[..count])?;
    let scan = Scan {
        inputs: &inputs[..l.values],
        after: &after[..count],
        wanted,
    };
    if !scanned(text, t, scan, &mut by_text[..count], &mut by_table[..count]) {
        return None;
    }
    Some(States {
        by_text,
        by_table,
        after,
        count,
    })
}

// A line, and the states behind it, if it is as expected.
fn line(text: &[u8], t: Lent, states: States, s: &[u8]) -> Option<States> {
    if let Some(state) = s.strip_prefix(b"start ") {
        return start_line(text, state);
    }
    if let Some(state) = s.strip_prefix(b"state ") {
        return state_line(state);
    }
    scan_line(text, t, states, s.strip_prefix(b"scan ")?)
}

// Every line; the place of the one that differs.
fn lines(text: &[u8], t: Lent, s: &[u8]) -> Answer {
    let states = &mut States {
        by_text: [0; 80],
        by_table: [0; 80],
        after: [0; 80],
        count: 0,
    };
    let mut place = 0;
    for part in s.split_inclusive(|b| *b == b'\n') {
        match line(text, t, *states, part) {
            Some(next) if next.count != 0 => *states = next,
            _ => return Answer::Other { place },
        }
        place += part.len() as u64;
    }
    Answer::Passed
}

// A text and its lines.
pub fn text_as(text: &[u8], expected: &[u8]) -> Answer {
    if !short_refused(text) {
        return Answer::RoomSpared;
    }
    let mut rows = [0u32; 12256];
    let mut cells = [0u32; 64];
    let Ok(Sizes { rows: n, cells: k }) = table(text, &mut rows, &mut cells) else {
        return Answer::NoTable;
    };
    if 3064 < n || 64 < k {
        return Answer::NoTable;
    }
    let t = Lent {
        rows: &rows[..4 * n],
        cells: &cells[..k],
        row_count: n,
        cell_count: k,
    };
    if !checked(t, Ok(k)) {
        return Answer::NoTable;
    }
    lines(text, t, expected)
}
