// The states of a run, as lines give them.
ghost use Rattle.std.specs.Prelude.{◌≤◌};

use crate::compare::started;
use crate::lines::values_in;

// As the text and a table leave it, and as it is expected; the first `count` values are the state's.
#[derive(Clone, Copy)]
pub struct States {
    pub by_text: [i64; 80],
    pub by_table: [i64; 80],
    pub after: [i64; 80],
    pub count: usize,
    ghost within: { count ≤ 80 },
}

// `state S,S,..`: from here on all three hold exactly these values.
pub fn state_line(s: &[u8]) -> Option<States> {
    let mut after = [0i64; 80];
    let count = values_in(s, &mut after)?;
    Some(States {
        by_text: after,
        by_table: after,
        after,
        count,
    })
}

// `start S,S,..`: the state that the text starts with; nothing where it starts with another.
pub fn start_line(text: &[u8], s: &[u8]) -> Option<States> {
    let mut by_text = [0i64; 80];
    let mut by_table = [0i64; 80];
    let mut after = [0i64; 80];
    let count = values_in(s, &mut after)?;
    let same = started(text, &mut by_text[..count], &after[..count], Ok(count))
        && started(text, &mut by_table[..count], &after[..count], Ok(count));
    if !same {
        return None;
    }
    Some(States {
        by_text,
        by_table,
        after,
        count,
    })
}
