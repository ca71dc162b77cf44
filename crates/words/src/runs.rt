// Runs of letters, digits and underscores, and the numbers among them.
ghost use Rattle.std.specs.Prelude.{◌≡◌, ◌+◌, ◌≤◌, ◌<◌, length, get_or};
ghost use Rattle.words.specs.Denoted.{is_part, IsRun, IsNumeral};

use crate::bytes::{byte_at, in_run};

// A run: where it ends, and whether its underscores are placed well, each alone and before a letter or a digit.
#[derive(Clone, Copy)]
pub struct Run {
    pub end: usize,
    pub parted: bool,
}

// Whether a letter or a digit stands behind a place.
fn parts(text: &[u8], at: usize) -> bool
    requires { at < length text.now }
    ensures { result ≡ is_part (get_or text.now (at + 1) 0) }
{
    byte_at(text, at + 1).is_ascii_alphanumeric()
}

// The run of letters, digits and underscores that starts at `at`. What stands behind an underscore is looked at there only.
pub fn run_at(text: &[u8], at: usize) -> Run
    requires { at ≤ length text.now }
    ensures { IsRun text.now at result }
{
    let mut parted = true;
    for i in at..text.len() {
        let b = text[i];
        if b == b'_' {
            if !parts(text, i) {
                parted = false;
            }
        } else if !in_run(b) {
            return Run { end: i, parted };
        }
    }
    Run {
        end: text.len(),
        parted,
    }
}

// A run of digits and underscores as a number of at most 4,294,967,295.
pub fn numeral_of(run: &[u8]) -> Option<u32>
    ensures { IsNumeral run.now result }
{
    let mut n: u32 = 0;
    for &b in run {
        if b.is_ascii_digit() {
            n = n.checked_mul(10)?.checked_add((b - b'0') as u32)?;
        } else if b != b'_' {
            return None;
        }
    }
    Some(n)
}
