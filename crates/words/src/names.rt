// Names at places of a text, compared with the case of letters aside.
ghost use Rattle.std.specs.Prelude.{◌≡◌, ◌<◌};
ghost use Rattle.paper.specs.Words.{same_bytes};
ghost use Rattle.words.specs.Denoted.{spelled_at, name_at, HasLength, EndsAlike};

use crate::bytes::{byte_at, in_run, same_byte};

// How many bytes the name at a place has.
pub fn name_length(text: &[u8], at: usize) -> usize
    ensures { HasLength text.now at result }
{
    if text.len() <= at {
        return 0;
    }
    let most = (text.len() - at).min(24);
    for n in 0..most {
        if !in_run(text[at + n]) {
            return n;
        }
    }
    most
}

// The name at a place, as that part of the text.
pub fn name_of(text: &[u8], at: usize) -> &[u8]
    ensures { result.now ≡ spelled_at text.now at }
{
    let at = at.min(text.len());
    let n = name_length(text, at);
    &text[at..at + n]
}

// Whether the name at `b` can be the one of `n` bytes at `a`: it has the same last of them. Of numbered names few have.
pub fn ends_alike(text: &[u8], a: usize, n: usize, b: usize) -> bool
    requires { HasLength text.now a n × (b < 65536) }
    ensures { EndsAlike text.now a n b result }
{
    n == 0 || same_byte(text[a + (n - 1)], byte_at(text, b + (n - 1)))
}

// Whether the names at two places are the same, case of letters aside. The first has `n` bytes.
pub fn same_name(text: &[u8], a: usize, n: usize, b: usize) -> bool
    requires { HasLength text.now a n × (b < 65536) }
    ensures { result ≡ same_bytes (name_at text.now a) (name_at text.now b) }
{
    if text.len() < b + n {
        return n == 0;
    }
    for i in 0..n {
        if !same_byte(text[a + i], text[b + i]) {
            return false;
        }
    }
    n == 24 || !in_run(byte_at(text, b + n))
}
