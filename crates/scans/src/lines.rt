// Lines of a text: what stands in them.
ghost use Rattle.std.specs.Prelude.{◌≤◌, length};

// How many bytes stand before the first blank.
pub fn word_of(s: &[u8]) -> usize
    ensures { result ≤ length s.now }
{
    s.iter().position(|b| *b == b' ').unwrap_or(s.len())
}

// Whether a line ends where `s` begins: by LF, by CR and LF, or because nothing follows.
fn ends(s: &[u8]) -> bool {
    s.is_empty() || s.starts_with(b"\n") || s.starts_with(b"\r\n")
}

// Puts the readings of a line into the front of `values`; whether it is a list of numbers, one for each input at the least.
pub fn readings_in(line: &[u8], inputs: usize, values: &mut [i64]) -> bool {
    if inputs == 0 && ends(line) {
        return true;
    }
    let Ok(l) = numbers::listed_in(line, values) else {
        return false;
    };
    inputs <= l.values && ends(&line[l.count..])
}
