// Single bytes of a text.
ghost use Rattle.std.specs.Prelude.{◌≡◌, eqb, get_or};
ghost use Rattle.paper.specs.Words.{is_blank, in_run, capital};

pub fn blank(b: u8) -> bool
    ensures { result ≡ is_blank b }
{
    matches!(b, b' ' | b'\t' | b'\r' | b'\n')
}

// Whether a byte is of a run.
pub fn in_run(b: u8) -> bool
    ensures { result ≡ in_run b }
{
    b.is_ascii_alphanumeric() || b == b'_'
}

// The byte at a place, 0 beyond the text.
pub fn byte_at(text: &[u8], at: usize) -> u8
    ensures { result ≡ get_or text.now at 0 }
{
    text.get(at).copied().unwrap_or(0)
}

// Whether two bytes are the same, case of letters aside.
pub fn same_byte(x: u8, y: u8) -> bool
    ensures { result ≡ eqb (capital x) (capital y) }
{
    if x == y {
        return true;
    }
    if x.is_ascii_lowercase() {
        return y == x - 32;
    }
    x.is_ascii_uppercase() && y == x + 32
}
