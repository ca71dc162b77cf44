// Signs of one byte and of two.
ghost use Rattle.words.specs.Denoted.{IsSign, IsSignLength};

use crate::{BAD, SIGN};

// The class of the sign that starts with the bytes `a` and `b`, by its number in the list of signs.
pub fn sign_class(a: u8, b: u8) -> u8
    ensures { IsSign a b result }
{
    match a {
        b':' => if b == b'=' { SIGN } else { SIGN + 5 },
        b'.' => if b == b'.' { SIGN + 1 } else { BAD },
        b'<' => if b == b'=' {
            SIGN + 2
        } else {
            if b == b'>' { SIGN + 4 } else { SIGN + 16 }
        },
        b'>' => if b == b'=' { SIGN + 3 } else { SIGN + 17 },
        b';' => SIGN + 6,
        b',' => SIGN + 7,
        b'(' => SIGN + 8,
        b')' => SIGN + 9,
        b'[' => SIGN + 10,
        b']' => SIGN + 11,
        b'*' => SIGN + 12,
        b'/' => SIGN + 13,
        b'+' => SIGN + 14,
        b'-' => SIGN + 15,
        b'=' => SIGN + 18,
        b'&' => SIGN + 19,
        _ => BAD,
    }
}

// A sign of two bytes is one of the first five.
pub fn sign_length(class: u8) -> usize
    ensures { IsSignLength class result }
{
    if class < SIGN + 5 { 2 } else { 1 }
}
