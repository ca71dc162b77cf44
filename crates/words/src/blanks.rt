// Blanks and comments passed over.
ghost use Rattle.std.specs.Prelude.{◌≤◌, length};
ghost use Rattle.words.specs.Denoted.{CommentEnds, Skips};

use crate::bytes::{blank, byte_at};

// The place behind the `*)` that closes a comment whose inside starts at `at`, if one does.
fn comment_end(text: &[u8], at: usize) -> Option<usize>
    requires { (at ≤ length text.now) × (length text.now ≤ 8192) }
    ensures { CommentEnds text.now at result }
{
    for i in at + 1..text.len() {
        if text[i - 1] == b'*' && text[i] == b')' {
            return Some(i + 1);
        }
    }
    None
}

// The place behind the blanks and comments from `at` on; Err of the place of a comment that isn't closed.
pub fn skip(text: &[u8], at: usize) -> Result<usize, usize>
    requires { (at ≤ length text.now) × (length text.now ≤ 8192) }
    ensures { Skips text.now at result }
{
    let mut i = at;
    while let Some(&b) = text.get(i) {
        if blank(b) {
            i += 1;
        } else if b == b'(' && byte_at(text, i + 1) == b'*' {
            i = comment_end(text, i + 2).ok_or(i)?;
        } else {
            break;
        }
    }
    Ok(i)
}
