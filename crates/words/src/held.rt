// A reader: it holds the lent text by reference together with its place. Its functions take it apart and leave the work to others.
ghost use Rattle.std.specs.Prelude.{◌≡◌, ◌≤◌, length};
ghost use Rattle.words.specs.Denoted.{IsWord};

use crate::{Word, word_from};

#[derive(Clone, Copy)]
pub struct Reader<'a> {
    pub text: &'a [u8],
    pub at: usize,
}

// A reader of a text, at a place.
pub fn reader_at<'a>(text: &'a [u8], at: usize) -> Reader<'a>
    ensures { (result.text ≡ text.entry) × (result.at ≡ at) }
{
    Reader { text, at }
}

// The word that a reader comes to next. Behind it, at the word's `end`, stands the reader of the word after it.
pub fn word_of<'a>(r: Reader<'a>) -> Word
    requires { (r.at ≤ length r.text.now) × (length r.text.now ≤ 8192) }
    ensures { IsWord r.entry.text.now r.entry.at result }
{
    word_from(r.text, r.at)
}
