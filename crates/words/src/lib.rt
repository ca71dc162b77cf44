// One word at a place of a text, as document 01 cuts words: blanks and comments skipped, the longest run or sign taken.
#![tactic(auto)]

ghost use Rattle.std.specs.Prelude.{◌≡◌, ◌≤◌, ◌<◌, length};
ghost use Rattle.words.specs.Denoted.{IsRun, IsNumberAt, IsSignAt, IsToldAt, IsTold, IsWord, IsFirstBad};

use crate::blanks::skip;
use crate::bytes::byte_at;
use crate::held::{reader_at, word_of};
use crate::reserved::name_class;
use crate::runs::{numeral_of, run_at};
use crate::signs::{sign_class, sign_length};
pub use names::{ends_alike, name_length, name_of, same_name};
pub use runs::Run;

mod blanks;
mod bytes;
pub mod held;
mod names;
mod reserved;
mod runs;
mod signs;

// The classes of a word. From RESERVED on they number the entries of the list of reserved words, from SIGN on those of the signs.
pub const ENDING: u8 = 0;

pub const NAME: u8 = 1;

pub const NUMBER: u8 = 2;

pub const RESERVED: u8 = 3;

pub const SIGN: u8 = 54;

pub const BAD: u8 = 255;

// A word: its class, its first byte, the place behind it, and a number's value.
#[derive(Clone, Copy)]
pub struct Word {
    pub class: u8,
    pub at: usize,
    pub end: usize,
    pub value: u32,
}

fn bad(at: usize) -> Word
    ensures { result ≡ record { class = 255; at = at; end = at; value = 0 } }
{
    Word {
        class: BAD,
        at,
        end: at,
        value: 0,
    }
}

// The word of a run that starts with a digit.
fn number_at(text: &[u8], at: usize, run: Run) -> Word
    requires { IsRun text.now at run }
    ensures { IsNumberAt text.now at run.end result }
{
    let end = run.end;
    match numeral_of(&text[at..end]) {
        Some(value) if run.parted => Word {
            class: NUMBER,
            at,
            end,
            value,
        },
        _ => bad(at),
    }
}

// The word where no run starts.
fn sign_at(text: &[u8], at: usize) -> Word
    requires { at < length text.now }
    ensures { IsSignAt text.now at result }
{
    let class = sign_class(text[at], byte_at(text, at + 1));
    if class == BAD {
        return bad(at);
    }
    Word {
        class,
        at,
        end: at + sign_length(class),
        value: 0,
    }
}

// The word that starts at a place inside the text where no blank and no comment does; if not `told`, a reserved word is a NAME.
fn word_at(text: &[u8], at: usize, told: bool) -> Word
    requires { at < length text.now }
    ensures { IsToldAt told text.now at result }
{
    let run = run_at(text, at);
    let end = run.end;
    if end == at {
        return sign_at(text, at);
    }
    if text[at].is_ascii_digit() {
        return number_at(text, at, run);
    }
    if end - at <= 24 && run.parted {
        return Word {
            class: name_class(&text[at..end], told),
            at,
            end,
            value: 0,
        };
    }
    bad(at)
}

// The next word from a place on, told like that: ENDING at the text's length where none is left, BAD where none can be read.
fn next_from(text: &[u8], at: usize, told: bool) -> Word
    requires { (at ≤ length text.now) × (length text.now ≤ 8192) }
    ensures { IsTold told text.now at result }
{
    match skip(text, at) {
        Err(open) => bad(open),
        Ok(i) if i < text.len() => word_at(text, i, told),
        Ok(i) => Word {
            class: ENDING,
            at: i,
            end: i,
            value: 0,
        },
    }
}

// The same with reserved words told from names. A reader's work.
fn word_from(text: &[u8], at: usize) -> Word
    requires { (at ≤ length text.now) × (length text.now ≤ 8192) }
    ensures { IsWord text.now at result }
{
    next_from(text, at, true)
}

// The same out of a reader, from which every word comes; for those who hold a text and a place.
pub fn next_word(text: &[u8], at: usize) -> Word
    requires { (at ≤ length text.now) × (length text.now ≤ 8192) }
    ensures { IsWord text.now at result }
{
    word_of(reader_at(text, at))
}

// The place of the first bad word of a text. Which words are reserved doesn't matter to it.
pub fn first_bad(text: &[u8]) -> Option<usize>
    requires { length text.now ≤ 8192 }
    ensures { IsFirstBad text.now result }
{
    let mut at = 0;
    loop {
        let w = next_from(text, at, false);
        match w.class {
            BAD => return Some(w.at),
            ENDING => return None,
            _ => at = w.end,
        }
    }
}
