// Records of the vectors: `LLLLL EEEEE` and LF, L bytes of text, E bytes of what is expected for it, and LF.
#![tactic(auto)]

ghost use Rattle.std.specs.Prelude.{◌≡◌, ◌≤◌, ◌<◌, length, IfSome, MatchOption};
ghost use Rattle.paper.specs.Refusals.{number_of};
ghost use Rattle.pack.specs.Records.{numbered, NoDigit, Spells, IsAlone, Line, IsPrefixLen, IsRecord, IsExpected};

use paper::Refusal;
use std::error::Error;
use std::fmt;
use std::io::Read;

// The number that digits spell, and how many they are.
#[derive(Clone, Copy)]
pub struct Spelled {
    pub value: u64,
    pub count: usize,
}

// How many bytes a record has in each of the lent buffers.
#[derive(Clone, Copy)]
pub struct Lengths {
    pub text: usize,
    pub expected: usize,
}

// A record that is cut short or has no heading; or one that is longer than the buffers.
#[derive(Clone, Copy, Debug, PartialEq, Eq)]
pub enum RecordError {
    Broken,
    TooLong,
}

impl fmt::Display for RecordError {
    fn fmt<W: fmt::Write>(&self, f: &mut fmt::Formatter<W>) -> fmt::Result {
        match self {
            RecordError::Broken => write!(f, "broken"),
            RecordError::TooLong => write!(f, "too long"),
        }
    }
}

impl Error for RecordError {}

// A refusal by its number, with its place.
#[derive(Clone, Copy, PartialEq, Eq)]
pub struct Refused {
    pub number: u64,
    pub place: u64,
}

impl From<Refusal> for Refused {
    ghost from_gives = { λ e r. r ≡ numbered (number_of e.why) e.place };

    fn from(refusal: Refusal) -> Refused {
        Refused {
            number: u64::from(u8::from(refusal.why)),
            place: refusal.place as u64,
        }
    }
}

impl fmt::Display for Refused {
    fn fmt<W: fmt::Write>(&self, f: &mut fmt::Formatter<W>) -> fmt::Result {
        let Refused { number, place } = *self;
        write!(f, "{number} at {place}")
    }
}

// What is expected for a text.
#[derive(Clone, Copy)]
pub enum Expected {
    Print,
    Refused(Refused),
}

// The digits that `s` begins with, until their number has nine places.
pub fn digits(s: &[u8]) -> Option<Spelled>
    ensures { MatchOption result (NoDigit s.now) (Spells s.now) }
{
    let mut value = 0;
    let mut count = 0;
    for b in s {
        if value >= 100000000 || !b.is_ascii_digit() {
            break;
        }
        value = value * 10 + u64::from(*b - b'0');
        count += 1;
    }
    if count == 0 {
        return None;
    }
    Some(Spelled { value, count })
}

// The number of a line that holds its digits and nothing else.
pub fn alone(s: &[u8]) -> Option<u64>
    ensures { IfSome result (IsAlone s.now) }
{
    let n = digits(s)?;
    match &s[n.count..] {
        b"\n" => Some(n.value),
        _ => None,
    }
}

// Two numbers with `between` between them and LF behind them, if the line holds nothing else.
pub fn pair_in(s: &[u8], between: &[u8]) -> Option<(u64, u64)>
    ensures { IfSome result (λ p. Line between.now s.now p.0 p.1) }
{
    let n = digits(s)?;
    let rest = s[n.count..].strip_prefix(between)?;
    let p = alone(rest)?;
    Some((n.value, p))
}

// How many bytes the first line of `s` has, its LF among them.
pub fn line_of(s: &[u8]) -> usize
    ensures { (result ≤ length s.now) × (0 < length s.now → 0 < result) }
{
    s.iter()
        .position(|b| *b == b'\n')
        .map_or(s.len(), |i| i + 1)
}

// Reads into the buffer until it is full, nothing more comes, or a read fails; how many bytes lie in its front.
pub fn read_full<R: Read>(reader: &mut R, buffer: &mut [u8]) -> usize
    ensures { IsPrefixLen result buffer.new }
{
    let mut done = 0;
    while done < buffer.len() {
        match reader.read(&mut buffer[done..]) {
            Ok(0) | Err(_) => break,
            Ok(n) => done += n,
        }
    }
    done
}

// Fills the buffer from a record.
fn fill<R: Read>(reader: &mut R, buffer: &mut [u8]) -> Result<(), RecordError> {
    if read_full(reader, buffer) < buffer.len() {
        return Err(RecordError::Broken);
    }
    Ok(())
}

// Reads the LF that ends a record.
fn end<R: Read>(reader: &mut R) -> Result<(), RecordError> {
    let mut byte = [0u8; 1];
    fill(reader, &mut byte)?;
    if byte[0] != b'\n' {
        return Err(RecordError::Broken);
    }
    Ok(())
}

// The next record of the file, in the lent buffers; none, where the file ends.
pub fn next_record<R: Read>(
    reader: &mut R,
    text: &mut [u8],
    expected: &mut [u8],
) -> Result<Option<Lengths>, RecordError>
    ensures { IsRecord text.new expected.new result }
{
    let mut head = [0u8; 12];
    let got = read_full(reader, &mut head);
    if got == 0 {
        return Ok(None);
    }
    let (l, e) = pair_in(&head[..got], b" ").ok_or(RecordError::Broken)?;
    if (text.len() as u64) < l || (expected.len() as u64) < e {
        return Err(RecordError::TooLong);
    }
    let (l, e) = (l as usize, e as usize);
    fill(reader, &mut text[..l])?;
    fill(reader, &mut expected[..e])?;
    end(reader)?;
    Ok(Some(Lengths {
        text: l,
        expected: e,
    }))
}

// What the expected bytes of a record say; nothing, where they begin as a refusal and are none.
pub fn expected_in(s: &[u8]) -> Option<Expected>
    ensures { IsExpected s.now result }
{
    let Some(refusal) = s.strip_prefix(b"refused ") else {
        return Some(Expected::Print);
    };
    let (number, place) = pair_in(refusal, b" at ")?;
    Some(Expected::Refused(Refused { number, place }))
}
