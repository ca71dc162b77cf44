// The texts of a pack counted, and our answers compared with the expected ones.
#![tactic(auto)]

ghost use Rattle.std.specs.Prelude.{◌≡◌, false, ◌≤◌, ◌<◌, MatchResult};
ghost use Rattle.paper.specs.Refusals.{number_of};
ghost use Rattle.pack.specs.Records.{numbered};
ghost use Rattle.tally.specs.declared.Answer.TheVariants as A;
ghost use Rattle.tally.specs.Counts.{is_compared, IsWanted, Tallied, Went};

use pack::{Expected, RecordError, Refused};
use paper::Refusal;
use std::io::Read;
use std::rt::Files;
use std::{fmt, fs, io};

// What a record is answered with: a text's refusal, or a difference that no refusal tells.
#[derive(Clone, Copy, PartialEq, Eq)]
pub enum Answer {
    // None of the refusals that are compared.
    Passed,
    Refused(Refused),
    // The expected bytes are neither a print nor a refusal.
    Unclear,
    // The print is another, or the line at this place.
    Other { place: u64 },
    // The print is another when read again.
    OtherAgain,
    // No table is made, or one that is refused.
    NoTable,
    // The lent table is answered otherwise.
    OtherTable,
    // Room that is too short is not refused.
    RoomSpared,
}

impl fmt::Display for Answer {
    fn fmt<W: fmt::Write>(&self, f: &mut fmt::Formatter<W>) -> fmt::Result {
        match self {
            Answer::Passed => write!(f, "0 at 0"),
            Answer::Refused(refused) => write!(f, "{refused}"),
            Answer::Unclear => write!(f, "13 at 0"),
            Answer::Other { place } => write!(f, "14 at {place}"),
            Answer::OtherAgain | Answer::NoTable => write!(f, "15 at 0"),
            Answer::OtherTable => write!(f, "16 at 0"),
            Answer::RoomSpared => write!(f, "17 at 0"),
        }
    }
}

impl From<Refusal> for Answer {
    ghost from_gives = { λ e a. a ≡ A.Refused (numbered (number_of e.why) e.place) };

    fn from(refusal: Refusal) -> Answer {
        Answer::Refused(Refused::from(refusal))
    }
}

// A stage's answer.
impl<T: Drop> From<Result<T, Refusal>> for Answer {
    ghost from_gives = { λ r a. MatchResult r (λ _. a ≡ A.Passed) (λ e. a ≡ A.Refused (numbered (number_of e.why) e.place)) };

    fn from(r: Result<T, Refusal>) -> Answer {
        match r {
            Ok(_) => Answer::Passed,
            Err(refusal) => Answer::from(refusal),
        }
    }
}

// Our answer for a record, and the one that it wants.
#[derive(Clone, Copy)]
pub struct Answers {
    pub ours: Answer,
    pub wanted: Answer,
}

// How many texts were tried and how many differ, and whether there may be more.
#[derive(Clone, Copy)]
pub struct Tally {
    pub tried: u64,
    pub differ: u64,
    pub more: bool,
}

// No pack holds as many records.
pub const MOST: u64 = 100000;

// Whether an expected refusal is one of those up to `last`: 0 at 0 says that there is none.
fn is_compared(refused: Refused, last: u64) -> bool
    ensures { result ≡ is_compared last refused }
{
    refused.number <= last && (refused.number != 0 || refused.place != 0)
}

// What is expected, as far as the refusals up to `last`; the number 0 at 0 is none.
pub fn wanted(s: &[u8], last: u64) -> Answer
    ensures { IsWanted s.now last result }
{
    match pack::expected_in(s) {
        Some(Expected::Refused(refused)) if is_compared(refused, last) => Answer::Refused(refused),
        Some(_) => Answer::Passed,
        None => Answer::Unclear,
    }
}

// One text more. A line that can't be printed changes no count.
pub fn compared(rt: &impl Print, t: Tally, answers: Answers) -> Tally
    requires { (t.tried < 100000) × (t.differ ≤ t.tried) }
    ensures { Tallied t answers result }
{
    let tried = t.tried + 1;
    let Answers { ours, wanted } = answers;
    if ours == wanted {
        return Tally {
            tried,
            differ: t.differ,
            more: true,
        };
    }
    let _ = println!(rt; "record {tried}: {ours}, expected {wanted}");
    Tally {
        tried,
        differ: t.differ + 1,
        more: true,
    }
}

// Nothing more is tried; why, is said behind the record's number.
pub fn stopped(rt: &impl Print, t: Tally, why: &[u8]) -> Tally
    requires { t.tried < 100000 }
    ensures { result ≡ record { tried = t.tried; differ = t.differ; more = false } }
{
    let number = t.tried + 1;
    let _ = print!(rt; "record {number}").and_then(|()| rt.write_all(why));
    Tally { more: false, ..t }
}

// The same for the error of a record.
pub fn stopped_by(rt: &impl Print, t: Tally, why: RecordError) -> Tally
    requires { t.tried < 100000 }
    ensures { result ≡ record { tried = t.tried; differ = t.differ; more = false } }
{
    let number = t.tried + 1;
    let _ = println!(rt; "record {number} is {why}");
    Tally { more: false, ..t }
}

// The next record tried.
fn one_more<P: Print, R: Read, J: Fn(&[u8], &[u8]) -> Answers>(
    rt: &P,
    reader: &mut R,
    judge: &J,
    t: Tally,
) -> Tally
    requires bounds { (t.tried < 100000) × (t.differ ≤ t.tried) }
    requires callable { J.IsAlwaysCallable judge.now }
    ensures { Went t result }
{
    let mut text = [0u8; 100000];
    let mut expected = [0u8; 100000];
    match pack::next_record(reader, &mut text, &mut expected) {
        Ok(Some(l)) => compared(rt, t, judge(&text[..l.text], &expected[..l.expected])),
        Ok(None) => Tally { more: false, ..t },
        Err(why) => stopped_by(rt, t, why),
    }
}

// Every record of a pack, with the answers that `judge` gives for its text and what is expected.
#[tactic(auto, using(crate::proofs::Counting::one_at_most, crate::proofs::Counting::went_on))]
pub fn every_record<P: Print, R: Read, J: Fn(&[u8], &[u8]) -> Answers>(
    rt: &P,
    reader: &mut R,
    judge: J,
) -> Tally
    requires { J.IsAlwaysCallable judge }
    ensures { (result.differ ≤ result.tried) × (result.tried ≤ 100000) }
{
    let mut t = Tally {
        tried: 0,
        differ: 0,
        more: true,
    };
    while t.more && t.tried < MOST {
        t = one_more(rt, reader, &judge, t);
    }
    t
}

// The counts, once the pack is at its end.
pub fn print_tally(rt: &impl Print, t: Tally) -> io::Result<()> {
    let Tally {
        tried,
        differ,
        more,
    } = t;
    if more {
        println!(rt; "there are more records")?;
    }
    println!(rt; "{tried} texts tried, {differ} differ")
}

// Every record of the file with this name.
pub fn every_record_of<R: Files + Print, J: Fn(&[u8], &[u8]) -> Answers>(
    rt: &R,
    name: &str,
    judge: J,
) -> io::Result<()>
    requires { J.IsAlwaysCallable judge }
{
    let Ok(mut file) = fs::open(rt, name) else {
        return println!(rt; "{name} cannot be opened");
    };
    print!(rt; "{name}: ")?;
    let t = every_record(rt, &mut file, judge);
    print_tally(rt, t)
}
