// The lines of a record, and what they hold.
ghost use Rattle.std.specs.Prelude.{◌≤◌, length, IfSome};
ghost use Rattle.try_runs.specs.Lines.{Holds};

use numbers::listed_in;
use pack::{Expected, Refused, line_of};

// What stands behind `word` in the first line, and the lines behind it; nothing, where the line begins otherwise.
pub fn behind<'a>(s: &'a [u8], word: &[u8]) -> Option<(&'a [u8], &'a [u8])> {
    let (line, rest) = s.split_at(line_of(s));
    Some((line.strip_prefix(word)?, rest))
}

// How many values the line holds, which are put into the front of `out`, if it holds nothing else.
pub fn values_in(s: &[u8], out: &mut [i64]) -> Option<usize>
    ensures { IfSome result (Holds s.now out.old out.new) }
{
    let l = listed_in(s, out).ok()?;
    match &s[l.count..] {
        b"\n" => Some(l.values),
        _ => None,
    }
}

// The refusal that a line says, if it says one.
pub fn refusal_in(s: &[u8]) -> Option<Refused> {
    match pack::expected_in(s)? {
        Expected::Print => None,
        Expected::Refused(refused) => Some(refused),
    }
}
