// Whole numbers with their signs, as lines have them: one, several parted by commas, and compared.
#![tactic(auto)]

ghost use Rattle.std.specs.Prelude.{◌≡◌, false, true, MatchOption, MatchResult};
ghost use Rattle.pack.specs.Records.{NoDigit};
ghost use Rattle.numbers.specs.Spellings.{number_first, IsTen, IsPlain, IsWhole, IsListed, IsUnlisted};

use pack::Spelled;

// A whole number and how many bytes it has.
#[derive(Clone, Copy)]
pub struct Whole {
    pub value: i64,
    pub count: usize,
}

// How many values were put, and how many bytes they have.
#[derive(Clone, Copy)]
pub struct Listed {
    pub values: usize,
    pub count: usize,
}

// The digits that `s` begins with, until their number has ten places.
fn ten_digits(s: &[u8]) -> Option<Spelled>
    ensures { MatchOption result (NoDigit s.now) (IsTen s.now) }
{
    let n = pack::digits(s)?;
    match s.get(n.count) {
        Some(b) if b.is_ascii_digit() => Some(Spelled {
            value: n.value * 10 + u64::from(*b - b'0'),
            count: n.count + 1,
        }),
        _ => Some(n),
    }
}

// The number that `s` begins with, if no minus stands in front.
fn plain_in(s: &[u8]) -> Option<Whole>
    ensures { MatchOption result (NoDigit s.now) (IsPlain s.now) }
{
    let n = ten_digits(s)?;
    Some(Whole {
        value: n.value as i64,
        count: n.count,
    })
}

// The whole number that `s` begins with.
pub fn whole_in(s: &[u8]) -> Option<Whole>
    ensures { MatchOption result (number_first s.now ≡ false) (IsWhole s.now) }
{
    let Some(rest) = s.strip_prefix(b"-") else {
        return plain_in(s);
    };
    let w = plain_in(rest)?;
    Some(Whole {
        value: -w.value,
        count: w.count + 1,
    })
}

// The whole numbers parted by commas that `s` begins with, put into the front of `out`; `Err` of those before it where a number
// or room for it is wanting.
pub fn listed_in(s: &[u8], out: &mut [i64]) -> Result<Listed, Listed>
    ensures { MatchResult result (IsListed s.now out.old out.new) (IsUnlisted s.now out.old out.new) }
{
    let mut count = 0;
    for (values, z) in out.iter_mut().enumerate() {
        let Some(w) = whole_in(&s[count..]) else {
            return Err(Listed { values, count });
        };
        *z = w.value;
        count += w.count;
        if count == s.len() || s[count] != b',' {
            return Ok(Listed {
                values: values + 1,
                count,
            });
        }
        count += 1;
    }
    Err(Listed {
        values: out.len(),
        count,
    })
}

// Whether two lists of values are the same.
pub fn same_values(a: &[i64], b: &[i64]) -> bool
    ensures { (result ≡ true → a.now ≡ b.now) × (a.now ≡ b.now → result ≡ true) }
{
    a == b
}
