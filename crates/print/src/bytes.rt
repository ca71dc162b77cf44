// Bytes, digits and names.
ghost use Rattle.std.specs.Prelude.{◌≡◌, cond, List, ◌∷◌, ◌++◌, map, ℕ, ◌<◌, pos, neg_ℤ};
ghost use Rattle.paper.specs.Words.{capital, type_name};
ghost use Rattle.paper.specs.Printing as P;
ghost use Rattle.print.specs.Printed.{Printed, PrintedDigits};

use paper::Ty;

// One byte. Beyond the buffer it is counted and not written; no place is above the greatest number.
pub fn byte(out: &mut [u8], at: usize, b: u8) -> usize
    ensures { Printed out.old out.new at (λ k. b ∷ k) result }
{
    if at < out.len() {
        out[at] = b;
    }
    at.saturating_add(1)
}

pub fn put(out: &mut [u8], at: usize, s: &[u8]) -> usize
    ensures { Printed out.old out.new at (λ k. s.now ++ k) result }
{
    let mut a = at;
    for b in s {
        a = byte(out, a, *b);
    }
    a
}

// A name in capitals.
pub fn capitals(out: &mut [u8], at: usize, s: &[u8]) -> usize
    ensures { Printed out.old out.new at (λ k. map capital s.now ++ k) result }
{
    let mut a = at;
    for b in s {
        a = byte(out, a, b.to_ascii_uppercase());
    }
    a
}

// The digits of a number, the last behind those of its tenth.
fn digits(out: &mut [u8], at: usize, n: u64) -> usize
    ensures { PrintedDigits out.old out.new at n result }
{
    if n < 10 {
        return byte(out, at, b'0' + n as u8);
    }
    let a = digits(out, at, n / 10);
    byte(out, a, b'0' + (n % 10) as u8)
}

pub fn natural(out: &mut [u8], at: usize, n: u64) -> usize
    requires { n < 10000000000 }
    ensures { Printed out.old out.new at (P.natural n) result }
{
    digits(out, at, n)
}

// A number of the sign that is said; 0 has none.
pub fn whole(out: &mut [u8], at: usize, minus: bool, n: u32) -> usize
    ensures { Printed out.old out.new at (P.whole (cond minus (neg_ℤ (pos n)) (pos n))) result }
{
    if minus && 0 < n {
        let a = put(out, at, b"-");
        return natural(out, a, n as u64);
    }
    natural(out, at, n as u64)
}

#[tactic(auto, unfolding(paper::specs::Words::bytes))]
fn truth_name(b: bool) -> &'static [u8]
    ensures { (k : List ℕ) → P.truth_value b k ≡ result.now ++ k }
{
    if b { b"TRUE" } else { b"FALSE" }
}

pub fn truth(out: &mut [u8], at: usize, b: bool) -> usize
    ensures { Printed out.old out.new at (P.truth_value b) result }
{
    put(out, at, truth_name(b))
}

#[tactic(auto, unfolding(paper::specs::Words::bytes, paper::specs::Words::type_name))]
fn name_of(t: Ty) -> &'static [u8]
    ensures { result.now ≡ type_name t }
{
    match t {
        Ty::Bool => b"BOOL",
        Ty::Int => b"INT",
        Ty::Uint => b"UINT",
        Ty::Dint => b"DINT",
        Ty::Udint => b"UDINT",
    }
}

pub fn type_name(out: &mut [u8], at: usize, t: Ty) -> usize
    ensures { Printed out.old out.new at (λ k. type_name t ++ k) result }
{
    put(out, at, name_of(t))
}
