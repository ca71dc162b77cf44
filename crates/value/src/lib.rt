// The five types and what operations do, on residues. Each function is total: it answers what its definition says for any arguments.
// Sums, differences and products are worked out on the residues themselves; quotients and orders on the values, in i64.
#![tactic(auto)]

ghost use Rattle.std.specs.Prelude.{◌≡◌, cond, ◌-◌, ◌%◌, ◌^◌, get_or};
ghost use Rattle.std.specs.Int.Signed.{lt_z, le_z};
ghost use Rattle.paper.specs.declared.Ty.TheVariants.{Bool as BOOL};
ghost use Rattle.paper.specs.Types as Types;
ghost use Rattle.paper.specs.Types.{width, signed, lowest, highest, encode, decode, add, sub, mul, negate, quotient, remainder, convert, bit, is_true, equal};
ghost use Rattle.paper.specs.Tables.{types};

use paper::{Op, Ty};

// ---- the types

// Those with U are unsigned, and so is BOOL.
pub fn is_signed(t: Ty) -> bool
    ensures { result ≡ signed t }
{
    match t {
        Ty::Bool => false,
        Ty::Int => true,
        Ty::Uint => false,
        Ty::Dint => true,
        Ty::Udint => false,
    }
}

// The type with a number, BOOL for a number that no type has.
pub fn type_with(n: u32) -> Ty
    ensures { result ≡ get_or types n BOOL }
{
    Ty::try_from(n).unwrap_or(Ty::Bool)
}

// The end of a type at or below 0.
fn lowest_of(t: Ty) -> i64
    ensures { result ≡ lowest t }
{
    match t {
        Ty::Bool => 0,
        Ty::Int => -32768,
        Ty::Uint => 0,
        Ty::Dint => -2147483648,
        Ty::Udint => 0,
    }
}

// The end of a type above 0.
fn highest_of(t: Ty) -> i64
    ensures { result ≡ highest t }
{
    match t {
        Ty::Bool => 1,
        Ty::Int => 32767,
        Ty::Uint => 65535,
        Ty::Dint => 2147483647,
        Ty::Udint => 4294967295,
    }
}

// Whether z is a value of the type.
pub fn fits(t: Ty, z: i64) -> bool
    ensures { result ≡ Types.fits t z }
{
    lowest_of(t) <= z && z <= highest_of(t)
}

// ---- between residues and values

// 2 to the width.
fn modulus(t: Ty) -> u64
    ensures { result ≡ 2 ^ width t }
{
    match t {
        Ty::Bool => 2,
        Ty::Int => 0x1_0000,
        Ty::Uint => 0x1_0000,
        Ty::Dint => 0x1_0000_0000,
        Ty::Udint => 0x1_0000_0000,
    }
}

// n modulo 2 to the width, by its low bits.
fn wrapped(t: Ty, n: u64) -> u32
    ensures { result ≡ n % 2 ^ width t }
{
    (n & (modulus(t) - 1)) as u32
}

// How many values of the type are below 0.
fn negatives(t: Ty) -> u64
    ensures { result ≡ cond (signed t) (2 ^ (width t - 1)) 0 }
{
    match t {
        Ty::Bool => 0,
        Ty::Int => 0x8000,
        Ty::Uint => 0,
        Ty::Dint => 0x8000_0000,
        Ty::Udint => 0,
    }
}

// Brings z into the type, by its low bits.
pub fn residue_of(t: Ty, z: i64) -> u32
    ensures { result ≡ encode t z }
{
    (z & (modulus(t) as i64 - 1)) as u32
}

// The value that a residue stands for: its place among the type's values from the lowest up, less the number of those below 0.
pub fn value_of(t: Ty, r: u32) -> i64
    ensures { result ≡ decode t r }
{
    let n = negatives(t);
    wrapped(t, r as u64 + n) as i64 - n as i64
}

// From the type t to the type u.
pub fn converted(t: Ty, u: Ty, a: u32) -> u32
    ensures { result ≡ convert t u a }
{
    residue_of(u, value_of(t, a))
}

// ---- arithmetic. 0x1_0000_0000 is a multiple of every modulus: it keeps a difference above 0.

// The sum, brought in.
pub fn sum(t: Ty, a: u32, b: u32) -> u32
    ensures { result ≡ add t a b }
{
    wrapped(t, a as u64 + b as u64)
}

// The difference, brought in.
pub fn difference(t: Ty, a: u32, b: u32) -> u32
    ensures { result ≡ sub t a b }
{
    wrapped(t, 0x1_0000_0000 + a as u64 - b as u64)
}

// The negation, brought in.
pub fn negated(t: Ty, a: u32) -> u32
    ensures { result ≡ negate t a }
{
    wrapped(t, 0x1_0000_0000 - a as u64)
}

// The product, brought in.
pub fn product(t: Ty, a: u32, b: u32) -> u32
    ensures { result ≡ mul t a b }
{
    wrapped(t, a as u64 * b as u64)
}

// The quotient cut toward zero, brought in; by 0 it is 0.
pub fn quotient_of(t: Ty, a: u32, b: u32) -> u32
    ensures { result ≡ quotient t a b }
{
    let x = value_of(t, a);
    let y = value_of(t, b);
    if y == 0 { 0 } else { residue_of(t, x / y) }
}

// a - (a/b)*b.
pub fn remainder_of(t: Ty, a: u32, b: u32) -> u32
    ensures { result ≡ remainder t a b }
{
    difference(t, a, product(t, quotient_of(t, a, b), b))
}

// ---- comparisons and truth values

// Whether a stands for a lower value than b.
pub fn is_less(t: Ty, a: u32, b: u32) -> bool
    ensures { result ≡ lt_z (decode t a) (decode t b) }
{
    value_of(t, a) < value_of(t, b)
}

// Whether a stands for no higher value than b.
fn is_at_most(t: Ty, a: u32, b: u32) -> bool
    ensures { result ≡ le_z (decode t a) (decode t b) }
{
    value_of(t, a) <= value_of(t, b)
}

// Whether both stand for one value.
pub fn is_same(t: Ty, a: u32, b: u32) -> bool
    ensures { result ≡ equal (decode t a) (decode t b) }
{
    wrapped(t, a as u64) == wrapped(t, b as u64)
}

// The truth value of a BOOL.
pub fn is_true(a: u32) -> bool
    ensures { result ≡ is_true a }
{
    a % 2 != 0
}

// BOOL holds 0 or 1.
pub fn bit_of(b: bool) -> u32
    ensures { result ≡ bit b }
{
    if b { 1 } else { 0 }
}

// ---- the operators with two operands

// The operator on two operands of the type t.
pub fn apply(o: Op, t: Ty, a: u32, b: u32) -> u32
    ensures { result ≡ Types.apply o t a b }
{
    match o {
        Op::Mul => product(t, a, b),
        Op::Div => quotient_of(t, a, b),
        Op::Mod => remainder_of(t, a, b),
        Op::Add => sum(t, a, b),
        Op::Sub => difference(t, a, b),
        Op::Lt => bit_of(is_less(t, a, b)),
        Op::Gt => bit_of(is_less(t, b, a)),
        Op::Le => bit_of(is_at_most(t, a, b)),
        Op::Ge => bit_of(is_at_most(t, b, a)),
        Op::Eq => bit_of(is_same(t, a, b)),
        Op::Ne => bit_of(!is_same(t, a, b)),
        Op::And => bit_of(is_true(a) & is_true(b)),
        Op::Xor => bit_of(is_true(a) ^ is_true(b)),
        Op::Or => bit_of(is_true(a) | is_true(b)),
    }
}
