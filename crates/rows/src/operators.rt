// What types and operators allow: residues, the sorts of operators, and the types that they take and give.
ghost use Rattle.std.specs.Prelude.{◌≡◌, ◌^◌, ltb};
ghost use Rattle.paper.specs.Types as Types;
ghost use Rattle.paper.specs.Types.{width, sort_of};
ghost use Rattle.rows.specs.Sorts.{meant};

use paper::{Op, Ty};

// Whether n is below 2 to the width.
pub fn is_residue(t: Ty, n: u32) -> bool
    ensures { result ≡ ltb n (2 ^ width t) }
{
    match t {
        Ty::Bool => n < 2,
        Ty::Int | Ty::Uint => n < 0x1_0000,
        Ty::Dint | Ty::Udint => true,
    }
}

// The four sorts of operators.
#[derive(Clone, Copy, PartialEq, Eq)]
pub enum Sort {
    Arithmetic,
    Order,
    Equality,
    Logic,
}

// The sort of an operator.
fn sort_of(o: Op) -> Sort
    ensures { meant result ≡ sort_of o }
{
    match o {
        Op::Mul | Op::Div | Op::Mod | Op::Add | Op::Sub => Sort::Arithmetic,
        Op::Lt | Op::Gt | Op::Le | Op::Ge => Sort::Order,
        Op::Eq | Op::Ne => Sort::Equality,
        Op::And | Op::Xor | Op::Or => Sort::Logic,
    }
}

// Whether the operator takes operands of the type t.
pub fn takes(o: Op, t: Ty) -> bool
    ensures { result ≡ Types.takes (sort_of o) t }
{
    match sort_of(o) {
        Sort::Arithmetic | Sort::Order => t != Ty::Bool,
        Sort::Equality => true,
        Sort::Logic => t == Ty::Bool,
    }
}

// The type of the result for operands of the type t.
pub fn gives(o: Op, t: Ty) -> Ty
    ensures { result ≡ Types.gives (sort_of o) t }
{
    match sort_of(o) {
        Sort::Arithmetic => t,
        Sort::Order | Sort::Equality | Sort::Logic => Ty::Bool,
    }
}

// Whether the operator has a divisor.
pub fn divides(o: Op) -> bool
    ensures { result ≡ Types.divides o }
{
    matches!(o, Op::Div | Op::Mod)
}
