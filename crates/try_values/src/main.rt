// The document's examples of arithmetic, on residues: proved from the contracts, and run.
#![tactic(auto)]

use paper::Ty;

#[tactic(auto, unfolding(paper::specs::Types::encode, paper::specs::Types::decode))]
fn main() {
    // INT 32767 + 1 is -32768.
    check::expect(value::sum(Ty::Int, 32767, 1) == 0x8000);
    // UINT 0 - 1 is 65535.
    check::expect(value::difference(Ty::Uint, 0, 1) == 65535);
    // -7 / 2 is -3, and leaves -1.
    check::expect(value::quotient_of(Ty::Int, 0xFFF9, 2) == 0xFFFD);
    check::expect(value::remainder_of(Ty::Int, 0xFFF9, 2) == 0xFFFF);
    // 7 / -2 is -3, and leaves 1.
    check::expect(value::quotient_of(Ty::Int, 7, 0xFFFE) == 0xFFFD);
    check::expect(value::remainder_of(Ty::Int, 7, 0xFFFE) == 1);
    // INT -32768 / -1 is -32768, and leaves 0.
    check::expect(value::quotient_of(Ty::Int, 0x8000, 0xFFFF) == 0x8000);
    check::expect(value::remainder_of(Ty::Int, 0x8000, 0xFFFF) == 0);
    // DINT_TO_INT of 40000 is -25536.
    check::expect(value::converted(Ty::Dint, Ty::Int, 40000) == 0x9C40);
    check::expect(value::residue_of(Ty::Int, -25536) == 0x9C40);
}
