// The public functions. None has a `requires`; what is lent changes only where the answer is no refusal.
#![tactic(auto)]

mod arrays;
pub mod states;
pub mod tables;

ghost use Rattle.std.specs.Prelude.{◌≡◌};
ghost use Rattle.paper.specs.Judge.{verdict};
ghost use Rattle.judge.specs.Judged.{Roomy};
ghost use Rattle.kaldvimur.specs.Arrays.{In};
ghost use Rattle.kaldvimur.specs.Outcomes.{PrintDid};
ghost use Rattle.kaldvimur.specs.Prints.{Lies, Prints, Counts};

use arrays::{NOTHING, Program, accepted, in_arrays};
pub use lent::Outcome;
use lent::refused;
use paper::{Accepted, Verdict, Why};
use tree::node::node_at;

// The print of the judged program, from the first byte of `out` on: the number of its bytes.
fn printed(text: &[u8], program: Program, out: &mut [u8]) -> usize
    requires { In program Lies }
    ensures { In program.entry (λ p table q j. Prints text.now p table q j out.old out.new result) }
{
    let judged = program.judged;
    let pool = program.pool;
    let table = &program.table[..4 * judged.variables];
    let name = tree::word(pool, judged.root, 3) as usize;
    print::print(text, pool, table, program.plain, name, judged.list, out)
}

// How many bytes it has.
fn counted(text: &[u8], program: Program) -> usize
    requires { In program Lies }
    ensures { In program.entry (λ p table q j. Counts text.now p table q j result) }
{
    printed(text, program, &mut [])
}

// The four numbers of a text, or why it is refused and where; it is judged in lent buffers.
fn accept_in(text: &[u8], pool: &mut [u16], table: &mut [u16], plain: &mut [u16]) -> Verdict
    requires { Roomy text.now pool.old table.old plain.old }
    ensures { result ≡ verdict text.now }
{
    let program = accepted(text, pool, table, plain)?;
    let judged = program.judged;
    let figure = plain::figure_of(node_at(program.plain, judged.list));
    let length = counted(text, program);
    Ok(Accepted {
        cells: judged.cells,
        weight: judged.weight,
        figure,
        length,
    })
}

// The four numbers of a text, or why it is refused and where.
pub fn accept(text: &[u8]) -> Verdict
    ensures { result ≡ verdict text.now }
{
    in_arrays(
        text,
        &mut NOTHING,
        &mut NOTHING,
        |pool, table, plain, _, _| accept_in(text, pool, table, plain),
    )
}

// ST0 as text into `out`, from a text that is judged in lent buffers.
fn print_in(
    text: &[u8],
    pool: &mut [u16],
    table: &mut [u16],
    plain: &mut [u16],
    out: &mut [u8],
) -> Outcome
    requires { Roomy text.now pool.old table.old plain.old }
    ensures { PrintDid text.now out.old out.new result }
{
    let program = accepted(text, pool, table, plain)?;
    if out.len() < counted(text, program) {
        return Err(refused(Why::NoRoom));
    }
    Ok(printed(text, program, out))
}

// ST0 as text into `out`; the number of its bytes.
pub fn print(text: &[u8], out: &mut [u8]) -> Outcome
    ensures { PrintDid text.now out.old out.new result }
{
    in_arrays(
        text,
        out,
        &mut NOTHING,
        |pool, table, plain, out, _| print_in(text, pool, table, plain, out),
    )
}
