// The arrays that a text is judged in, and the program that stands in them.
ghost use Rattle.paper.specs.Judge as Judge;
ghost use Rattle.paper.specs.Refusals.{Gives};
ghost use Rattle.judge.specs.Judged.{Roomy};
ghost use Rattle.kaldvimur.specs.Arrays.{Works, Worked, Holds};

use judge::{Judged, judge};
use paper::Refusal;

// An accepted program: the arrays that its text was judged in, and where it stands there.
#[derive(Clone, Copy)]
pub struct Program<'a> {
    pub pool: &'a [u16],
    pub table: &'a [u16],
    pub plain: &'a [u16],
    pub judged: Judged,
}

// The bytes of a short text and of the longest; a short one is judged in shorter arrays, since it takes time to clear one.
const SHORT: usize = 1024;

const LONGEST: usize = 8192;

// The words that every ST0 has room in.
const PLAIN: usize = 48016;

// Nothing is lent.
pub const NOTHING: [(); 0] = [];

// What `work` makes of a pool, a table and a pool for ST0 that have room for a text, and of two lent buffers.
pub fn in_arrays<A, B, R, F>(text: &[u8], first: &mut [A], second: &mut [B], work: F) -> R
where
    F: FnOnce(&mut [u16], &mut [u16], &mut [u16], &mut [A], &mut [B]) -> R,
    requires { Works (F.pre work) text.now }
    ensures { Worked (F.post work) text.now first.old second.old result first.new second.new }
{
    let mut plain = [0u16; PLAIN];
    if text.len() <= SHORT {
        let mut pool = [0u16; 4 * SHORT + 4];
        let mut table = [0u16; 4 * SHORT];
        return work(&mut pool, &mut table, &mut plain, first, second);
    }
    let mut pool = [0u16; 4 * LONGEST + 4];
    let mut table = [0u16; 4 * LONGEST];
    work(&mut pool, &mut table, &mut plain, first, second)
}

// The accepted program of a text that is judged in lent arrays.
pub fn accepted<'a>(
    text: &[u8],
    pool: &'a mut [u16],
    table: &'a mut [u16],
    plain: &'a mut [u16],
) -> Result<Program<'a>, Refusal>
    requires { Roomy text.now pool.old table.old plain.old }
    ensures { Gives (Holds text.now) (Judge.judge text.now) result }
{
    let judged = judge(text, pool, table, plain)?;
    Ok(Program {
        pool,
        table,
        plain,
        judged,
    })
}
