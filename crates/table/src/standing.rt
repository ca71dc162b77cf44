// The rows that stand for the cells. `env` holds their numbers, one for each cell; only these functions look into it.
ghost use Rattle.std.specs.Prelude.{◌≡◌, get_or, set};
ghost use Rattle.paper.specs.Tables.{row};

use paper::{Cell, Row};

// The row that stands for the cell `c`.
pub fn row_of(env: &[u16], c: Cell) -> Row
    ensures { result ≡ row (get_or env.now c.0 0) }
{
    Row(env.get(c.0 as usize).copied().unwrap_or(0))
}

// The row `r` stands for the cell `c` from here on.
pub fn set_row(env: &mut [u16], c: Cell, r: Row)
    ensures { env.new ≡ set env.old c.0 r.0 }
{
    let i = c.0 as usize;
    if i < env.len() {
        env[i] = r.0;
    }
}
