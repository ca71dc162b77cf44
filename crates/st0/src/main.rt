// A text from standard input; its ST0 to standard output, or the line `refused N at P`.
#![tactic(auto)]

use paper::Refusal;
use std::io;

fn print_refusal(rt: &impl Print, refusal: Refusal) -> io::Result<()> {
    let number = u8::from(refusal.why);
    let place = refusal.place;
    println!(rt; "refused {number} at {place}")
}

// One byte more than a text may have is read, so that a longer one is known as such.
fn main(rt: HostRuntime) -> io::Result<()> {
    let mut text = [0u8; 8193];
    let mut out = [0u8; 65536];
    let n = pack::read_full(&mut rt.reader(), &mut text);
    match kaldvimur::print(&text[..n], &mut out) {
        Ok(l) => rt.write_all(&out[..l]),
        Err(refusal) => print_refusal(&rt, refusal),
    }
}
