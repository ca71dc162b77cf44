// The names of the cells, from the print of ST0: its sections stand in the order of the cells, a declaration to a line.
ghost use Rattle.std.specs.Prelude.{◌≤◌, length};

use crate::lines::word_of;
use numbers::whole_in;
use std::io;

// Whether a section ends by a line.
fn ends(line: &[u8]) -> bool {
    line.starts_with(b"END_VAR\n")
}

// How many inputs a print declares.
pub fn inputs_in(print: &[u8]) -> usize
    ensures { result ≤ length print.now }
{
    let mut count = 0;
    let mut inside = false;
    for line in print.split_inclusive(|b| *b == b'\n') {
        if inside && !ends(line) {
            count += 1;
        }
        inside = line.starts_with(b"VAR_INPUT\n") || inside && !ends(line);
    }
    count
}

// A name, in a column.
fn print_name(rt: &impl Print, name: &[u8]) -> io::Result<()> {
    print!(rt; "\t")?;
    rt.write_all(name)
}

// The bounds that `s` begins with, which have no minus.
fn bounds_in(s: &[u8]) -> Option<(u64, u64)> {
    let low = whole_in(s)?;
    let high = whole_in(s[low.count..].strip_prefix(b"..")?)?;
    Some((
        u64::try_from(low.value).ok()?,
        u64::try_from(high.value).ok()?,
    ))
}

// The elements of an array whose bounds `s` begins with.
fn print_array(rt: &impl Print, name: &[u8], s: &[u8]) -> io::Result<()> {
    let Some((low, high)) = bounds_in(s) else {
        return Ok(());
    };
    for i in low..=high {
        print_name(rt, name)?;
        print!(rt; "[{i}]")?;
    }
    Ok(())
}

// What a declaration declares, each cell in a column.
fn print_cells(rt: &impl Print, line: &[u8]) -> io::Result<()> {
    let (name, rest) = line.split_at(word_of(line));
    match rest.strip_prefix(b" : ARRAY[") {
        Some(bounds) => print_array(rt, name, bounds),
        None => print_name(rt, name),
    }
}

// The names of the cells that are no inputs.
pub fn print_names(rt: &impl Print, print: &[u8]) -> io::Result<()> {
    let mut inside = false;
    for line in print.split_inclusive(|b| *b == b'\n') {
        if inside && !ends(line) {
            print_cells(rt, line)?;
        }
        let opens = line.starts_with(b"VAR_OUTPUT\n") || line.starts_with(b"VAR\n");
        inside = opens || inside && !ends(line);
    }
    Ok(())
}
