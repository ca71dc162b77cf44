// `scans PROGRAM READINGS`: a program's scans for people, a line for each line of readings: the cells that are no inputs by the text,
// the same by the table, and the steps.
#![tactic(auto)]

mod heading;
mod lines;
mod scanning;

use std::rt::Files;
use std::{env, fs, io};

// What an error's text says before the number that the system gives it.
fn reason_in(text: &str) -> &str {
    match text.split_once(" (os error ") {
        Some((reason, _)) => reason,
        None => text,
    }
}

// Tells on standard error why a file is not open.
fn tell(rt: &(impl Eprint + AllocGlobal), name: &str, e: &io::Error) -> io::Result<()> {
    let text = format!(in rt.alloc(); "{e}")?;
    let reason = reason_in(text.as_str());
    eprintln!(rt; "{name}: {reason}")
}

// The file with this name, opened; none where it can't be, which is told.
fn opened<R: Files + Eprint + AllocGlobal>(rt: &R, name: &str) -> io::Result<Option<R::File>> {
    match fs::open(rt, name) {
        Ok(file) => Ok(Some(file)),
        Err(e) => {
            tell(rt, name, &e)?;
            Ok(None)
        }
    }
}

// One byte more than a text may have is read, so that a longer one is known as such. Readings that fill their buffer may be cut
// within a number: none is used.
fn main(rt: HostRuntime) -> io::Result<()> {
    let mut args = env::args(&rt)?;
    args.next();
    let (Some(program), Some(list), None) = (args.next(), args.next(), args.next()) else {
        return println!(rt; "scans PROGRAM READINGS");
    };
    let program = opened(&rt, program.as_str())?;
    let list = opened(&rt, list.as_str())?;
    let (Some(mut program), Some(mut list)) = (program, list) else {
        return Ok(());
    };
    let mut text = [0u8; 8193];
    let mut readings = [0u8; 65536];
    let n = pack::read_full(&mut program, &mut text);
    let m = pack::read_full(&mut list, &mut readings);
    drop(program);
    drop(list);
    if m == 65536 {
        return println!(rt; "too many readings");
    }
    scanning::show(&rt, &text[..n], &readings[..m])
}
