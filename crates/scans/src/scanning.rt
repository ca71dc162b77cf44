// Scans by the text and by the table, side by side.
use crate::heading::{inputs_in, print_names};
use crate::lines::readings_in;
use kaldvimur::tables::Sizes;
use kaldvimur::{Outcome, states, tables};
use paper::Refusal;
use std::io;

// A program's text and its table, with the numbers of its inputs, rows and cells.
#[derive(Clone, Copy)]
struct Program<'a> {
    text: &'a [u8],
    rows: &'a [u32],
    cells: &'a [u32],
    inputs: usize,
    sizes: Sizes,
}

// A state as the scans by the text leave it, and as those by the table do.
#[derive(Clone, Copy)]
struct States {
    by_text: [i64; 64],
    by_table: [i64; 64],
}

fn print_refusal(rt: &impl Print, refusal: Refusal) -> io::Result<()> {
    let number = u8::from(refusal.why);
    let place = refusal.place;
    print!(rt; "refused {number} at {place}")
}

// The cells that are no inputs, each in a column.
fn print_state(rt: &impl Print, p: Program, state: &[i64]) -> io::Result<()> {
    for z in state.iter().take(p.sizes.cells).skip(p.inputs) {
        print!(rt; "\t{z}")?;
    }
    Ok(())
}

// What a scan left, or its refusal.
fn print_side(rt: &impl Print, p: Program, o: Outcome, state: &[i64]) -> io::Result<()> {
    match o {
        Ok(_) => print_state(rt, p, state),
        Err(refusal) => {
            print!(rt; "\t")?;
            print_refusal(rt, refusal)
        }
    }
}

// A scan by the text, the same by the table, and the steps.
fn print_scan(rt: &impl Print, p: Program, values: &[i64], s: &mut States) -> io::Result<()> {
    let by_text = states::scan(p.text, &mut s.by_text, values);
    print_side(rt, p, by_text, &s.by_text)?;
    print!(rt; "\t|")?;
    let Sizes { rows, cells } = p.sizes;
    let by_table = tables::scan_table(p.rows, p.cells, rows, cells, &mut s.by_table, values);
    print_side(rt, p, by_table, &s.by_table)?;
    let steps = by_text.unwrap_or(0);
    println!(rt; "\t| {steps}")
}

// The scan of a line, with its number.
fn print_line(
    rt: &impl Print,
    p: Program,
    number: u64,
    line: &[u8],
    s: &mut States,
) -> io::Result<()> {
    let mut values = [0i64; 64];
    print!(rt; "{number}")?;
    if !readings_in(line, p.inputs, &mut values) {
        return println!(rt; "\tno readings");
    }
    print_scan(rt, p, &values, s)
}

// Every line of the readings, from the declared values on.
fn print_lines(rt: &impl Print, p: Program, readings: &[u8]) -> io::Result<()> {
    let mut state = [0i64; 64];
    if let Err(refusal) = states::start(p.text, &mut state) {
        print_refusal(rt, refusal)?;
        return println!(rt; "");
    }
    let mut s = States {
        by_text: state,
        by_table: state,
    };
    for (line, number) in readings.split_inclusive(|b| *b == b'\n').zip(1u64..) {
        print_line(rt, p, number, line, &mut s)?;
    }
    Ok(())
}

// The columns' names, with the figure.
fn print_columns(rt: &impl Print, print: &[u8], figure: usize) -> io::Result<()> {
    print!(rt; "scan")?;
    print_names(rt, print)?;
    print!(rt; "\t| table")?;
    print_names(rt, print)?;
    println!(rt; "\t| steps of {figure}")
}

// The heading; the number of inputs.
fn print_heading(rt: &impl Print, text: &[u8], figure: usize) -> io::Result<usize> {
    let mut out = [0u8; 65536];
    let Ok(n) = kaldvimur::print(text, &mut out) else {
        return Ok(0);
    };
    let print = &out[..n];
    print_columns(rt, print, figure)?;
    Ok(inputs_in(print))
}

// An accepted text's scans.
fn show_accepted(rt: &impl Print, text: &[u8], figure: usize, readings: &[u8]) -> io::Result<()> {
    let mut rows = [0u32; 12256];
    let mut cells = [0u32; 64];
    match tables::table(text, &mut rows, &mut cells) {
        Ok(sizes) => {
            let inputs = print_heading(rt, text, figure)?;
            let p = Program {
                text,
                rows: &rows,
                cells: &cells,
                inputs,
                sizes,
            };
            print_lines(rt, p, readings)
        }
        Err(refusal) => {
            print_refusal(rt, refusal)?;
            println!(rt; "")
        }
    }
}

// A text's refusal, or its scans.
pub fn show(rt: &impl Print, text: &[u8], readings: &[u8]) -> io::Result<()> {
    match kaldvimur::accept(text) {
        Ok(accepted) => show_accepted(rt, text, accepted.figure, readings),
        Err(refusal) => {
            print_refusal(rt, refusal)?;
            println!(rt; "")
        }
    }
}
