#![tactic(auto)]
// Reads the text of each file that its arguments name and prints, a line each, what `read` says; what was read is written
// again, and the bytes are compared. Then the writer's refusals.
use reading::front;
use rules::Refusal;
use rules::table::Table;
use std::env::FillError;
use std::io::{Stdout, Write};
use std::rt::{Env, Files};
use std::{fs, io};
use text::Counts;

// A refusal, in this program's form: each of the three that print one has its own, so none is a `Display`.
fn print_refusal(out: &mut Stdout, r: Refusal) -> io::Result<()> {
    let number = r.number();
    let place = r.place();
    write!(out, " refusal={number} place={place}")
}

// Writes a table that was read, into as many bytes as the longest text has, and compares.
fn write_again(out: &mut Stdout, text: &[u8], table: &Table) -> io::Result<()> {
    let mut bytes = [0u8; 20830];
    match text::write(table, &mut bytes) {
        Err(r) => print_refusal(out, r),
        Ok(n) => {
            write!(out, " bytes={n}")?;
            if text == front(&bytes, n) {
                write!(out, " same")
            } else {
                write!(out, " other")
            }
        }
    }
}

// Reads a text into lists that have just the room for the largest table.
fn read_text(out: &mut Stdout, text: &[u8]) -> io::Result<()> {
    let mut jobs = [0u32; 192];
    let mut arcs = [0u32; 512];
    let mut sections = [0u32; 512];
    match text::read(text, &mut jobs, &mut arcs, &mut sections) {
        Err(r) => print_refusal(out, r),
        Ok(counts) => {
            let j = counts.jobs;
            let a = counts.arcs;
            let s = counts.sections;
            write!(out, " jobs={j} arcs={a} sections={s}")?;
            write_again(out, text, &counts.table(&jobs, &arcs, &sections))?;
            read_short(out, text)
        }
    }
}

// Reads a text into a list of jobs, of arcs or of sections that has one place too few for a single row.
fn read_short(out: &mut Stdout, text: &[u8]) -> io::Result<()> {
    let mut jobs = [0u32; 192];
    let mut arcs = [0u32; 512];
    let mut sections = [0u32; 512];
    let mut two = [0u32; 2];
    let mut one = [0u32; 1];
    let mut three = [0u32; 3];
    write!(out, " short:")?;
    print_short(out, text::read(text, &mut two, &mut arcs, &mut sections))?;
    print_short(out, text::read(text, &mut jobs, &mut one, &mut sections))?;
    print_short(out, text::read(text, &mut jobs, &mut arcs, &mut three))
}

fn print_short(out: &mut Stdout, said: Result<Counts, Refusal>) -> io::Result<()> {
    match said {
        Err(r) => print_refusal(out, r),
        Ok(_) => write!(out, " read"),
    }
}

// One file: its name, and what is read. A file that can't be opened is named as an error, and the next one follows.
fn read_file<R: Files + Eprint>(rt: &R, out: &mut Stdout, name: &[u8]) -> io::Result<()> {
    let Ok(path) = str::from_utf8(name) else {
        return eprintln!(rt; "a name that is not UTF-8: no file of it is opened");
    };
    match fs::open(rt, path) {
        Err(error) => eprintln!(rt; "{path}: {error}"),
        Ok(mut file) => {
            let mut buffer = [0u8; 20831];
            let n = reading::fill(&mut file, &mut buffer)?;
            out.write_all(name)?;
            read_text(out, &buffer[..n])?;
            writeln!(out)
        }
    }
}

// Every file that an argument names.
fn read_files<R: Env + Files + Eprint>(rt: &R, out: &mut Stdout) -> io::Result<()> {
    for i in 1..usize::MAX {
        if !read_argument(rt, out, i)? {
            break;
        }
    }
    Ok(())
}

// The file that argument i names, and whether there is such an argument. One that is too long names no file.
fn read_argument<R: Env + Files + Eprint>(rt: &R, out: &mut Stdout, i: usize) -> io::Result<bool> {
    let mut name = [0u8; 4096];
    let n = match rt.arg(i, &mut name) {
        Ok(n) => n,
        Err(FillError::TooLong) => 0,
        Err(FillError::NotPresent) => return Ok(false),
    };
    read_file(rt, out, &name[..n])?;
    Ok(true)
}

// Writes lists of zeros, so many of each, into the bytes.
fn write_zeros(out: &mut Stdout, j: usize, a: usize, s: usize, bytes: &mut [u8]) -> io::Result<()> {
    let jobs = [0u32; 195];
    let arcs = [0u32; 514];
    let sections = [0u32; 516];
    let room = bytes.len();
    write!(out, "write {j} {a} {s} into {room}")?;
    let table = Table::new(front(&jobs, j), front(&arcs, a), front(&sections, s));
    match text::write(&table, bytes) {
        Err(r) => print_refusal(out, r)?,
        Ok(n) => write!(out, " bytes={n}")?,
    }
    writeln!(out)
}

// What the writer refuses, and the least room for one job.
fn write_lists(out: &mut Stdout) -> io::Result<()> {
    let mut less = [0u8; 52];
    let mut least = [0u8; 53];
    write_zeros(out, 0, 0, 0, &mut less)?;
    write_zeros(out, 2, 0, 0, &mut less)?;
    write_zeros(out, 4, 0, 0, &mut less)?;
    write_zeros(out, 195, 1, 2, &mut less)?;
    write_zeros(out, 192, 1, 0, &mut less)?;
    write_zeros(out, 3, 514, 2, &mut less)?;
    write_zeros(out, 3, 0, 2, &mut less)?;
    write_zeros(out, 3, 0, 516, &mut less)?;
    write_zeros(out, 3, 0, 0, &mut less)?;
    write_zeros(out, 3, 0, 0, &mut least)
}

fn main(rt: HostRuntime) -> io::Result<()> {
    let mut out = rt.stdout();
    read_files(&rt, &mut out)?;
    write_lists(&mut out)
}
