// Words, numbers and times to standard output.
use rules::Refusal;
use std::io;
use std::io::{Stdout, Write};

pub fn say(out: &mut Stdout, words: &[u8]) -> io::Result<()> {
    out.write_all(words)
}

// A refusal's number and place, in this program's form.
pub fn refused(out: &mut Stdout, refusal: Refusal) -> io::Result<()> {
    let number = refusal.number();
    let place = refusal.place();
    write!(out, ": refusal {number} place {place}")
}

// How many of the numbers are still the 7 that the list was lent with.
pub fn kept(out: &mut Stdout, rest: &[u32]) -> io::Result<()> {
    let same = rest.iter().filter(|x| **x == 7).count();
    let all = rest.len();
    write!(out, " kept {same} of {all}")
}

// The pairs of a list of times.
pub fn pairs(out: &mut Stdout, times: &[u32]) -> io::Result<()> {
    for pair in times.chunks_exact(2) {
        let release = pair[0];
        let deadline = pair[1];
        write!(out, " ({release},{deadline})")?;
    }
    Ok(())
}
