#![tactic(auto)]
// Reads a table's text from standard input and prints the answer of its density test: `density=yes`, or `density=no` and
// the lowest failing place, or a refusal's two lines.
use reading::front;
use rules::Refusal;
use rules::plan::Plan;
use std::io;
use std::io::{Stdout, Write};

// The lowest failing place of the table that a text has, or none for yes. The lists have just the room for the largest table, so that none
// is refused for room.
fn test(text: &[u8]) -> Result<Option<u32>, Refusal> {
    let mut jobs = [0u32; 192];
    let mut arcs = [0u32; 512];
    let mut sections = [0u32; 512];
    let mut times = [0u32; 128];
    let counts = text::read(text, &mut jobs, &mut arcs, &mut sections)?;
    let table = counts.table(&jobs, &arcs, &sections);
    let n = plan::plan(&table, &mut times)?;
    density::density(&Plan::new(table, front(&times, n as usize)))
}

// The test's answer, a refusal in this program's form; a yes has no place to name.
fn print(out: &mut Stdout, answer: Result<Option<u32>, Refusal>) -> io::Result<()> {
    match answer {
        Ok(None) => writeln!(out, "density=yes"),
        Ok(Some(place)) => writeln!(out, "density=no\nplace={place}"),
        Err(refusal) => {
            let number = refusal.number();
            let place = refusal.place();
            writeln!(out, "refusal={number}\nplace={place}")
        }
    }
}

// The buffer holds every right text, and of a wrong one enough for its answer: `zubrelets`, `main`, says why.
fn main(rt: HostRuntime) -> io::Result<()> {
    let mut text = [0u8; 65536];
    let n = reading::fill(&mut rt.stdin(), &mut text)?;
    print(&mut rt.stdout(), test(&text[..n]))
}
