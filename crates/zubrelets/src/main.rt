#![tactic(auto)]
// Reads a table's text from standard input, runs the table to its end with every report answered, and prints what it came to.
use std::io;
use std::io::Write;

// The buffer has 65,536 bytes, and the longest right text has 20,830. A text that does not fit is therefore wrong, and its
// first wrong line starts within the first 20,831 bytes, as the right lines before it begin some right text. That line ends
// within the buffer, or it is longer than any line of the right form and as wrong cut off as whole. So the bytes that were
// read get the answer of the whole text.
fn main(rt: HostRuntime) -> io::Result<()> {
    let mut text = [0u8; 65536];
    let n = reading::fill(&mut rt.stdin(), &mut text)?;
    let mut lines = [0u8; 5729];
    match answer::answer(&text[..n], &mut lines) {
        Ok(end) => rt.stdout().write_all(&lines[..end]),
        Err(_) => rt.stdout().write_all(b"refusal=11\nplace=0\n"),
    }
}
