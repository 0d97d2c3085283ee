#![tactic(auto)]
// Prints what `plan`, `plan_in_bounds` and `density` answer for the cases on standard input: numbers in a fixed order,
// parted by whatever is no digit. For each of the three in turn there is a count of cases, and each case: its own number,
// the lists of jobs, arcs and sections, and for `plan` the length of the lent list, for the other two the list of times. A
// list is how many numbers it has, and these. What is expected of the stored cases stands in the file stdout.
mod input;
mod output;

ghost use Rattle.std.specs.Prelude.{◌≤◌, length};

use input::Numbers;
use rules::Refusal;
use rules::plan::Plan;
use rules::table::Table;
use std::io;
use std::io::{Stdout, Write};

// Which entry a case is for: it tells both how the times are read and what is asked, so a closure would not do alone.
#[derive(Clone, Copy)]
enum Asked {
    Plan,
    Bounds,
    Density,
}

// Whether the plan is found within its bounds.
fn bounds(out: &mut Stdout, plan: &Plan) -> io::Result<()> {
    if plan::plan_in_bounds(plan) {
        output::say(out, b": within\n")
    } else {
        output::say(out, b": outside\n")
    }
}

// What `plan` answers, what it left of the lent list, and whether the times that it gives are within their bounds.
fn planned(out: &mut Stdout, table: Table, times: &mut [u32]) -> io::Result<()> {
    match plan::plan(&table, times) {
        Err(refusal) => {
            output::refused(out, refusal)?;
            output::kept(out, times)?;
            output::say(out, b"\n")
        }
        Ok(n) => {
            let front = times.len().min(n as usize);
            output::say(out, b": times")?;
            output::pairs(out, &times[..front])?;
            output::kept(out, &times[front..])?;
            bounds(out, &Plan::new(table, &times[..front]))
        }
    }
}

// What the density test answers.
fn tested(out: &mut Stdout, answer: Result<Option<u32>, Refusal>) -> io::Result<()> {
    match answer {
        Ok(None) => output::say(out, b": yes")?,
        Ok(Some(place)) => write!(out, ": no, place {place}")?,
        Err(refusal) => output::refused(out, refusal)?,
    }
    output::say(out, b"\n")
}

// The answer to a case.
fn answer(out: &mut Stdout, asked: Asked, table: Table, times: &mut [u32]) -> io::Result<()> {
    match asked {
        Asked::Plan => planned(out, table, times),
        Asked::Bounds => bounds(out, &Plan::new(table, times)),
        Asked::Density => tested(out, density::density(&Plan::new(table, times))),
    }
}

// The times of a case: for `plan` how many of the places are lent, else a list.
fn times_of(numbers: &mut Numbers, asked: Asked, list: &mut [u32]) -> usize
    ensures { result ≤ length list.new }
{
    match asked {
        Asked::Plan => numbers.at_most(list.len()),
        Asked::Bounds | Asked::Density => numbers.list(list),
    }
}

// The next case: its number and its answer.
fn case(out: &mut Stdout, numbers: &mut Numbers, asked: Asked) -> io::Result<()> {
    let mut jobs = input::places();
    let mut arcs = input::places();
    let mut sections = input::places();
    let mut times = input::places();
    let label = numbers.next();
    let j = numbers.list(&mut jobs);
    let a = numbers.list(&mut arcs);
    let s = numbers.list(&mut sections);
    let t = times_of(numbers, asked, &mut times);
    write!(out, "{label}")?;
    let table = Table::new(&jobs[..j], &arcs[..a], &sections[..s]);
    answer(out, asked, table, &mut times[..t])
}

// The cases for one entry, from their count on.
fn cases(out: &mut Stdout, numbers: &mut Numbers, asked: Asked) -> io::Result<()> {
    for _ in 0..numbers.next() {
        case(out, numbers, asked)?;
    }
    Ok(())
}

fn main(rt: HostRuntime) -> io::Result<()> {
    let mut text = [0u8; 65536];
    let n = reading::fill(&mut rt.stdin(), &mut text)?;
    let mut out = rt.stdout();
    let mut numbers = Numbers::new(&text[..n]);
    cases(&mut out, &mut numbers, Asked::Plan)?;
    cases(&mut out, &mut numbers, Asked::Bounds)?;
    cases(&mut out, &mut numbers, Asked::Density)
}
