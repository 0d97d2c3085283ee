#![tactic(auto)]
// The page that an answer is written to, and its lines. What is put goes behind what is written so far.
ghost use Rattle.std.specs.Prelude.{◌≡◌, [], ◌∷◌, ◌++◌, ◌+◌, ◌<◌, ◌≤◌, length};
ghost use Rattle.std.proofs.Math.IntN.{sub_ℕ};
ghost use Rattle.rules.specs.Text.{bytes_of, digits, line, lf};
ghost use Rattle.rules.specs.Table.{job_count};
ghost use Rattle.rules.specs.Refusals.{fault_of};
ghost use Rattle.rules.specs.Output.{signed, mark_word, job_lines, jobs_lines, report, refusal_lines};
ghost use Rattle.page.specs.Page.{Adds, Reported};

use lines::writer;
use rules::Refusal;
use rules::plan::Plan;
use rules::state::{STALE, State};
use std::marker::Model;

// The bytes that are written so far. There is room for 64 jobs, and ten digits for each number.
#[derive(Drop)]
pub struct Page {
    bytes: [u8; 5729],
    len: usize,
}

impl Model for Page {
    ghost use Rattle.std.specs.Prelude.{ℕ, List, take, ◌≤◌};

    ghost Value = { List ℕ };

    ghost view = { λ p. take p.len p.bytes };

    ghost invariant = { λ p. p.len ≤ 5729 };
}

impl Page {
    // An empty page.
    pub fn new() -> Page
        ensures { result ≡ [] }
    {
        Page {
            bytes: [0; 5729],
            len: 0,
        }
    }

    // What is written.
    pub fn as_slice(&self) -> &[u8]
        ensures value { result.now ≡ self.now }
        ensures fits { length result.now ≤ 5729 }
    {
        &self.bytes[..self.len]
    }

    // Bytes.
    fn put(&mut self, bytes: &[u8])
        requires { length self.old + length bytes.now ≤ 5729 }
        ensures { Adds self.old bytes.now self.new }
    {
        let at = self.len;
        self.len = writer::put_bytes(&mut self.bytes, at, bytes);
    }

    // The digits of n, at most ten.
    fn put_number(&mut self, n: u32)
        requires { length self.old + 10 ≤ 5729 }
        ensures written { Adds self.old (digits n) self.new }
        ensures short { length self.new ≤ length self.old + 10 }
    {
        let at = self.len;
        self.len = writer::put_number(&mut self.bytes, at, n);
    }

    // The line of a key and a value: a crate below, `lines` writes one too, but anywhere into a caller's bytes.
    fn put_line(&mut self, key: &[u8], value: u32)
        requires { length self.old + length key.now + 11 ≤ 5729 }
        ensures written { Adds self.old (line key.now value) self.new }
        ensures short { length self.new ≤ length self.old + length key.now + 11 }
    {
        self.put(key);
        self.put_number(value);
        self.put(b"\n");
    }

    // How late a job ended, with a minus sign when early.
    fn put_late(&mut self, finish: u32, deadline: u32)
        requires { length self.old + 11 ≤ 5729 }
        ensures written { Adds self.old (signed (sub_ℕ finish deadline)) self.new }
        ensures short { length self.new ≤ length self.old + 11 }
    {
        if deadline <= finish {
            self.put_number(finish - deadline);
        } else {
            self.put(b"-");
            self.put_number(deadline - finish);
        }
    }

    // The line of a job's mark, in words.
    fn put_mark(&mut self, mark: u32)
        requires { length self.old + 11 ≤ 5729 }
        ensures written { Adds self.old (bytes_of "mark=" ++ (mark_word mark ++ (lf ∷ []))) self.new }
        ensures short { length self.new ≤ length self.old + 11 }
    {
        let stale = mark == STALE;
        if stale {
            self.put(b"mark=stale\n");
        } else {
            self.put(b"mark=fresh\n");
        }
    }

    // The five lines of a job.
    fn put_job(&mut self, plan: &Plan, state: &State, j: usize)
        requires room { length self.old + 89 ≤ 5729 }
        requires reported { Reported plan.now state.now }
        requires j_in_bounds { j < job_count plan.now.table }
        ensures written { Adds self.old (job_lines plan.now state.now j) self.new }
        ensures short { length self.new ≤ length self.old + 89 }
    {
        let finish = state.finish()[j];
        let mark = state.marks()[j];
        let modified = plan.deadline(j).0;
        let given = plan.table().deadline(j);
        self.put_line(b"release=", plan.release(j).0);
        self.put_line(b"deadline=", modified);
        self.put_line(b"finish=", finish);
        self.put(b"lateness=");
        self.put_late(finish, given);
        self.put(b"\n");
        self.put_mark(mark);
    }

    // The lines of all jobs, by number.
    fn put_jobs(&mut self, plan: &Plan, state: &State)
        requires room { length self.old + 5696 ≤ 5729 }
        requires reported { Reported plan.now state.now }
        ensures written { Adds self.old (jobs_lines plan.now state.now (job_count plan.now.table)) self.new }
        ensures short { length self.new ≤ length self.old + 5696 }
    {
        let n = plan.table().job_count();
        for j in 0..n {
            self.put_job(plan, state, j);
        }
    }

    // What is printed of a run that has ended, on an empty page: the number of jobs, the lines of each, and the tick of the end state.
    pub fn put_report(&mut self, plan: &Plan, state: &State)
        requires empty { self.old ≡ [] }
        requires reported { Reported plan.now state.now }
        ensures { self.new ≡ report plan.now state.now }
    {
        let count = plan.table().job_count() as u32;
        let tick = state.tick();
        self.put_line(b"jobs=", count);
        self.put_jobs(plan, state);
        self.put_line(b"ticks=", tick);
    }

    // A refusal's two lines, on an empty page.
    pub fn put_refusal(&mut self, refusal: Refusal)
        requires { self.old ≡ [] }
        ensures { self.new ≡ refusal_lines (fault_of refusal) }
    {
        let number = refusal.number();
        let place = refusal.place();
        self.put_line(b"refusal=", number);
        self.put_line(b"place=", place);
    }

    // A page with a report on it. It is moved to where it is wanted, so whoever is short of stack lends one to `put_report`.
    pub fn report(plan: &Plan, state: &State) -> Page
        requires { Reported plan.now state.now }
        ensures { result ≡ report plan.now state.now }
    {
        let mut page = Page::new();
        page.put_report(plan, state);
        page
    }

    // A page with a refusal on it.
    pub fn refusal(refusal: Refusal) -> Page
        ensures { result ≡ refusal_lines (fault_of refusal) }
    {
        let mut page = Page::new();
        page.put_refusal(refusal);
        page
    }
}
