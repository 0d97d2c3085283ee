// A table as it is lent.
ghost use Rattle.std.specs.Prelude.{◌≡◌, ◌<◌};
ghost use Rattle.rules.specs.Table as of;
ghost use Rattle.rules.specs.Lists.{table};

use std::marker::Model;

// The lists of a table, each a row after the other. Rows are numbered from 0.
#[derive(Drop)]
pub struct Table<'a> {
    jobs: &'a [u32],
    arcs: &'a [u32],
    sections: &'a [u32],
}

impl<'a> Model for Table<'a> {
    ghost use Rattle.rules.specs.Table.{Table};
    ghost use Rattle.rules.specs.Lists.{table};

    ghost Value = { Table };

    ghost view = { λ t. table t.jobs.now t.arcs.now t.sections.now };
}

// A method for each number of a row: one for all would be told by a constant what the name tells now.
impl<'a> Table<'a> {
    pub fn new(jobs: &'a [u32], arcs: &'a [u32], sections: &'a [u32]) -> Table<'a>
        ensures { result ≡ table jobs.now arcs.now sections.now }
    {
        Table {
            jobs,
            arcs,
            sections,
        }
    }

    // The numbers of the jobs' rows.
    pub fn jobs(&self) -> &'a [u32]
        ensures { result.now ≡ self.now.jobs }
    {
        self.jobs
    }

    // The numbers of the arcs' rows.
    pub fn arcs(&self) -> &'a [u32]
        ensures { result.now ≡ self.now.arcs }
    {
        self.arcs
    }

    // The numbers of the sections' rows.
    pub fn sections(&self) -> &'a [u32]
        ensures { result.now ≡ self.now.sections }
    {
        self.sections
    }

    // How many jobs the table has.
    pub fn job_count(&self) -> usize
        ensures { result ≡ of.job_count self.now }
    {
        let jobs = self.jobs;
        jobs.len() / 3
    }

    // How many arcs the table has.
    pub fn arc_count(&self) -> usize
        ensures { result ≡ of.arc_count self.now }
    {
        let arcs = self.arcs;
        arcs.len() / 2
    }

    // How many sections the table has.
    pub fn section_count(&self) -> usize
        ensures { result ≡ of.section_count self.now }
    {
        let sections = self.sections;
        sections.len() / 4
    }

    // The given release of job j.
    pub fn release(&self, j: usize) -> u32
        requires { j < of.job_count self.now }
        ensures { result ≡ of.release self.now j }
    {
        let jobs = self.jobs;
        jobs[3 * j]
    }

    // The cost of job j.
    pub fn cost(&self, j: usize) -> u32
        requires { j < of.job_count self.now }
        ensures { result ≡ of.cost self.now j }
    {
        let jobs = self.jobs;
        jobs[3 * j + 1]
    }

    // The given deadline of job j.
    pub fn deadline(&self, j: usize) -> u32
        requires { j < of.job_count self.now }
        ensures { result ≡ of.deadline self.now j }
    {
        let jobs = self.jobs;
        jobs[3 * j + 2]
    }

    // The job that comes first on arc a.
    pub fn before(&self, a: usize) -> usize
        requires { a < of.arc_count self.now }
        ensures { result ≡ of.before self.now a }
    {
        let arcs = self.arcs;
        arcs[2 * a] as usize
    }

    // The job that depends on it.
    pub fn after(&self, a: usize) -> usize
        requires { a < of.arc_count self.now }
        ensures { result ≡ of.after self.now a }
    {
        let arcs = self.arcs;
        arcs[2 * a + 1] as usize
    }

    // The job of section s.
    pub fn owner(&self, s: usize) -> usize
        requires { s < of.section_count self.now }
        ensures { result ≡ of.owner self.now s }
    {
        let sections = self.sections;
        sections[4 * s] as usize
    }

    // The resource that section s is on.
    pub fn resource(&self, s: usize) -> usize
        requires { s < of.section_count self.now }
        ensures { result ≡ of.resource self.now s }
    {
        let sections = self.sections;
        sections[4 * s + 1] as usize
    }

    // The first of its job's ticks that section s covers.
    pub fn from(&self, s: usize) -> u32
        requires { s < of.section_count self.now }
        ensures { result ≡ of.from self.now s }
    {
        let sections = self.sections;
        sections[4 * s + 2]
    }

    // The first of its job's ticks after section s.
    pub fn to(&self, s: usize) -> u32
        requires { s < of.section_count self.now }
        ensures { result ≡ of.to self.now s }
    {
        let sections = self.sections;
        sections[4 * s + 3]
    }
}
