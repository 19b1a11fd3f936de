// A night's worth of scripts: jobs over shared lists and one table. They run in order, each into the table behind the rows of those before it, and the rest is cleared once.
#![tactic(auto)]

ghost use Rattle.std.specs.Prelude.{◌≡◌, ◌&&◌, ℕ, ◌+◌, ◌*◌, ◌≤◌, min, length, leb};
ghost use Rattle.definition.specs.Night.{entry_of as entry_numbered, outcome};
ghost use Rattle.entry.specs.Promise.{Leaves};
ghost use Rattle.entry.specs.Round.{entry_of};
ghost use Rattle.night.specs.Promise.{job_of, Nightly};
ghost use Rattle.night.specs.Rounds.{Planned, Runs, Done, Ended};

use entry::{Answer, Entry};
use tape::refusal::{Reason, Refusal};

// What a job asks, and its answer.
#[repr(C)]
#[derive(Clone, Copy, PartialEq, Eq)]
pub struct Job {
    pub entry: u32,
    pub separator: u32,
    pub limit: u32,
    pub first: u32,
    pub count: u32,
    pub answer: Answer,
}

impl Job {
    // Its entry. (`is_inside` lets no number pass that has none.)
    #[tactic(auto, using(crate::specs::Steps::asked_is))]
    fn asked(self) -> Entry
        ensures { entry_of result ≡ entry_numbered self.entry self.separator }
    {
        Entry::numbered(self.entry, self.separator).unwrap_or(Entry::Format)
    }

    // Whether its entry is one of the three, and its range lies in lists of n tokens. (Two u32 never wrap in a usize.)
    fn is_inside(self, n: usize) -> bool
        ensures { result ≡ (leb self.entry 2 && leb (self.first + self.count) n) }
    {
        self.entry <= 2 && self.first as usize + self.count as usize <= n
    }
}

// The refusals of the whole call.
#[tactic(auto, unfolding(definition::specs::Night::refusal))]
fn check(jobs: usize, kinds: &[u8], lens: &[u32]) -> Result<(), Reason>
    ensures { Planned jobs kinds.now lens.now result }
{
    if jobs > 400 {
        return Err(Reason::Job);
    }
    if kinds.len() != lens.len() {
        return Err(Reason::Unequal);
    }
    Ok(())
}

// One job over the elements that are free.
fn job_rows(job: Job, kinds: &[u8], lens: &[u32], free: &mut [u32]) -> Result<u32, Refusal>
    requires { length kinds.now ≡ length lens.now }
    ensures { Leaves (outcome kinds.now lens.now (length free.old) (job_of job)) (length free.old) result free.new }
{
    if !job.is_inside(kinds.len()) {
        return Err(Refusal {
            reason: Reason::Job,
            place: 0,
        });
    }
    let first = job.first as usize;
    let end = first + job.count as usize;
    krosstavel::rows(
        job.asked(),
        &kinds[first..end],
        &lens[first..end],
        free,
        job.limit,
    )
}

// One job, its record with the answer: the table behind the rows taken is what is free. (The lists and the table come as C lends them, here and in `night`; each
// job has other parts of them.)
fn run(job: Job, rows: usize, kinds: &[u8], lens: &[u32], table: &mut [u32]) -> Job
    requires { Runs rows kinds.now lens.now table.old }
    ensures { Done job rows kinds.now lens.now table.old result table.new }
{
    let taken = 4 * rows;
    let outcome = job_rows(job, kinds, lens, &mut table[taken..]);
    Job {
        answer: Answer::from(outcome),
        ..job
    }
}

// The answer of the whole call, as C has it (number 0: it is not refused), and zeros behind the rows taken.
fn end(number: u32, rows: usize, table: &mut [u32]) -> Answer
    requires { 4 * rows ≤ length table.old }
    ensures { Ended number rows table.old result table.new }
{
    entry::zero_from(table, 4 * rows);
    Answer {
        number,
        place: 0,
        rows: counted(rows),
    }
}

// A row count as a u32, or the largest.
fn counted(rows: usize) -> u32
    ensures { result ≡ min rows 4294967295 }
{
    u32::try_from(rows).unwrap_or(u32::MAX)
}

// The jobs in order, their answers in their records.
#[tactic(auto, using(crate::specs::Rounds::begins, crate::specs::Rounds::goes_on))]
pub fn night(kinds: &[u8], lens: &[u32], jobs: &mut [Job], table: &mut [u32]) -> Answer
    ensures { Nightly kinds.now lens.now jobs.old (length table.old) result jobs.new table.new }
{
    if let Err(reason) = check(jobs.len(), kinds, lens) {
        return end(u32::from(reason), 0, table);
    }
    let mut rows = 0;
    for job in jobs.iter_mut() {
        *job = run(*job, rows, kinds, lens, table);
        rows += job.answer.rows as usize;
    }
    end(0, rows, table)
}
