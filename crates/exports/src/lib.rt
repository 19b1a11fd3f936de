// Every call for C, as a library. (exports_c has the same under their symbols: a crate is a library or a static one, not both.) Each hands its arguments on, and its answer is three numbers.
#![tactic(auto)]

ghost use Rattle.std.specs.Prelude.{length};
ghost use Rattle.definition.specs.Parse.{root as root_entry, exprs as exprs_entry, format as format_entry};
ghost use Rattle.entry.specs.Promise.{Answered};
ghost use Rattle.night.specs.Promise.{Nightly};

use entry::Answer;
use night::{Job, night};

#[unsafe(no_mangle)]
pub extern "C" fn krosstavel_root(
    kinds: &[u8],
    lens: &[u32],
    table: &mut [u32],
    limit: u32,
) -> Answer
    ensures { Answered root_entry kinds.now lens.now (length table.old) limit result.number result.place result.rows table.new }
{
    Answer::from(krosstavel::root(kinds, lens, table, limit))
}

#[unsafe(no_mangle)]
pub extern "C" fn krosstavel_exprs(
    kinds: &[u8],
    lens: &[u32],
    table: &mut [u32],
    separator: u32,
    limit: u32,
) -> Answer
    ensures { Answered (exprs_entry separator) kinds.now lens.now (length table.old) limit result.number result.place result.rows table.new }
{
    Answer::from(krosstavel::exprs(kinds, lens, table, separator, limit))
}

#[unsafe(no_mangle)]
pub extern "C" fn krosstavel_format(
    kinds: &[u8],
    lens: &[u32],
    table: &mut [u32],
    limit: u32,
) -> Answer
    ensures { Answered format_entry kinds.now lens.now (length table.old) limit result.number result.place result.rows table.new }
{
    Answer::from(krosstavel::format(kinds, lens, table, limit))
}

#[unsafe(no_mangle)]
pub extern "C" fn krosstavel_batch(
    kinds: &[u8],
    lens: &[u32],
    jobs: &mut [Job],
    table: &mut [u32],
) -> Answer
    ensures { Nightly kinds.now lens.now jobs.old (length table.old) result jobs.new table.new }
{
    night(kinds, lens, jobs, table)
}
