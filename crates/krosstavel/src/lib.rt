// The three entries. Each is total: any lists, table and limits end in a tree or a numbered refusal with its place. The lists and the table come as callers
// and C have them; inside they travel in the tape.
#![tactic(auto)]

mod rules; // rules.rt: the rules root, exprs and format of grammar.rs

ghost use Rattle.std.specs.Prelude.{◌≡◌, length};
ghost use Rattle.definition.specs.Parse.{root as root_entry, exprs as exprs_entry, format as format_entry};
ghost use Rattle.entry.specs.Promise.{Wrote, Parsed};
ghost use Rattle.entry.specs.Round.{entry_of};

use entry::Entry;
use tape::Tape;
use tape::refusal::Refusal;

// An entry without its last step: what stands behind the rows is left as it is, and after a refusal anywhere. So whoever parses one list after the other into
// one table clears it once.
pub fn rows(
    entry: Entry,
    kinds: &[u8],
    lens: &[u32],
    table: &mut [u32],
    limit: u32,
) -> Result<u32, Refusal>
    ensures { Wrote (entry_of entry) kinds.now lens.now (length table.old) limit result table.new }
{
    entry::check(rules::is_valid(entry, limit), kinds, lens)?;
    let mut tape = Tape::begin(kinds, lens, table, limit);
    rules::rule(&mut tape, entry)?;
    Ok(tape.rows())
}

// An entry: its rows, and zeros behind them.
pub fn parse(
    entry: Entry,
    kinds: &[u8],
    lens: &[u32],
    table: &mut [u32],
    limit: u32,
) -> Result<u32, Refusal>
    ensures { Parsed (entry_of entry) kinds.now lens.now (length table.old) limit result table.new }
{
    let outcome = rows(entry, kinds, lens, table, limit);
    entry::settle(outcome, table)
}

// Statements.
pub fn root(kinds: &[u8], lens: &[u32], table: &mut [u32], limit: u32) -> Result<u32, Refusal>
    ensures { Parsed root_entry kinds.now lens.now (length table.old) limit result table.new }
{
    parse(Entry::Root, kinds, lens, table, limit)
}

// Expressions with a separator.
pub fn exprs(
    kinds: &[u8],
    lens: &[u32],
    table: &mut [u32],
    separator: u32,
    limit: u32,
) -> Result<u32, Refusal>
    ensures { Parsed (exprs_entry separator) kinds.now lens.now (length table.old) limit result table.new }
{
    parse(Entry::Exprs { separator }, kinds, lens, table, limit)
}

// One expression, and then every other token.
pub fn format(kinds: &[u8], lens: &[u32], table: &mut [u32], limit: u32) -> Result<u32, Refusal>
    ensures { Parsed format_entry kinds.now lens.now (length table.old) limit result table.new }
{
    parse(Entry::Format, kinds, lens, table, limit)
}
