// The rules root, exprs and format of grammar.rs. Their `open(Root)` marks row 0.
ghost use Rattle.std.specs.Prelude.{◌≡◌, ◌&&◌, true};
ghost use Rattle.definition.specs.Grammar.{root as root_prog, exprs as exprs_prog, format as format_prog, close_root};
ghost use Rattle.definition.specs.Parse.{program, is_limit as is_limited, is_entry};
ghost use Rattle.tape.specs.View.{Marked, Step};
ghost use Rattle.entry.specs.Round.{entry_of};
ghost use Rattle.krosstavel.specs.Starting.{Treated};

use entry::{Entry, is_limit, is_separator};
use grammar::{expr, stmt};
use kinds::ROOT;
use kinds::classes::{is_some, treated};
use tape::Tape;
use tape::refusal::Refusal;

// Whether the limit is one, and the separator that may come with an entry.
pub(super) fn is_valid(entry: Entry, limit: u32) -> bool
    ensures { result ≡ (is_limited limit && is_entry (entry_of entry)) }
{
    match entry {
        Entry::Root => is_limit(limit),
        Entry::Exprs { separator } => is_limit(limit) & is_separator(separator),
        Entry::Format => is_limit(limit),
    }
}

// The rule of an entry.
pub(super) fn rule(p: &mut Tape, entry: Entry) -> Result<(), Refusal>
    requires { Marked 0 p.old × (is_entry (entry_of entry) ≡ true) }
    ensures { Step 0 (program (entry_of entry)) result p.old p.new }
{
    match entry {
        Entry::Root => root_rule(p),
        Entry::Exprs { separator } => exprs_rule(p, separator as u8),
        Entry::Format => format_rule(p),
    }
}

// The end of each: pending trivia, and Root over all rows.
fn close_root(p: &mut Tape) -> Result<(), Refusal>
    requires { Marked 0 p.old }
    ensures { Step 0 close_root result p.old p.new }
{
    p.flush_ws()?;
    p.close_at(0, ROOT)
}

// root (75).
fn root_rule(p: &mut Tape) -> Result<(), Refusal>
    requires { Marked 0 p.old }
    ensures { Step 0 root_prog result p.old p.new }
{
    while is_some(p.peek()) {
        stmt(p)?;
    }
    close_root(p)
}

// exprs (88). An unassigned separator is read as Other, as tokens are.
fn exprs_rule(p: &mut Tape, separator: u8) -> Result<(), Refusal>
    requires { Marked 0 p.old × Treated separator }
    ensures { Step 0 (exprs_prog separator) result p.old p.new }
{
    let k = treated(separator);
    while is_some(p.peek()) {
        expr(p)?;
        p.bump_while(k)?;
    }
    close_root(p)
}

// format (102).
fn format_rule(p: &mut Tape) -> Result<(), Refusal>
    requires { Marked 0 p.old }
    ensures { Step 0 format_prog result p.old p.new }
{
    expr(p)?;
    while is_some(p.peek()) {
        p.bump()?;
    }
    close_root(p)
}
