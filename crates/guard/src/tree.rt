// A table's rows as a tree, parents first. In the table a node stands behind its subtree, and its `back` is how many rows that has.
ghost use Rattle.std.specs.Prelude.{◌≡◌, ◌+◌, ◌-◌, ◌*◌, ◌/◌, ◌≤◌, ◌<◌, min, length};
ghost use Rattle.guard.specs.Tree.{first_of, depth_of};
ghost use Rattle.text.specs.Written.{Grows};

use crate::names::print_name;
use std::io;
use std::io::Write;
use text::put;

// (That a row is one of the tree's is asked of the row that is given, and so is no fact of the tree alone.)
// A guard's tree: so many rows of four numbers in the table, and the text and the kinds' names that they are printed with.
#[derive(Clone, Copy)]
pub struct Tree<'a> {
    table: &'a [u32],
    rows: usize,
    text: &'a [u8],
    names: &'a [u8],
    ghost within: { 4 * rows ≤ length table.now },
}

impl<'a> Tree<'a> {
    // (The parser's rows all fit the table, so `min` takes none away.)
    pub fn new(table: &'a [u32], rows: usize, text: &'a [u8], names: &'a [u8]) -> Self
        ensures { result.rows ≡ min rows (length table.now / 4) }
    {
        Tree {
            table,
            rows: rows.min(table.len() / 4),
            text,
            names,
        }
    }

    // Where a row's subtree starts: the number of its first row.
    fn first(&self, row: usize) -> usize
        requires { row < self.now.rows }
        ensures { result ≡ first_of self.now.table.now row }
    {
        row.saturating_sub(self.table[4 * row + 1] as usize)
    }

    // How many nodes a row stands in: those behind it whose subtree starts at it or before it.
    fn depth(&self, row: usize) -> usize
        requires { row < self.now.rows }
        ensures { result ≡ depth_of self.now.table.now row (self.now.rows - (row + 1)) }
    {
        let mut deep = 0;
        for q in row + 1..self.rows {
            if self.first(q) <= row {
                deep += 1;
            }
        }
        deep
    }

    // A leaf's own text.
    fn print_text<W: Write>(&self, out: &mut W, start: u32, len: u32) -> io::Result<()>
        ensures grows { Grows (W.contents out.old) (W.contents out.new) }
    {
        let start = start as usize;
        let Some(leaf) = self.text.get(start..start + len as usize) else {
            return Ok(());
        };
        put(out, b" `")?;
        put(out, leaf)?;
        put(out, b"`")
    }

    fn print_row<W: Write>(&self, out: &mut W, row: usize) -> io::Result<()>
        requires { row < self.now.rows }
        ensures grows { Grows (W.contents out.old) (W.contents out.new) }
    {
        let at = 4 * row;
        let kind = self.table[at];
        indent(out, self.depth(row))?;
        print_name(out, self.names, kind)?;
        if kind < 128 {
            self.print_text(out, self.table[at + 2], self.table[at + 3])?;
        }
        put(out, b"\n")
    }

    // The rows whose subtree starts at this row, the outermost first.
    fn print_from<W: Write>(&self, out: &mut W, first: usize) -> io::Result<()>
        ensures grows { Grows (W.contents out.old) (W.contents out.new) }
    {
        for row in (first..self.rows).rev() {
            if self.first(row) == first {
                self.print_row(out, row)?;
            }
        }
        Ok(())
    }

    // Every row once, under its parent, in the order of the text.
    pub fn print<W: Write>(&self, out: &mut W) -> io::Result<()>
        ensures grows { Grows (W.contents out.old) (W.contents out.new) }
    {
        for first in 0..self.rows {
            self.print_from(out, first)?;
        }
        Ok(())
    }
}

fn indent<W: Write>(out: &mut W, deep: usize) -> io::Result<()>
    ensures grows { Grows (W.contents out.old) (W.contents out.new) }
{
    for _ in 0..deep {
        put(out, b"  ")?;
    }
    Ok(())
}
