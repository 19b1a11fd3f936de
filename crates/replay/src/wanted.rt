// The rows that a case's answer stands for. The list has them as a shape: for each row 0 for a leaf, or kind and back for a node. The leaves are
// the tokens in order; a node starts where the first row of its subtree does, or with back 0 where the next leaf would, and ends where the last leaf did.
// (A row's place in the lent table is asked of whoever writes it: it is no fact of the table alone.)
ghost use Rattle.std.specs.Prelude.{◌≡◌, ◌+◌, ◌*◌, ◌≤◌, length};
ghost use Rattle.replay.specs.Wanted.{row_put, start_of, node_put, rows_of};

#[tactic(auto, unfolding(crate::specs::Wanted::row_put))]
fn put(out: &mut [u32], row: usize, kind: u32, back: u32, start: u32, len: u32)
    requires { 4 * row + 4 ≤ length out.old }
    ensures { out.new ≡ row_put out.old row kind back start len }
{
    let at = 4 * row;
    out[at] = kind;
    out[at + 1] = back;
    out[at + 2] = start;
    out[at + 3] = len;
}

// Where a node starts that stands over the `back` rows before it, with `byte` behind the last leaf.
#[tactic(auto, unfolding(crate::specs::Wanted::start_of))]
fn start(out: &[u32], row: usize, back: u32, byte: u32) -> u32
    requires { (4 * row + 4 ≤ length out.now) × (back ≤ row) }
    ensures { result ≡ start_of out.now row back byte }
{
    if back == 0 {
        return byte;
    }
    let first = row - back as usize;
    out[4 * first + 2]
}

#[tactic(auto, unfolding(crate::specs::Wanted::node_put))]
fn node(out: &mut [u32], row: usize, kind: u32, back: u32, byte: u32)
    requires { (4 * row + 4 ≤ length out.old) × (back ≤ row) }
    ensures { out.new ≡ node_put out.old row kind back byte }
{
    let from = start(out, row, back, byte);
    put(out, row, kind, back, from, byte.saturating_sub(from));
}

// Writes the rows of a shape to the front of `out`, up to the first that is none, and tells how many there are: `None` where the shape is none, has too
// few tokens, or has more rows or bytes than fit.
pub fn rows(shape: &[u32], kinds: &[u8], lens: &[u32], out: &mut [u32]) -> Option<usize>
    ensures { (result, out.new) ≡ rows_of shape.now kinds.now lens.now out.old }
{
    let (mut shape, mut kinds, mut lens) = (shape, kinds, lens);
    let mut byte: u32 = 0;
    let mut row = 0;
    while let Some((kind, rest)) = shape.split_first() {
        if row >= out.len() / 4 {
            return None;
        }
        if *kind == 0 {
            let (token, later_kinds) = kinds.split_first()?;
            let (len, later_lens) = lens.split_first()?;
            let end = byte.checked_add(*len)?;
            put(out, row, u32::from(*token), 0, byte, *len);
            byte = end;
            (shape, kinds, lens) = (rest, later_kinds, later_lens);
        } else {
            let (back, rest) = rest.split_first()?;
            if *back as usize > row {
                return None;
            }
            node(out, row, *kind, *back, byte);
            shape = rest;
        }
        row += 1;
    }
    Some(row)
}
