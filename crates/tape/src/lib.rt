// The tape of document 01: lent lists, a lent table, and how far the parse has come in them. Each step of a parse goes on, or ends in a refusal.
#![tactic(auto)]

pub mod refusal; // refusal.rt: why and where a parse is refused
mod look; // look.rt: what is seen of the tokens ahead
mod write; // write.rt: leaves, nodes and pending trivia
mod steps; // steps.rt: small steps of the rules, made of those
mod counted; // counted.rt: the entries of the counted rules

ghost use Rattle.std.specs.Prelude.{◌≡◌, ◌≤◌, length};
ghost use Rattle.definition.specs.Tape.{capacity as capacity_of};
ghost use Rattle.tape.specs.Ready.{Ready, Sized};

use look::skip;
use write::capacity;

// It is passed on by one reference. No field is there that another can stand for, but `room`, which is asked for at each row; the widest come first.
#[derive(Drop)]
pub struct Tape<'a> {
    kinds: &'a [u8],
    lens: &'a [u32],
    table: &'a mut [u32],
    room: usize, // how many rows the table holds
    at: usize, // the next token not yet written, trivia included
    next: usize, // the next one that is no trivia ("here"), or the token count
    second: usize, // the next after that one, or past the end
    rows: usize, // rows written
    byte: u32, // where the token `at` starts
    left: u16, // entries of the counted rules that are left
    // The lists are within the sizes, the places are what the tokens say, and the rows and bytes are those of the tokens written.
    ghost ready: { Ready kinds.now lens.now table.now at next second rows byte },
    ghost holds: { room ≡ capacity_of (length table.now) },
}

impl<'a> Tape<'a> {
    ghost use Rattle.tape.specs.View.{Begins, state_of};

    // The tape before the first token, with `limit` entries left.
    pub fn begin(kinds: &'a [u8], lens: &'a [u32], table: &'a mut [u32], limit: u32) -> Tape<'a>
        requires { (limit ≤ 65535) × Sized kinds.now lens.now }
        ensures same_table { result.table.ghost_name ≡ table.entry.ghost_name }
        ensures begins { Begins limit result kinds.now lens.now table.old }
    {
        let next = skip(0, kinds);
        let second = skip(next + 1, kinds);
        let room = capacity(table.len());
        Tape {
            kinds,
            lens,
            table,
            room,
            at: 0,
            next,
            second,
            rows: 0,
            byte: 0,
            left: limit as u16,
        }
    }

    // How many rows are written.
    pub fn rows(&self) -> u32
        ensures { result ≡ length (state_of self.now).out }
    {
        self.rows as u32
    }
}
