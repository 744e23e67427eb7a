// What the board's kernel calls: the tick handler over the lines of a plan, with the board's line before them. docs/SPEC.md, "The tick handler".
// The lines are read here (lines.rt); whether their table can be run and what runs is the handler's, and its packed form is crate packed's.
#![tactic(auto)]

ghost use Rattle.std.specs.Prelude.{◌≡◌};
ghost use Rattle.model.specs.Refusal.{says};
ghost use Rattle.kernel.specs.Handed.{handed_of, tick_of, PacksFor};

mod lines;

use lines::read_lines;
use model::Refusal;

// The most rows that a table in lines has: a byte counts them. They are read into an array of so many, and no Vec, since memory is fixed.
const ROWS_MOST: usize = 255;

// The job of a core at a tick, by the lines of a plan. They are read and their table is checked at each call: `pack` does both once.
// Tick, kind and core are three numbers, since the C interface passes them so.
pub fn tick(lines: &[u8], tick: u32, kind: u32, core: u32) -> Result<Option<u8>, Refusal>
    ensures { says result ≡ tick_of lines.now tick kind core }
{
    let mut rows = [0u64; ROWS_MOST];
    let table = read_lines(lines, &mut rows)?;
    handler::job_at(table.board, &rows[..table.rows], tick, kind, core)
}

// Writes the table of lines in packed bytes, to be asked by `packed::packed_tick`. Where the lines are refused, or their table is, no byte changes.
pub fn pack(lines: &[u8], table: &mut [u8]) -> Result<usize, Refusal>
    ensures { PacksFor (handed_of lines.now) table.old table.new result }
{
    let mut rows = [0u64; ROWS_MOST];
    let read = read_lines(lines, &mut rows)?;
    packed::pack_table(read.board, &rows[..read.rows], table)
}
