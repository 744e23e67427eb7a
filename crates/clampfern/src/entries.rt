// The tick handler for C: what the board's kernel calls at each tick, by the exports of crate clampfern_c (include/clampfern.h). The lines are read,
// and the answers found, in the crates below; here each answer becomes the one number that C gets.
ghost use Rattle.std.specs.Prelude.{◌≡◌};
ghost use Rattle.model.specs.Refusal.{says};
ghost use Rattle.packed.specs.Packed.{packed_asked};
ghost use Rattle.kernel.specs.Handed.{tick_of};
ghost use Rattle.clampfern.specs.Tick.{code_of, PackedBytes};

use model::Refusal;

// The number for no job, one above the greatest number of a job; and what is added to a refusal's number (specs/Tick.antt). C gets one number, so
// this is where an answer stops being a `Result`.
const IDLE: u32 = 256;

const REFUSAL_BASE: u32 = 512;

fn code(named: Result<Option<u8>, Refusal>) -> u32
    ensures { result ≡ code_of (says named) }
{
    match named {
        Ok(Some(job)) => u32::from(job),
        Ok(None) => IDLE,
        Err(refusal) => REFUSAL_BASE + u32::from(model::number(refusal)),
    }
}

// What the lines say of a core at a tick: a job's number, 256 for none, 512 plus the number of a refusal.
pub fn clampfern_tick(lines: &[u8], tick: u32, kind: u32, core: u32) -> u32
    ensures { result ≡ code_of (tick_of lines.now tick kind core) }
{
    code(kernel::tick(lines, tick, kind, core))
}

// Packs the table of lines, once: how many bytes were written, and 0 where it is refused, and then no byte of `table` changed.
pub fn clampfern_pack(lines: &[u8], table: &mut [u8]) -> usize
    ensures { PackedBytes lines.now table.old table.new result }
{
    kernel::pack(lines, table).unwrap_or(0)
}

// The same as `clampfern_tick`, of packed bytes, which are looked over once.
pub fn clampfern_packed_tick(table: &[u8], tick: u32, kind: u32, core: u32) -> u32
    ensures { result ≡ code_of (packed_asked table.now tick kind core) }
{
    code(packed::packed_tick(table, tick, kind, core))
}
