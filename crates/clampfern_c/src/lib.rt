// The C entries of include/clampfern.h: each is the function of the same name of crate clampfern, with its promise. This crate is what C links.
#![tactic(auto)]

ghost use Rattle.std.specs.Prelude.{◌≡◌};
ghost use Rattle.packed.specs.Packed.{packed_asked};
ghost use Rattle.kernel.specs.Handed.{tick_of};
ghost use Rattle.clampfern.specs.Answer.{Entered};
ghost use Rattle.clampfern.specs.Tick.{code_of, PackedBytes};

// The answer to a text: how many bytes were written, and 0 where `out` is too short for the lines, and then no byte of it changed.
#[unsafe(no_mangle)]
pub extern "C" fn clampfern_plan(text: &[u8], out: &mut [u8]) -> usize
    ensures { Entered text.now out.old out.new result }
{
    clampfern::clampfern_plan(text, out)
}

// What the lines say of a core at a tick: a job's number, 256 for none, 512 plus the number of a refusal.
#[unsafe(no_mangle)]
pub extern "C" fn clampfern_tick(lines: &[u8], tick: u32, kind: u32, core: u32) -> u32
    ensures { result ≡ code_of (tick_of lines.now tick kind core) }
{
    clampfern::clampfern_tick(lines, tick, kind, core)
}

// Packs the table of lines, once: how many bytes were written, and 0 where it is refused, and then no byte of `table` changed.
#[unsafe(no_mangle)]
pub extern "C" fn clampfern_pack(lines: &[u8], table: &mut [u8]) -> usize
    ensures { PackedBytes lines.now table.old table.new result }
{
    clampfern::clampfern_pack(lines, table)
}

// The same as `clampfern_tick`, of packed bytes, which are looked over once.
#[unsafe(no_mangle)]
pub extern "C" fn clampfern_packed_tick(table: &[u8], tick: u32, kind: u32, core: u32) -> u32
    ensures { result ≡ code_of (packed_asked table.now tick kind core) }
{
    clampfern::clampfern_packed_tick(table, tick, kind, core)
}
