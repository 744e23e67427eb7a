// The planning core, over columns of numbers: shares, then slices. What it promises is in specs/Promise.antt, the plan in specs/Plan.antt.
//
// One core serves every caller: `plan_columns`, over the columns of crate model (specs/Columns.antt and specs/Packed.antt). Callers with a text call
// it as it is, and crate planner calls it for those who keep records.
#![tactic(auto)]

mod packing;

ghost use Rattle.std.specs.Prelude.{◌≡◌};
ghost use Rattle.model.specs.Columns.{jobs_in};
ghost use Rattle.columns.specs.Plan.{too_short};
ghost use Rattle.columns.specs.Promise.{Columned};

use model::{Board, JOBS_MOST, Refusal, SLICES_MOST};

// How many shares a plan has, one for each job, and how many slices.
#[derive(Clone, Copy, PartialEq, Eq)]
pub struct Counts {
    pub jobs: usize,
    pub slices: usize,
}

// Whether columns are too short for some set. Crate reader asks it of its two: one public function for both would stand for a line.
fn are_too_short(first: usize, second: usize, slices: usize) -> bool
    ensures { result ≡ too_short first second slices }
{
    first < JOBS_MOST || second < JOBS_MOST || slices < SLICES_MOST
}

// The plan of the first `n` jobs of two columns of costs, into columns of its shares and its slices. More than 64 jobs can be asked for, and are
// refused. Columns that are too short for some set are refused by 7, last of all.
// The columns stay lent, and are no struct that is handed back: `Columned` tells every row of them, also of a refused set, and memory is fixed.
pub fn plan_columns(
    board: Board,
    first: &[u32; JOBS_MOST],
    second: &[u32; JOBS_MOST],
    n: usize,
    shares1: &mut [u16],
    shares2: &mut [u16],
    slices: &mut [u64],
) -> Result<Counts, Refusal>
    ensures { Columned board n (jobs_in n first.now second.now) shares1.old shares2.old slices.old result shares1.new shares2.new slices.new }
{
    let shares = split::split(board, first, second, n)?;
    if are_too_short(shares1.len(), shares2.len(), slices.len()) {
        return Err(Refusal::TooShort);
    }
    let jobs = shares.count;
    let ticks1 = &shares.first[..jobs];
    let ticks2 = &shares.second[..jobs];
    shares1[..jobs].copy_from_slice(ticks1);
    shares2[..jobs].copy_from_slice(ticks2);
    let slices = packing::table(board.window, ticks1, ticks2, slices);
    Ok(Counts { jobs, slices })
}
