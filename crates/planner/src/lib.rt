// The planning call: shares, then slices, into tables that the caller lends. What it promises is in specs/Promise.antt, the plan in crate columns,
// specs/Plan.antt.
//
// The core, `columns::plan_columns`, is over columns of numbers. `plan` is the call over lent records: the few functions over them only read or
// write rows, one by one.
#![tactic(auto)]

ghost use Rattle.std.specs.Prelude.{◌≡◌, ◌++◌, map, ◌-◌, ◌≤◌, length, take, replicate, min};
ghost use Rattle.rows.specs.Upto.{upto};
ghost use Rattle.model.specs.Columns.{shares_in};
ghost use Rattle.model.specs.Limits.{jobs_most};
ghost use Rattle.model.specs.Packed.{slice_in, slices_in};
ghost use Rattle.model.specs.ShareRow.{row_of};
ghost use Rattle.model.specs.Split.{share};
ghost use Rattle.slices.specs.Moves.{moves_of};
ghost use Rattle.planner.specs.PlanMoves.{no_moves, MovesPromised};
ghost use Rattle.planner.specs.InColumns.{fit_of, Filled};
ghost use Rattle.planner.specs.Promise.{Promised};

use columns::Counts;
use model::{
    Board, FirstTicks, JOBS_MOST, Job, Kind, Refusal, SLICES_MOST, SecondTicks, Share, Slice,
};
use slices::Moves;

// Columns of a plan's shares and of its slices, long enough for every set: they are arrays, as those below, since memory is fixed.
#[derive(Clone, Copy)]
struct Tables {
    first: [u16; JOBS_MOST],
    second: [u16; JOBS_MOST],
    slices: [u64; SLICES_MOST],
}

// The counts of a plan, and the moves of each of its jobs. All other rows are zero.
#[derive(Clone, Copy, PartialEq, Eq)]
pub struct PlannedMoves {
    pub counts: Counts,
    pub moves: [Moves; JOBS_MOST],
}

// Columns before they are filled.
const EMPTY: Tables = Tables {
    first: [0; JOBS_MOST],
    second: [0; JOBS_MOST],
    slices: [0; SLICES_MOST],
};

impl Tables {
    // The plan of the first `n` jobs: its rows are in front, as many as are counted.
    fn fill(&mut self, board: Board, jobs: &[Job], n: usize) -> Result<Counts, Refusal>
        requires { min n jobs_most ≤ length jobs.now }
        ensures { Filled board n (take n jobs.now) result self.new }
    {
        let first = model::costs(Kind::First, jobs, n);
        let second = model::costs(Kind::Second, jobs, n);
        columns::plan_columns(
            board,
            &first,
            &second,
            n,
            &mut self.first,
            &mut self.second,
            &mut self.slices,
        )
    }
}

// Whether tables of so many rows have room for a plan: refusal 7 where one of them has too few.
fn fit(counts: Counts, share_rows: usize, slice_rows: usize) -> Result<(), Refusal>
    ensures { result ≡ fit_of counts share_rows slice_rows }
{
    if share_rows < counts.jobs || slice_rows < counts.slices {
        return Err(Refusal::TooShort);
    }
    Ok(())
}

// The slices of a column.
fn rows_of(slices: [u64; SLICES_MOST]) -> [Slice; SLICES_MOST]
    ensures { result ≡ map slice_in slices }
{
    slices.map(Slice::from)
}

// The moves of the jobs of a plan, by its rows, which are the first of a table: `slices::moves_of` takes an array with their count. A job is below
// 64, so that the cast loses nothing.
fn moves_below(rows: [Slice; SLICES_MOST], counts: Counts) -> [Moves; JOBS_MOST]
    requires { counts.jobs ≤ jobs_most }
    ensures { result ≡ upto counts.jobs (moves_of (take counts.slices rows)) ++ replicate (jobs_most - counts.jobs) no_moves }
{
    let mut moves = [Moves { outer: 0, inner: 0 }; JOBS_MOST];
    let planned = &mut moves[..counts.jobs];
    for (job, row) in planned.iter_mut().enumerate() {
        *row = slices::moves_of(rows, counts.slices, job as u8);
    }
    moves
}

// The moves of each of the first `n` jobs, by the plan of them; or a refusal, as the planning call gives it. The jobs are an array with a count
// beside it, for any count may be asked for: one of more than 64 jobs is refused by its number.
pub fn moves(board: Board, jobs: [Job; JOBS_MOST], n: usize) -> Result<PlannedMoves, Refusal>
    ensures { MovesPromised board n (take n jobs) result }
{
    let mut tables = EMPTY;
    let counts = tables.fill(board, &jobs, n)?;
    let moves = moves_below(rows_of(tables.slices), counts);
    Ok(PlannedMoves { counts, moves })
}

// The share of its ticks on each kind. It is no `From`, which would not say which ticks are of which kind.
fn share_of(first: u16, second: u16) -> Share
    ensures { result ≡ row_of (share first second) }
{
    Share {
        first: FirstTicks(u32::from(first)),
        second: SecondTicks(u32::from(second)),
    }
}

// The rows of a table become the first shares of two columns. This and the next stay two functions: they share no more than the loop.
fn put_shares(table: &mut [Share], first: &[u16], second: &[u16])
    requires { (length table.old ≤ length first.now) × (length table.old ≤ length second.now) }
    ensures { table.new ≡ map row_of (shares_in (length table.old) first.now second.now) }
{
    for (i, row) in table.iter_mut().enumerate() {
        *row = share_of(first[i], second[i]);
    }
}

// The rows of a table become the first slices of a column.
fn put_slices(table: &mut [Slice], slices: &[u64])
    requires { length table.old ≤ length slices.now }
    ensures { table.new ≡ slices_in (length table.old) slices.now }
{
    for (i, row) in table.iter_mut().enumerate() {
        *row = Slice::from(slices[i]);
    }
}

// The plan of any number of jobs, into lent tables: the call for those who keep jobs, shares and slices as records. Callers with a text go through
// `columns::plan_columns`, so no other source calls this one but the program `facts`, which runs it with tables that are too short, exact and longer.
pub fn plan(
    board: Board,
    jobs: &[Job],
    shares: &mut [Share],
    slices: &mut [Slice],
) -> Result<Counts, Refusal>
    ensures { Promised board jobs.now shares.old slices.old result shares.new slices.new }
{
    let mut tables = EMPTY;
    let counts = tables.fill(board, jobs, jobs.len())?;
    fit(counts, shares.len(), slices.len())?;
    put_shares(&mut shares[..counts.jobs], &tables.first, &tables.second);
    put_slices(&mut slices[..counts.slices], &tables.slices);
    Ok(counts)
}
