// The program `facts`: of a set's text on standard input, the starting balance and the moves of each job, in decimal, or the set's refusal.
//
// It plans by the lent call, into tables that hold marks, and looks at every row after the call: with tables longer than the plan, exactly as long,
// and each in turn a row too short. What it finds wrong it says in a last line. The promises of `columns` and `planner` say that it never does;
// here they are run.
#![tactic(auto)]

ghost use Rattle.std.specs.Prelude.{◌≤◌};
ghost use Rattle.model.specs.Limits.{jobs_most, slices_most};

use columns::Counts;
use model::{
    Board, FirstTicks, JOBS_MOST, Job, Kind, Refusal, SLICES_MOST, SecondTicks, Share, Slice,
};
use planner::PlannedMoves;
use reader::Head;
use slices::Moves;
use std::array::from_fn;
use std::fmt;
use std::fmt::Write;
use streams::{INPUT_MOST, Output, Signed};

// A share and a slice that no plan has, and the ticks and the slice that no column of a plan has. A mark is a row and no option of one, since the
// planning calls are lent tables and columns of rows.
const SHARE_MARK: Share = Share {
    first: FirstTicks(4294967295),
    second: SecondTicks(4294967295),
};

const SLICE_MARK: Slice = Slice {
    job: 255,
    kind: Kind::Second,
    core: 255,
    start: 65535,
    length: 0,
};

const TICKS_MARK: u16 = 65535;

const PACKED_MARK: u64 = 65535;

// A set: a board with the first `n` jobs, as `planner::moves` takes them.
#[derive(Clone, Copy)]
struct Set {
    board: Board,
    jobs: [Job; JOBS_MOST],
    n: usize,
    ghost within: { n ≤ jobs_most },
}

// How many rows of tables are lent.
#[derive(Clone, Copy)]
struct Rows {
    shares: usize,
    slices: usize,
    ghost shares_within: { shares ≤ jobs_most },
    ghost slices_within: { slices ≤ slices_most },
}

// What the planning call over columns answered, and what these then held.
#[derive(Clone, Copy)]
struct Columns {
    counts: Result<Counts, Refusal>,
    first: [u16; JOBS_MOST],
    second: [u16; JOBS_MOST],
    slices: [u64; SLICES_MOST],
}

// What a planning call answered, and the rows that its tables or its columns then held.
#[derive(Clone, Copy)]
struct Answered {
    counts: Result<Counts, Refusal>,
    shares: [Share; JOBS_MOST],
    slices: [Slice; SLICES_MOST],
}

// Whether a table begins with the rows, and holds marks behind them.
fn holds<T: PartialEq>(table: &[T], rows: &[T], mark: &T) -> bool {
    table
        .strip_prefix(rows)
        .is_some_and(|rest| rest.iter().all(|row| *row == *mark))
}

impl Columns {
    // Whether columns that were lent were refused by 7 and keep their marks.
    fn are_too_short(&self) -> bool {
        self.counts == Err(Refusal::TooShort)
            && holds(&self.first, &[], &TICKS_MARK)
            && holds(&self.second, &[], &TICKS_MARK)
            && holds(&self.slices, &[], &PACKED_MARK)
    }

    // The rows of the columns. They are read here and not by crate planner, whose rows they are compared with.
    fn rows(&self) -> Answered {
        Answered {
            counts: self.counts,
            shares: from_fn(|job| Share {
                first: FirstTicks(u32::from(self.first[job])),
                second: SecondTicks(u32::from(self.second[job])),
            }),
            slices: self.slices.map(Slice::from),
        }
    }
}

impl Answered {
    // The shares and the slices of the plan. A refusal has none.
    fn planned_shares(&self) -> &[Share] {
        let jobs = self.counts.map_or(0, |counts| counts.jobs);
        &self.shares[..jobs.min(JOBS_MOST)]
    }

    fn planned_slices(&self) -> &[Slice] {
        let slices = self.counts.map_or(0, |counts| counts.slices);
        &self.slices[..slices.min(SLICES_MOST)]
    }

    // Whether a lent call answered as the other one did, and left the rows of its plan, and marks behind them.
    fn is_as(&self, plan: &Answered) -> bool {
        self.counts == plan.counts
            && holds(&self.shares, plan.planned_shares(), &SHARE_MARK)
            && holds(&self.slices, plan.planned_slices(), &SLICE_MARK)
    }

    // Whether a lent call was refused by 7, and left marks alone.
    fn is_too_short(&self) -> bool {
        self.counts == Err(Refusal::TooShort)
            && holds(&self.shares, &[], &SHARE_MARK)
            && holds(&self.slices, &[], &SLICE_MARK)
    }

    // Whether the moves are those that the rows give.
    fn has_moves(&self, moved: &PlannedMoves) -> bool {
        (0..).zip(&moved.moves).take(moved.counts.jobs).all(|(job, moves)| *moves
            == slices::moves_of(self.slices, moved.counts.slices, job))
    }
}

// The planning call, by itself: it is put into no caller, so that tests/stack.sh reads off this function what the call takes, and no table is in it.
#[inline(never)]
fn plan_lent(set: &Set, shares: &mut [Share], slices: &mut [Slice]) -> Result<Counts, Refusal> {
    planner::plan(set.board, &set.jobs[..set.n], shares, slices)
}

// The same with the first rows of tables of marks lent to it.
fn plan_over_marks(set: &Set, rows: Rows) -> Answered {
    let mut shares = [SHARE_MARK; JOBS_MOST];
    let mut slices = [SLICE_MARK; SLICES_MOST];
    let counts = plan_lent(set, &mut shares[..rows.shares], &mut slices[..rows.slices]);
    Answered {
        counts,
        shares,
        slices,
    }
}

// The planning call over the first rows of columns of marks: so many of each column of ticks, and of the column of slices.
fn plan_in_columns(set: &Set, first: usize, second: usize, slices: usize) -> Columns
    requires { (first ≤ jobs_most) × (second ≤ jobs_most) × (slices ≤ slices_most) }
{
    let costs1 = model::costs(Kind::First, &set.jobs, set.n);
    let costs2 = model::costs(Kind::Second, &set.jobs, set.n);
    let mut columns = Columns {
        counts: Err(Refusal::TooShort),
        first: [TICKS_MARK; JOBS_MOST],
        second: [TICKS_MARK; JOBS_MOST],
        slices: [PACKED_MARK; SLICES_MOST],
    };
    columns.counts = columns::plan_columns(
        set.board,
        &costs1,
        &costs2,
        set.n,
        &mut columns.first[..first],
        &mut columns.second[..second],
        &mut columns.slices[..slices],
    );
    columns
}

// Whether columns that one set could be too long for are refused, each in turn, whatever the set.
fn is_refused_short(set: &Set) -> bool {
    plan_in_columns(set, JOBS_MOST - 1, JOBS_MOST, SLICES_MOST).are_too_short()
        && plan_in_columns(set, JOBS_MOST, JOBS_MOST - 1, SLICES_MOST).are_too_short()
        && plan_in_columns(set, JOBS_MOST, JOBS_MOST, SLICES_MOST - 1).are_too_short()
}

// Whether tables of exactly the rows of a plan do, and each in turn a row too short is refused.
fn is_right_at_the_edge(set: &Set, counts: Counts, plan: &Answered) -> bool {
    let Counts { jobs, slices } = counts;
    if JOBS_MOST < jobs || SLICES_MOST < slices {
        return false;
    }
    let exact = Rows {
        shares: jobs,
        slices,
    };
    if !plan_over_marks(set, exact).is_as(plan) {
        return false;
    }
    if jobs > 0 {
        let short = Rows {
            shares: jobs - 1,
            slices,
        };
        if !plan_over_marks(set, short).is_too_short() {
            return false;
        }
    }
    if slices > 0 {
        let short = Rows {
            shares: jobs,
            slices: slices - 1,
        };
        return plan_over_marks(set, short).is_too_short();
    }
    true
}

// Whether the lent call into long tables answered as `moves` and the call over columns did, and left the rows of the columns; and where there is a
// plan, whether the moves are those of the rows that were written, the call is right at the edge, and the call over columns refuses short ones.
fn is_right(set: &Set, lent: &Answered, moved: &Result<PlannedMoves, Refusal>) -> bool {
    let plan = plan_in_columns(set, JOBS_MOST, JOBS_MOST, SLICES_MOST).rows();
    if !lent.is_as(&plan) {
        return false;
    }
    match moved {
        Err(refusal) => plan.counts == Err(*refusal),
        Ok(moved) => {
            plan.counts == Ok(moved.counts)
                && lent.has_moves(moved)
                && is_right_at_the_edge(set, moved.counts, &plan)
                && is_refused_short(set)
        }
    }
}

// The moves of the jobs of a plan.
fn put_moves(out: &mut Output, moved: &PlannedMoves) -> fmt::Result {
    for (job, moves) in moved.moves.iter().take(moved.counts.jobs).enumerate() {
        let Moves { outer, inner } = *moves;
        writeln!(out, "moves {job} {outer} {inner}")?;
    }
    Ok(())
}

// The facts of a set. One that has no starting balance is refused by the planning call too, which says why.
fn show(out: &mut Output, set: &Set) -> fmt::Result {
    if let Ok(balance) = split::starting_balance(set.board, set.jobs, set.n) {
        writeln!(
            out,
            "balance {} {}",
            Signed(balance.first),
            Signed(balance.second)
        )?;
    }
    let all = Rows {
        shares: JOBS_MOST,
        slices: SLICES_MOST,
    };
    let lent = plan_over_marks(set, all);
    let moved = planner::moves(set.board, set.jobs, set.n);
    match &moved {
        Err(refusal) => writeln!(out, "refused {refusal}")?,
        Ok(moved) => put_moves(out, moved)?,
    }
    if !is_right(set, &lent, &moved) {
        writeln!(out, "lent wrong")?;
    }
    Ok(())
}

// The facts of a text.
fn show_text(out: &mut Output, text: &[u8]) -> fmt::Result {
    let mut first = [0u32; JOBS_MOST];
    let mut second = [0u32; JOBS_MOST];
    match reader::read(text, &mut first, &mut second) {
        Err(refusal) => writeln!(out, "refused {refusal}"),
        Ok(Head { board, jobs: n }) => {
            let jobs = from_fn(|job| model::job_of(first[job], second[job]));
            show(out, &Set { board, jobs, n })
        }
    }
}

fn main(rt: HostRuntime) {
    let mut input = [0u8; INPUT_MOST];
    let mut out = Output::new(&rt, b"facts: the answer cannot be written\n");
    if let Some(count) = streams::whole_input(
        &rt,
        &mut input,
        b"facts: the input cannot be read\n",
    ) {
        // No write of the output is an error.
        let _ = show_text(&mut out, &input[..count]);
    }
}
