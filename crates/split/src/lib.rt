// The split of a set of jobs over the two kinds of core, in whole ticks, and the starting balance.
//
// It follows Hetero-Split (docs/SOURCES.md has the paper), with these changes: shares are whole ticks, so that a stretched job's far end and the
// work of the last moved job are rounded up; equal ratios go by the lower number; a job whose costs are equal is at home on the first kind. The
// next job to move is found by looking over all jobs each time.
//
// Jobs and shares are columns of numbers, one for each kind. A legal set has no more ticks of a job on a kind than the window, so that ticks have
// two bytes.
//
// Read on: home.rt, where the jobs start; steps.rt, how they are moved from a kind that is over; balance.rt, the starting balance. The rules are
// in docs/SPEC.md, what is promised is `Promised` of specs/Promise.antt.
#![tactic(auto)]

mod balance;
mod home;
mod steps;

ghost use Rattle.std.specs.Prelude.{◌≡◌, ◌∷◌, [], ◌≤◌, length};
ghost use Rattle.rows.specs.Lists.{All};
ghost use Rattle.model.specs.Board.{room_of};
ghost use Rattle.model.specs.Columns.{jobs_in};
ghost use Rattle.model.specs.Limits.{window_most, jobs_most};
ghost use Rattle.model.specs.declared.Kind.TheVariants.{First, Second};
ghost use Rattle.legal.specs.Lawful.{LegalJob};
ghost use Rattle.split.specs.Columns.{OfRows, says_ended};
ghost use Rattle.split.specs.Promise.{Promised};
ghost use Rattle.split.specs.Shares.{Answers, split_of};

pub use balance::{Balance, starting_balance};
use home::go_home;
use model::{Board, JOBS_MOST, Kind, Refusal};
use steps::relieve;

// The shares of as many jobs as are counted, in the first rows of two columns: the ticks on each kind. All other rows are zero.
// They are arrays with a count beside them, since memory is fixed.
#[derive(Clone, Copy, PartialEq, Eq)]
pub struct Shares {
    pub count: usize,
    pub first: [u16; JOBS_MOST],
    pub second: [u16; JOBS_MOST],
}

// The ticks of all jobs on the kind that is looked from, and on the other.
#[derive(Clone, Copy)]
struct Sums {
    here: u64,
    there: u64,
}

// Where a job ends: the ticks that it keeps on the kind that is looked from, and those that it has on the other.
#[derive(Clone, Copy)]
struct Ends {
    keep: u32,
    give: u32,
}

// The split of a legal set into `s1` and `s2`. All columns have a row for each job. They are passed one by one: steps.rt says why.
fn split_legal(
    board: Board,
    first: &[u32],
    second: &[u32],
    near: &mut [u16],
    s1: &mut [u16],
    s2: &mut [u16],
) -> Result<(), Refusal>
    requires window_le_window_most { board.window ≤ window_most }
    requires rows { OfRows (length first.now) (second.now ∷ near.old ∷ s1.old ∷ s2.old ∷ []) }
    requires all { All (LegalJob board.window) (jobs_in (length first.now) first.now second.now) }
    ensures { says_ended result (length first.now) s1.new s2.new
        ≡ split_of board.window (room_of board First) (room_of board Second) (jobs_in (length first.now) first.now second.now) }
{
    // A short name, for two calls pass it.
    let w = board.window;
    let room1 = model::room(board, Kind::First);
    let room2 = model::room(board, Kind::Second);
    let ticks = go_home(first, second, s1, s2);
    match (room1 < ticks.here, room2 < ticks.there) {
        (true, true) => Err(Refusal::BothOver),
        (true, false) => relieve(Kind::First, w, room1, room2, ticks, near, second, s1, s2),
        (false, true) => {
            // Looked at from the second kind: all that is of a kind is exchanged.
            let seen = Sums {
                here: ticks.there,
                there: ticks.here,
            };
            relieve(Kind::Second, w, room2, room1, seen, near, first, s2, s1)
        }
        (false, false) => Ok(()),
    }
}

// The split of a legal set: a share for each job, or a refusal.
#[tactic(auto, using(crate::proofs::Answers::jobs_cut, crate::proofs::Answers::answers_shares, crate::proofs::Answers::answers_refusal))]
fn share_out(
    board: Board,
    first: &[u32; JOBS_MOST],
    second: &[u32; JOBS_MOST],
    n: usize,
) -> Result<Shares, Refusal>
    requires { (board.window ≤ window_most) × (n ≤ jobs_most) × All (LegalJob board.window) (jobs_in n first.now second.now) }
    ensures { Answers (split_of board.window (room_of board First) (room_of board Second) (jobs_in n first.now second.now)) result }
{
    // Columns, and no array of rows of 12 bytes: no call takes more stack than is promised.
    let mut near = [0u16; JOBS_MOST];
    let mut s1 = [0u16; JOBS_MOST];
    let mut s2 = [0u16; JOBS_MOST];
    split_legal(
        board,
        &first[..n],
        &second[..n],
        &mut near[..n],
        &mut s1[..n],
        &mut s2[..n],
    )?;
    Ok(Shares {
        count: n,
        first: s1,
        second: s2,
    })
}

// The split of any set, of which a column has the costs on each kind: a share for each job, or a refusal. More than 64 jobs can be asked for, and are
// refused: so `n` stands beside whole columns.
#[tactic(auto, using(crate::proofs::Promising::promised_refusal, crate::proofs::Promising::asked_of_legal))]
pub fn split(
    board: Board,
    first: &[u32; JOBS_MOST],
    second: &[u32; JOBS_MOST],
    n: usize,
) -> Result<Shares, Refusal>
    ensures { Promised board n (jobs_in n first.now second.now) result }
{
    legal::check(board, first, second, n)?;
    share_out(board, first, second, n)
}
