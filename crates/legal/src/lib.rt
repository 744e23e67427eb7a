// Which sets of jobs are legal: checks 1 to 5 of docs/SPEC.md, "Which sets are legal". Each check looks at all jobs before the next begins, and
// the first that is not passed gives the refusal, by number and place. The definition is specs/Legal.antt; proofs/Lib.antt is the guide to its laws.
#![tactic(auto)]

ghost use Rattle.std.specs.Prelude.{◌≡◌, ◌≤◌, ◌<◌, Bool, IfSome, position};
ghost use Rattle.model.specs.Columns.{jobs_in};
ghost use Rattle.model.specs.Limits.{jobs_most};
ghost use Rattle.model.specs.Refusal.{given, says};
ghost use Rattle.model.specs.declared.Job.{Job};
ghost use Rattle.legal.specs.Failing.{Computes};
ghost use Rattle.legal.specs.Legal.{outside, on_board, bad_cost, too_long, legal_of};

use model::{Board, CORES_MOST, COST_MOST, JOBS_MOST, Job, Refusal, WINDOW_MOST};

// Whether a number is outside 1 to `most`.
pub fn is_outside(most: u32, x: u32) -> bool
    ensures { result ≡ outside most x }
{
    !(1..=most).contains(&x)
}

// Whether a cost on an allowed kind is out of range. The three cases stand here and in the next function: one asks for any cost and one for all, so
// that one function for both would be no plainer.
fn bad_cost(job: Job) -> bool
    ensures { result ≡ bad_cost job }
{
    match job {
        Job::Both(c1, c2) => is_outside(COST_MOST, c1.0) || is_outside(COST_MOST, c2.0),
        Job::OnlyFirst(c1) => is_outside(COST_MOST, c1.0),
        Job::OnlySecond(c2) => is_outside(COST_MOST, c2.0),
    }
}

// Whether every cost on an allowed kind is above the window.
fn too_long(w: u32, job: Job) -> bool
    ensures { result ≡ too_long w job }
{
    match job {
        Job::Both(c1, c2) => w < c1.0 && w < c2.0,
        Job::OnlyFirst(c1) => w < c1.0,
        Job::OnlySecond(c2) => w < c2.0,
    }
}

// The lowest of the first `n` jobs that fails a check.
fn lowest_failing<F: Fn(Job) -> bool>(
    fails: F,
    first: &[u32; JOBS_MOST],
    second: &[u32; JOBS_MOST],
    n: usize,
) -> Option<usize>
    requires few { n ≤ jobs_most }
    requires callable { F.IsAlwaysCallable fails }
    ensures lowest { (check : Job → Bool) → Computes (F.post fails) check → result ≡ position check (jobs_in n first.now second.now) }
    ensures within { IfSome result (λ job. job < n) }
{
    first
        .iter()
        .zip(second)
        .take(n)
        .map(|(first, second)| model::job_of(*first, *second))
        .position(fails)
}

// Checks 1 and 2, of a board by itself.
#[tactic(auto, unfolding(crate::specs::Legal::on_board))]
pub fn check_board(board: Board) -> Result<(), Refusal>
    ensures { says result ≡ on_board board (given tt) }
{
    if is_outside(WINDOW_MOST, board.window) {
        return Err(Refusal::Window);
    }
    if is_outside(CORES_MOST, board.first) || is_outside(CORES_MOST, board.second) {
        return Err(Refusal::Cores);
    }
    Ok(())
}

// Checks 1 to 5 of the first `n` jobs of the columns. More than 64 can be asked for, and are refused: so `n` stands
// beside whole columns. A place is below 64, and the cast of it loses nothing: `try_from` would have an error that never comes.
#[tactic(auto, unfolding(crate::specs::Legal::legal_of, crate::specs::Legal::on_board))]
pub fn check(
    board: Board,
    first: &[u32; JOBS_MOST],
    second: &[u32; JOBS_MOST],
    n: usize,
) -> Result<(), Refusal>
    ensures { says result ≡ legal_of board n (jobs_in n first.now second.now) }
{
    check_board(board)?;
    if JOBS_MOST < n {
        return Err(Refusal::TooManyJobs);
    }
    if let Some(bad) = lowest_failing(bad_cost, first, second, n) {
        return Err(Refusal::Cost(bad as u32));
    }
    if let Some(long) = lowest_failing(|job| too_long(board.window, job), first, second, n) {
        return Err(Refusal::TooLong(long as u32));
    }
    Ok(())
}
