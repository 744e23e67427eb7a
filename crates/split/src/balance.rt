// The starting balance: docs/SPEC.md, "Where the split starts". Any set that passes checks 1 to 5 has one, also one that is refused for room.
ghost use Rattle.std.specs.Prelude.{◌≡◌, ◌<◌, ◌^◌, pos, ◌-ℤ◌, take};
ghost use Rattle.model.specs.Columns.{jobs_in};
ghost use Rattle.model.specs.Refusal.{says};
ghost use Rattle.model.specs.declared.Kind.TheVariants.{First, Second};
ghost use Rattle.legal.specs.Lawful.{Lawful};
ghost use Rattle.split.specs.Shares.{balance_on, balance_of};

use super::home::go_home;
use model::{Board, JOBS_MOST, Job, Kind, Refusal};

// What each kind has left while all jobs are at home, signed: a kind that is over is below zero.
#[derive(Clone, Copy, PartialEq, Eq)]
pub struct Balance {
    pub first: i64,
    pub second: i64,
}

// Room less ticks, below zero where the ticks are more. Both are below 2^63, so that the casts lose nothing.
fn less(room: u64, ticks: u64) -> i64
    requires { (room < 2 ^ 63) × (ticks < 2 ^ 63) }
    ensures { result ≡ pos room -ℤ pos ticks }
{
    (room as i64) - (ticks as i64)
}

// The starting balance of a legal set, of which a column has the costs on each kind.
fn home_balance(
    board: Board,
    first: &[u32; JOBS_MOST],
    second: &[u32; JOBS_MOST],
    n: usize,
) -> Balance
    requires { Lawful board n (jobs_in n first.now second.now) }
    ensures first { result.first ≡ balance_on board (jobs_in n first.now second.now) First }
    ensures second { result.second ≡ balance_on board (jobs_in n first.now second.now) Second }
{
    // The jobs go home into columns that nothing reads: only their sums are asked for.
    let mut s1 = [0u16; JOBS_MOST];
    let mut s2 = [0u16; JOBS_MOST];
    let ticks = go_home(&first[..n], &second[..n], &mut s1[..n], &mut s2[..n]);
    Balance {
        first: less(model::room(board, Kind::First), ticks.here),
        second: less(model::room(board, Kind::Second), ticks.there),
    }
}

// The starting balance of any set, or a refusal by checks 1 to 5. The jobs are an array with `n` beside it, since more than 64 can be asked for.
pub fn starting_balance(board: Board, jobs: [Job; JOBS_MOST], n: usize) -> Result<Balance, Refusal>
    ensures { says result ≡ balance_of board n (take n jobs) }
{
    let first = model::costs(Kind::First, &jobs, n);
    let second = model::costs(Kind::Second, &jobs, n);
    legal::check(board, &first, &second, n)?;
    Ok(home_balance(board, &first, &second, n))
}
