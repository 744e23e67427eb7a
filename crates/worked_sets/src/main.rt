// Runs the split on the worked sets of the rules (split/proofs/Examples.antt has their answers), among them the set of the paper's Table I
// (docs/SOURCES.md), and on sets that every check refuses. A line each: the starting balance of the two kinds, then the shares, or the refusal's
// number and place.
#![tactic(auto)]

use model::{Board, FirstTicks, JOBS_MOST, Job, Kind, SecondTicks};
use split::Shares;
use std::fmt;
use std::fmt::Write;
use streams::{Output, Signed};

// A job on both kinds. These have short names, so that a set is a line of the tables below: in full, none is plainer.
fn both(a: u32, b: u32) -> Job {
    Job::Both(FirstTicks(a), SecondTicks(b))
}

// A job on the first kind only, and on the second only.
fn first(a: u32) -> Job {
    Job::OnlyFirst(FirstTicks(a))
}

fn second(b: u32) -> Job {
    Job::OnlySecond(SecondTicks(b))
}

fn board(window: u32, cores1: u32, cores2: u32) -> Board {
    Board {
        window,
        first: cores1,
        second: cores2,
    }
}

fn put_shares(out: &mut Output, shares: &Shares) -> fmt::Result {
    write!(out, "shares")?;
    for (first, second) in shares.first.iter().zip(&shares.second).take(shares.count) {
        write!(out, " ({first},{second})")?;
    }
    Ok(())
}

// The line of a set of the first `n` jobs, as the split takes them: some sets below count more jobs than there are rows.
fn show(out: &mut Output, board: Board, jobs: [Job; JOBS_MOST], n: usize) -> fmt::Result {
    match split::starting_balance(board, jobs, n) {
        Ok(b) => write!(out, "balance {} {}; ", Signed(b.first), Signed(b.second))?,
        Err(_) => write!(out, "no balance; ")?,
    }
    let costs1 = model::costs(Kind::First, &jobs, n);
    let costs2 = model::costs(Kind::Second, &jobs, n);
    match split::split(board, &costs1, &costs2, n) {
        Ok(shares) => put_shares(out, &shares)?,
        Err(refusal) => write!(
            out,
            "refusal {} at {}",
            model::number(refusal),
            model::place(refusal)
        )?,
    }
    writeln!(out)
}

// A set of up to four jobs. The fourth stands in all rows after it too.
fn four(j0: Job, j1: Job, j2: Job, j3: Job) -> [Job; JOBS_MOST] {
    let mut jobs = [j3; JOBS_MOST];
    jobs[0] = j0;
    jobs[1] = j1;
    jobs[2] = j2;
    jobs
}

fn table_of_document_01(out: &mut Output) -> fmt::Result {
    let one = board(10, 1, 1);
    let two = board(10, 2, 2);
    let x = both(1, 1);
    let s = both(6, 16);
    let m = both(16, 6);
    let t = both(10, 10);
    show(out, one, four(x, x, x, x), 0)?;
    show(out, one, four(both(6, 9), both(6, 8), x, x), 2)?;
    show(out, one, four(both(9, 6), both(8, 6), x, x), 2)?;
    show(out, one, four(s, first(6), x, x), 2)?;
    show(out, one, four(t, t, x, x), 2)?;
    show(out, one, four(t, t, t, x), 3)?;
    show(out, one, four(first(10), x, x, x), 1)?;
    show(out, one, four(first(11), x, x, x), 1)?;
    show(out, one, four(both(11, 11), x, x, x), 1)?;
    show(out, one, four(both(10, 11), x, x, x), 1)?;
    show(out, two, four(s, s, s, first(8)), 4)?;
    show(out, two, four(s, s, s, first(9)), 4)?;
    show(out, two, four(m, m, m, second(9)), 4)?;
    show(
        out,
        one,
        four(first(10), first(1), second(10), second(1)),
        4,
    )?;
    show(out, one, four(both(7, 7), x, x, x), 1)?;
    show(out, one, four(both(11, 10), x, x, x), 1)
}

fn table_of_source_003(out: &mut Output) -> fmt::Result {
    let mut jobs = [both(4, 7); JOBS_MOST];
    jobs[0] = both(10, 3);
    jobs[1] = both(9, 3);
    jobs[2] = both(14, 6);
    jobs[3] = both(18, 9);
    jobs[4] = both(12, 8);
    jobs[5] = both(8, 9);
    show(out, board(10, 3, 2), jobs, 7)
}

// Every check, on both sides of its limit, with the job that it names.
fn refusals(out: &mut Output) -> fmt::Result {
    let wide = board(10, 8, 8);
    let ok = both(6, 9);
    let all = four(ok, ok, ok, ok);
    show(out, board(0, 1, 1), all, 1)?;
    show(out, board(65536, 1, 1), all, 1)?;
    show(out, board(65535, 1, 1), all, 1)?;
    show(out, board(4294967295, 9, 0), all, 65)?;
    show(out, board(10, 0, 1), all, 1)?;
    show(out, board(10, 1, 9), all, 1)?;
    show(out, wide, all, 1)?;
    show(out, wide, four(first(0), ok, ok, ok), 65)?;
    show(out, wide, all, 18446744073709551615)?;
    show(
        out,
        wide,
        four(second(1), second(1), second(1), second(1)),
        64,
    )?;
    show(out, wide, four(ok, both(1, 0), first(11), ok), 3)?;
    show(out, wide, four(ok, first(11), both(1, 1000001), ok), 3)?;
    show(
        out,
        wide,
        four(ok, both(1000000, 11), first(4294967295), ok),
        3,
    )?;
    show(out, wide, four(ok, both(1000000, 10), second(11), ok), 3)?;
    show(out, wide, four(ok, ok, ok, second(1000000)), 4)?;
    show(out, wide, four(ok, ok, ok, second(1000000)), 3)
}

// Every set in turn.
fn show_all(out: &mut Output) -> fmt::Result {
    table_of_document_01(out)?;
    table_of_source_003(out)?;
    refusals(out)
}

fn main(rt: HostRuntime) {
    // Nobody is told what cannot be written, and no write of the output is an error.
    let _ = show_all(&mut Output::new(&rt, b""));
}
