// The steps: docs/SPEC.md, "How far a job can be moved" and "The steps". Jobs are moved from the kind that is over, one at a time.
//
// They are written once for both kinds: `here` and `near` are a job's ticks and cost on the kind that is looked from, which is its home as long as
// it can be moved; `there` and `far` are those on the other. A row is one job's place in the columns. Its near cost is 0 where it cannot be moved.
//
// The columns are passed one by one. A struct that held them would be no plainer: each function would have to promise of three references that they
// are still the same ones. The window, the room and a job's two costs are numbers beside them, since no `Job` says from which kind it
// is looked at. What is cast is at most the window, so that it fits.
ghost use Rattle.std.specs.Prelude.{true, ◌≡◌, ◌∷◌, [], ◌*◌, ◌≤◌, ◌<◌, leb, ltb, length};
ghost use Rattle.rows.specs.Upto.{at};
ghost use Rattle.model.specs.Board.{on};
ghost use Rattle.model.specs.Limits.{window_most};
ghost use Rattle.model.specs.declared.Refusal.TheVariants.{FirstOver, SecondOver};
ghost use Rattle.split.specs.Columns.{OfRows, sum_most, Summed, Ready, Asks, rows_in, mark_of, marks_in, marked, Found, gone_to, end_of, far_end_of, Advanced, Stepped, says_ended, ended_of};
ghost use Rattle.split.specs.Home.{both_row};
ghost use Rattle.split.specs.Shares.{settled};
ghost use Rattle.split.specs.Steps.{steps_of};

use crate::{Ends, Sums};
use model::{Kind, Refusal};

// The far end of a job that costs `near` at home and `far` on the other kind.
#[tactic(auto, using(crate::proofs::steps::Number::ceil_is), unfolding(crate::specs::Home::keep_of, crate::specs::Home::give_of))]
fn far_end(w: u32, near: u32, far: u32) -> Ends
    requires { (near ≤ far) × (near ≤ w) }
    ensures { result ≡ far_end_of w near far }
{
    if far <= w {
        return Ends { keep: 0, give: far };
    }
    // Stretched: near ≤ w < far. Rounded up: with less at home, the rest of the window is too short for the rest of the work.
    let keep = (u64::from(near) * u64::from(far - w)).div_ceil(u64::from(far - near)) as u32;
    // All the rest of the window, also where fewer ticks would do: so the job is an even mover, and only the last one moved can be uneven.
    Ends {
        keep,
        give: w - keep,
    }
}

// One step: where a row at home goes, `all` being the ticks of all rows here.
#[tactic(auto, using(crate::proofs::steps::Number::ceil_is), unfolding(crate::specs::Steps::moved_of))]
fn moved(w: u32, room: u64, all: u64, near: u32, far: u32) -> Ends
    requires { Asks w room all (both_row true near far) }
    ensures { result ≡ end_of (gone_to w room all near far) }
{
    let end = far_end(w, near, far);
    let cost = u64::from(near);
    let others = all - cost;
    // The others may take more than the room, so that a difference would be below 0 where this sum is not.
    if room <= others + u64::from(end.keep) {
        return end;
    }
    // It keeps just what the others leave, so that the kind is full, and what its work takes there is rounded up to be whole.
    let rest = room - others;
    Ends {
        keep: rest as u32,
        give: (u64::from(far) * (cost - rest)).div_ceil(cost) as u32,
    }
}

// One step on row `i`, which costs `far` on the other kind: the ticks of all rows after it.
#[tactic(auto, using(crate::proofs::steps::OneStep::keep_fits, crate::proofs::steps::OneStep::give_fits))]
fn advance(
    w: u32,
    room: u64,
    sums: Sums,
    far: u32,
    i: usize,
    near: &mut [u16],
    here: &mut [u16],
    there: &mut [u16],
) -> Sums
    requires w_le_window_most { (w ≤ window_most) × (i < length near.old) × (i < length here.old) × (i < length there.old) }
    requires asks { Asks w room sums.here (both_row true (at near.old i) far) × (sums.there ≤ 2 * sum_most) }
    ensures { Advanced w room sums far i near.old here.old there.old near.new here.new there.new result }
{
    let cost = near[i];
    let to = moved(w, room, sums.here, u32::from(cost), far);
    // A row is moved once.
    near[i] = 0;
    here[i] = to.keep as u16;
    there[i] = to.give as u16;
    Sums {
        here: sums.here - u64::from(cost) + u64::from(to.keep),
        there: sums.there + u64::from(to.give),
    }
}

// Whether a row is to be moved before the one found so far: by near/far, compared as products.
fn is_ahead(near: u16, far: u32, found_near: u16, found_far: u32) -> bool
    ensures { result ≡ ltb (found_near * far) (near * found_far) }
{
    u64::from(found_near) * u64::from(far) < u64::from(near) * u64::from(found_far)
}

// The next row to be moved, if one can be moved: a row whose near cost is 0 cannot.
#[tactic(auto, using(crate::proofs::steps::BestRow::nobody_rows))]
fn next_of(near: &[u16], far: &[u32]) -> Option<usize>
    requires rows { OfRows (length far.now) (near.now ∷ []) }
    ensures { Found near.now far.now result }
{
    let first = near.iter().position(|cost| *cost != 0)?;
    let mut best = first;
    for i in first + 1..near.len() {
        if is_ahead(near[i], far[i], near[best], far[best]) {
            best = i;
        }
    }
    Some(best)
}

// The steps on all rows, whose ticks are `start`: the ticks after them.
fn steps(
    w: u32,
    room: u64,
    start: Sums,
    near: &mut [u16],
    far: &[u32],
    here: &mut [u16],
    there: &mut [u16],
) -> Sums
    requires w_le_window_most { w ≤ window_most }
    requires rows { OfRows (length far.now) (near.old ∷ here.old ∷ there.old ∷ []) }
    requires ready { Ready w (rows_in (length far.now) near.old far.now here.old there.old) × Summed (rows_in (length far.now) near.old far.now here.old there.old) start }
    ensures { Stepped w room near.old far.now here.old there.old near.new here.new there.new result }
{
    let mut sums = start;
    // Each row is moved once, so that as many steps as rows are enough.
    for _step in 0..near.len() {
        if sums.here <= room {
            return sums;
        }
        let Some(i) = next_of(near, far) else {
            return sums;
        };
        sums = advance(w, room, sums, far[i], i, near, here, there);
    }
    sums
}

// The near cost of a job at home, 0 where it cannot be moved: a column of options would take twice the memory, and the stack is counted.
fn mark_of(far: u32, here: u16) -> u16
    ensures { result ≡ mark_of far here }
{
    if far == 0 { 0 } else { here }
}

// The near costs of all jobs at home.
fn mark(near: &mut [u16], far: &[u32], here: &[u16])
    requires rows { OfRows (length far.now) (near.old ∷ here.now ∷ []) }
    ensures { near.new ≡ marks_in (length far.now) far.now here.now }
{
    for (i, cost) in near.iter_mut().enumerate() {
        *cost = mark_of(far[i], here[i]);
    }
}

// The refusal of a set whose kind that was over stays so. It is no `From`, which would not say what is refused. `relieve` passes the kind on for this
// alone, but what it promises is said by the kind.
fn still_over(kind: Kind) -> Refusal
    ensures { result ≡ on kind FirstOver SecondOver }
{
    match kind {
        Kind::First => Refusal::FirstOver,
        Kind::Second => Refusal::SecondOver,
    }
}

// How the split ends where the steps from a kind are over: each kind is within its room, or the set is refused.
fn settle(kind: Kind, ticks: Sums, room: u64, away: u64) -> Result<(), Refusal>
    ensures { result ≡ ended_of kind (leb ticks.here room) (leb ticks.there away) }
{
    if room < ticks.here {
        return Err(still_over(kind));
    }
    if away < ticks.there {
        return Err(Refusal::OtherOver);
    }
    Ok(())
}

// A kind is over at home, and the other is not: jobs are moved from it.
#[tactic(auto, using(crate::proofs::steps::Relieving::relieves))]
pub(crate) fn relieve(
    kind: Kind,
    w: u32,
    room: u64,
    away: u64,
    start: Sums,
    near: &mut [u16],
    far: &[u32],
    here: &mut [u16],
    there: &mut [u16],
) -> Result<(), Refusal>
    requires w_le_window_most { w ≤ window_most }
    requires rows { OfRows (length far.now) (near.old ∷ here.old ∷ there.old ∷ []) }
    requires ready { Ready w (marked far.now here.old there.old) × Summed (marked far.now here.old there.old) start }
    ensures { says_ended result (length far.now) (on kind here.new there.new) (on kind there.new here.new)
        ≡ settled kind room away (steps_of (length far.now) w room (marked far.now here.old there.old)) }
{
    mark(near, far, here);
    let ends = steps(w, room, start, near, far, here, there);
    settle(kind, ends, room, away)
}
