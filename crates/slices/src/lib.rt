// The moves of a job by the rows of a table of slices: docs/SPEC.md, "Moves"; the definition is specs/Moves.antt.
// The table itself is defined here (specs/Table.antt) and proved to be a timetable (proofs/Timetabled.antt), but the code that makes it is
// columns/src/packing.rt: it has `requires` and is private to that crate, so placing is not public yet.
// The table follows Hetero-Wrap over McNaughton's rule (docs/SOURCES.md). Ours takes jobs by number where the paper leaves their order open,
// and mirrors no window.
#![tactic(auto)]

ghost use Rattle.std.specs.Prelude.{◌≡◌, ◌≤◌, length, take};
ghost use Rattle.model.specs.Limits.{slices_most};
ghost use Rattle.slices.specs.Moves.{is_before, later, before_of, is_outer, is_inner, moves_of};

use model::{SLICES_MOST, Slice};

// How often a job moves in each window, from its last slice to its first too: from one kind to the other, and between cores of one kind.
#[derive(Clone, Copy, PartialEq, Eq)]
pub struct Moves {
    pub outer: u32,
    pub inner: u32,
}

// Whether row `r` is of the same job as `s` and starts before it.
fn is_before(s: Slice, r: Slice) -> bool
    ensures { result ≡ is_before s r }
{
    r.job == s.job && r.start < s.start
}

// Which starts later, the slice found so far or row `r`. Of equal starts the first found stays.
fn later(found: Slice, r: Slice) -> Slice
    ensures { result ≡ later found r }
{
    if found.start < r.start { r } else { found }
}

// The slice before `s` among rows: the last that starts before it, or the last of all, since the window repeats.
fn before_of(rows: &[Slice], s: Slice) -> Option<Slice>
    ensures { result ≡ before_of rows.now s }
{
    let earlier = rows
        .iter()
        .copied()
        .filter(|r| is_before(s, *r))
        .reduce(later);
    let last = rows
        .iter()
        .copied()
        .filter(|r| r.job == s.job)
        .reduce(later);
    earlier.or(last)
}

// Whether `s` is an outer move from the slice before it.
fn is_outer(before: Option<Slice>, s: Slice) -> bool
    ensures { result ≡ is_outer before s }
{
    before.is_some_and(|b| b.kind != s.kind)
}

// Whether `s` is an inner move from the slice before it.
fn is_inner(before: Option<Slice>, s: Slice) -> bool
    ensures { result ≡ is_inner before s }
{
    before.is_some_and(|b| b.kind == s.kind && b.core != s.core)
}

// The moves of a job by rows.
fn count_moves(rows: &[Slice], job: u8) -> Moves
    requires { length rows.now ≤ slices_most }
    ensures { result ≡ moves_of rows.now job }
{
    let mut outer = 0;
    let mut inner = 0;
    for s in rows {
        if s.job == job {
            let before = before_of(rows, *s);
            outer += u32::from(is_outer(before, *s));
            inner += u32::from(is_inner(before, *s));
        }
    }
    Moves { outer, inner }
}

// The moves of a job in each window, by the first `n` rows of a table, or by all of them where it has no `n` rows. It takes
// every `n`, so that no caller has to show that there are so many rows.
pub fn moves_of(rows: [Slice; SLICES_MOST], n: usize, job: u8) -> Moves
    ensures { result ≡ moves_of (take n rows) job }
{
    count_moves(&rows[..n.min(rows.len())], job)
}
