// The tick handler: whether a table of slices can be run, which job runs on a core at a tick, and the position in the window, which goes round.
// docs/SPEC.md, "The tick handler". A table is a column of numbers, a slice each, as `columns::plan_columns` writes it.
// It calls nothing of the planner. proofs/Window.antt shows what the planner's promises make of it: over a window each job gets its share.
#![tactic(auto)]

ghost use Rattle.std.specs.Prelude.{◌≡◌, ◌<◌, map, length, position, find};
ghost use Rattle.std.specs.List.{range_with_len};
ghost use Rattle.model.specs.Packed.{slice_in};
ghost use Rattle.model.specs.Refusal.{says};
ghost use Rattle.handler.specs.Check.{is_row, is_inside, is_bad, collides, meets, check_of};
ghost use Rattle.handler.specs.Running.{cores_in, is_beyond, is_at, asked_of};
ghost use Rattle.handler.specs.Position.{next_of, MovesOn};

use model::{Board, Refusal, Slice, WINDOW_MOST};

// A tick of the window.
#[derive(Clone, Copy, PartialEq, Eq)]
pub struct Position {
    pub tick: u32,
}

// Whether a number is that of a slice.
#[tactic(auto, unfolding(crate::specs::Check::is_row))]
fn is_row(packed: u64) -> bool
    ensures { result ≡ is_row packed }
{
    packed < 72057594037927936 && matches!(packed / 256 % 256, 1 | 2)
}

// Whether a slice lies inside the window, with a length above 0, on a core that the board has.
fn is_inside(board: Board, s: Slice) -> bool
    ensures { result ≡ is_inside board s }
{
    0 < s.length
        && u32::from(s.start) + u32::from(s.length) <= board.window
        && u32::from(s.core) < model::cores(board, s.kind)
}

// Whether a row cannot be run.
fn is_bad(board: Board, packed: u64) -> bool
    ensures { result ≡ is_bad board packed }
{
    !(is_row(packed) && is_inside(board, Slice::from(packed)))
}

// The lowest row that cannot be run.
fn bad_row(board: Board, rows: &[u64]) -> Option<usize>
    ensures { result ≡ position (is_bad board) rows.now }
{
    rows.iter().position(|&row| is_bad(board, row))
}

// Whether two rows are on one core and share a tick.
fn collide(a: u64, b: u64) -> bool
    ensures { result ≡ collides (slice_in a) (slice_in b) }
{
    let s = Slice::from(a);
    let t = Slice::from(b);
    s.kind == t.kind
        && s.core == t.core
        && u32::from(s.start) < u32::from(t.start) + u32::from(t.length)
        && u32::from(t.start) < u32::from(s.start) + u32::from(s.length)
}

// Whether a row collides with an earlier one.
fn meets(rows: &[u64], later: usize) -> bool
    requires { later < length rows.now }
    ensures { result ≡ meets rows.now later }
{
    let row = rows[later];
    rows[..later].iter().any(|&earlier| collide(row, earlier))
}

// The lowest row that collides with an earlier one.
fn collision(rows: &[u64]) -> Option<usize>
    ensures { result ≡ find (meets rows.now) (range_with_len 0 (length rows.now)) }
{
    (0..rows.len()).find(|&later| meets(rows, later))
}

// Whether a table can be run on a board.
#[tactic(auto, using(crate::proofs::Found::bad_told, crate::proofs::Found::later_told, crate::proofs::Found::passes_told))]
pub fn check_table(board: Board, rows: &[u64]) -> Result<(), Refusal>
    ensures { says result ≡ check_of board rows.now }
{
    legal::check_board(board)?;
    if let Some(bad) = bad_row(board, rows) {
        return Err(Refusal::BadRow(bad));
    }
    if let Some(later) = collision(rows) {
        return Err(Refusal::Collides(later));
    }
    Ok(())
}

// The cores of a kind by its number, and none of any other number: the calls of the C interface pass a kind as any number, and 11 refuses those.
fn cores_in(board: Board, kind: u32) -> u32
    ensures { result ≡ cores_in board kind }
{
    match kind {
        1 => board.first,
        2 => board.second,
        _ => 0,
    }
}

// Whether a tick is not in the window, or the board lacks the kind or the core.
pub fn is_beyond(board: Board, tick: u32, kind: u32, core: u32) -> bool
    ensures { result ≡ is_beyond board tick kind core }
{
    board.window <= tick || cores_in(board, kind) <= core
}

// Whether a row is on a core and runs at a tick. Tick, kind and core are three numbers here and below, as the public calls take them.
fn is_at(s: Slice, tick: u32, kind: u32, core: u32) -> bool
    ensures { result ≡ is_at tick kind core s }
{
    u32::from(u8::from(s.kind)) == kind
        && u32::from(s.core) == core
        && u32::from(s.start) <= tick
        && tick < u32::from(s.start) + u32::from(s.length)
}

// The row that runs on a core at a tick.
fn row_at(rows: &[u64], tick: u32, kind: u32, core: u32) -> Option<Slice>
    ensures { result ≡ find (is_at tick kind core) (map slice_in rows.now) }
{
    rows.iter()
        .map(|&row| Slice::from(row))
        .find(|s| is_at(*s, tick, kind, core))
}

// Which job runs at a tick on a core, or none; a table that cannot be run, or a tick or a core that is not there, is refused.
pub fn job_at(
    board: Board,
    rows: &[u64],
    tick: u32,
    kind: u32,
    core: u32,
) -> Result<Option<u8>, Refusal>
    ensures { says result ≡ asked_of board rows.now tick kind core }
{
    check_table(board, rows)?;
    if is_beyond(board, tick, kind, core) {
        return Err(Refusal::Beyond);
    }
    Ok(row_at(rows, tick, kind, core).map(|row| row.job))
}

// A position by value, one tick on: after the last tick of the window comes 0. Where it is refused there is no next one.
#[tactic(auto, unfolding(crate::specs::Position::next_of))]
pub fn moved_on(window: u32, tick: u32) -> Result<u32, Refusal>
    ensures { says result ≡ next_of window tick }
{
    if legal::is_outside(WINDOW_MOST, window) {
        return Err(Refusal::Window);
    }
    if window <= tick {
        return Err(Refusal::Beyond);
    }
    Ok(if tick + 1 == window { 0 } else { tick + 1 })
}

// The same of a position that the caller lends: where it is refused, the position stays.
pub fn move_on(window: u32, position: &mut Position) -> Result<(), Refusal>
    ensures { MovesOn window position.old.tick result position.new.tick }
{
    position.tick = moved_on(window, position.tick)?;
    Ok(())
}
