// A checked table in bytes that is cheap to ask at each tick: docs/SPEC.md, "The tick handler". The bytes are the records that the text's lines
// spell, the board's and then one for each row. `pack_table` checks a table and writes them, once; `packed_tick` looks over them once a tick and
// checks their form alone. proofs/Same.antt shows that what was packed is asked as the table is.
#![tactic(auto)]

ghost use Rattle.std.specs.Prelude.{false, ◌≡◌, ◌+◌, ◌*◌, ◌<◌, ltb, length, MatchOption};
ghost use Rattle.model.specs.Packed.{slices_in};
ghost use Rattle.model.specs.Refusal.{says};
ghost use Rattle.text.specs.Records.{board_form, slice_form, size_of, board_in};
ghost use Rattle.packed.specs.Packed.{board_record, records_of, is_slice, packed_asked, Packs};
ghost use Rattle.packed.specs.Asking.{is_headed, Parts, is_there, rows_say};

use model::{Board, Refusal, Slice};
use text::{BOARD_SIZE, SLICE, SLICE_SIZE};

// The first byte of the board's record, as it is stored: crate text has it as a reader matches it. It is cast, since a constant's value has no call.
const BOARD: u8 = text::BOARD as u8;

// The bytes of a board's record, and of a row's.
type Head = [u8; BOARD_SIZE];

type Row = [u8; SLICE_SIZE];

// What packed bytes say of a core at a tick. They are not checked as a table again: only their form is.
// No line is to blame where it is not right: refusal 9 names line 0 here. Tick, kind and core are three numbers, as the C interface passes them.
#[tactic(auto, using(crate::proofs::Parted::asked_not))]
pub fn packed_tick(table: &[u8], tick: u32, kind: u32, core: u32) -> Result<Option<u8>, Refusal>
    ensures { says result ≡ packed_asked table.now tick kind core }
{
    let Some((head, rows)) = parts(table) else {
        return Err(Refusal::Record(0));
    };
    let answer = look_over(rows, tick, kind, core)?;
    if handler::is_beyond(board_in(head), tick, kind, core) {
        return Err(Refusal::Beyond);
    }
    Ok(answer)
}

// Checks a table and writes it in packed bytes at the front of `table`, whose other bytes stay. Where it is refused every byte stays.
#[tactic(auto, using(crate::proofs::Stored::board_fits, crate::proofs::Stored::pack_short, crate::proofs::Stored::pack_all))]
pub fn pack_table(board: Board, rows: &[u64], table: &mut [u8]) -> Result<usize, Refusal>
    ensures { Packs board rows.now table.old table.new result }
{
    handler::check_table(board, rows)?;
    if is_short(table.len(), rows.len()) {
        return Err(Refusal::TooShort);
    }
    let size = BOARD_SIZE + SLICE_SIZE * rows.len();
    table[..BOARD_SIZE].copy_from_slice(&head_of(board));
    put_rows(rows, &mut table[BOARD_SIZE..size]);
    Ok(size)
}

// The parts of bytes that begin with a board's record and have as many behind it as some rows have.
#[tactic(auto, using(crate::proofs::Parted::parts_are))]
fn parts(table: &[u8]) -> Option<(&Head, &[Row])>
    ensures { MatchOption result (false ≡ is_headed table.now) (λ p. Parts table.now p.0.now p.1.now) }
{
    let (head, rows) = table.split_first_chunk::<BOARD_SIZE>()?;
    let (rows, rest) = rows.as_chunks::<SLICE_SIZE>();
    if head[0] == BOARD && rest.is_empty() {
        Some((head, rows))
    } else {
        None
    }
}

// What rows say. The first that is there is the answer, and the form of every row is looked at.
#[tactic(auto, using(crate::proofs::Looked::all_more, crate::proofs::Looked::job_here, crate::proofs::Looked::job_before))]
fn look_over(rows: &[Row], tick: u32, kind: u32, core: u32) -> Result<Option<u8>, Refusal>
    ensures { says result ≡ rows_say tick kind core rows.now }
{
    let mut answer = None;
    for row in rows {
        if !is_slice(row) {
            return Err(Refusal::Record(0));
        }
        if is_there(row, tick, kind, core) {
            answer = answer.or(Some(row[1]));
        }
    }
    Ok(answer)
}

// Whether a row is the record of a slice, of kind 1 or 2: the numbers are the text's, a byte each.
#[tactic(auto, using(crate::proofs::Bytes::slice_is))]
fn is_slice(row: &Row) -> bool
    ensures { result ≡ is_slice row.now }
{
    row[0] == SLICE && matches!(row[2], 1 | 2)
}

// Whether a row is on a core and runs at a tick. The handler asks it of a slice: one would have to be made of the bytes, and its kind turned back.
// Its ticks are read only where its kind and core are those that are asked for: a table is asked at each tick, and other rows are passed over so.
#[tactic(auto, using(crate::proofs::Bytes::there_is))]
fn is_there(row: &Row, tick: u32, kind: u32, core: u32) -> bool
    ensures { result ≡ is_there tick kind core row.now }
{
    if u32::from(row[2]) != kind || u32::from(row[3]) != core {
        return false;
    }
    let start = pair(row[4], row[5]);
    start <= tick && tick < start + pair(row[6], row[7])
}

// The board of its record. It is no `From`, since neither type is of this crate.
#[tactic(auto, using(crate::proofs::Bytes::board_is))]
fn board_in(head: &Head) -> Board
    ensures { result ≡ board_in head.now }
{
    Board {
        window: pair(head[1], head[2]),
        first: u32::from(head[3]),
        second: u32::from(head[4]),
    }
}

// The number of two bytes, the high one first.
fn pair(high: u8, low: u8) -> u32
    ensures { (result ≡ 256 * high + low) × (result < 65536) }
{
    u32::from(u16::from_be_bytes([high, low]))
}

// Whether bytes are too few for a board and so many rows: by a division, since what they take may be too great for a number.
fn is_short(size: usize, rows: usize) -> bool
    ensures { result ≡ ltb size (size_of board_form + size_of slice_form * rows) }
{
    size < BOARD_SIZE || (size - BOARD_SIZE) / SLICE_SIZE < rows
}

// The record of a board that passed its checks: what is cast fits, as is asked for.
fn head_of(board: Board) -> Head
    requires { (board.window < 65536) × (board.first < 256) × (board.second < 256) }
    ensures { result ≡ board_record board }
{
    let [high, low] = (board.window as u16).to_be_bytes();
    [BOARD, high, low, board.first as u8, board.second as u8]
}

// The records of all rows, each in its own part of bytes that are as many as they take. A part's place is counted from its row, since std's
// `chunks_exact_mut` says nothing of what the bytes end as.
#[tactic(auto, using(crate::proofs::Stored::rows_more, text::proofs::PlanText::line_put))]
fn put_rows(rows: &[u64], bytes: &mut [u8])
    requires { length bytes.old ≡ size_of slice_form * length rows.now }
    ensures { bytes.new ≡ records_of (slices_in (length rows.now) rows.now) }
{
    for (i, &packed) in rows.iter().enumerate() {
        let at = SLICE_SIZE * i;
        bytes[at..at + SLICE_SIZE].copy_from_slice(&text::slice_record(Slice::from(packed)));
    }
}
