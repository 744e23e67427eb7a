// The planner from text to text, and what C gets of it: crate clampfern_c exports the functions `clampfern_..` of this crate. entries.rt has those of
// the tick handler.
#![tactic(auto)]

ghost use Rattle.std.specs.Prelude.{◌<◌};
ghost use Rattle.model.specs.Columns.{jobs_in};
ghost use Rattle.model.specs.Limits.{jobs_most, slices_most};
ghost use Rattle.model.specs.Refusal.{number_of, place_of};
ghost use Rattle.model.specs.declared.Refusal.TheVariants.{TooShort};
ghost use Rattle.columns.specs.Plan.{plan_of};
ghost use Rattle.text.specs.Output.{refused_text, Writes};
ghost use Rattle.clampfern.specs.Answer.{lines_for, answer_text, Entered, Answered};

mod entries;

use columns::Counts;
pub use entries::{clampfern_pack, clampfern_packed_tick, clampfern_tick};
use model::{Board, JOBS_MOST, Refusal, SLICES_MOST};
use text::ANSWER_MOST;

// The answer to a text by value: its lines, and how many bytes they have. All other bytes are zero. An array with a size beside it, and no String,
// since memory is fixed: nothing here allocates.
#[derive(Clone, Copy)]
pub struct AnswerLines {
    pub bytes: [u8; ANSWER_MOST],
    pub size: usize,
}

// The line of a refusal, which has one byte for the place. Here a place is a line of a text, 66 at most, or a job of a set, so it always fits.
fn write_refused(refusal: Refusal, out: &mut [u8]) -> Result<usize, Refusal>
    requires { place_of refusal < 256 }
    ensures { Writes TooShort out.old out.new (refused_text (number_of refusal) (place_of refusal)) result }
{
    text::write_refusal(model::number(refusal), model::place(refusal) as u8, out)
}

// The lines of the plan of a set in columns, or of its refusal. The plan's own columns are long enough for every set.
// Here and below, columns have a count beside them, as `columns::plan_columns` and `text::write_plan` take them.
fn answer_in(
    board: Board,
    first: &[u32; JOBS_MOST],
    second: &[u32; JOBS_MOST],
    n: usize,
    out: &mut [u8],
) -> Result<usize, Refusal>
    ensures { Writes TooShort out.old out.new (lines_for (plan_of board n (jobs_in n first.now second.now) jobs_most slices_most)) result }
{
    let mut shares1 = [0u16; JOBS_MOST];
    let mut shares2 = [0u16; JOBS_MOST];
    let mut slices = [0u64; SLICES_MOST];
    let planned = columns::plan_columns(
        board,
        first,
        second,
        n,
        &mut shares1,
        &mut shares2,
        &mut slices,
    );
    match planned {
        Ok(Counts { jobs, slices: rows }) => {
            text::write_plan(&shares1, &shares2, jobs, &slices, rows, out)
        }
        Err(refusal) => write_refused(refusal, out),
    }
}

// The answer to a text, into a lent text: the lines of its plan, or the line of its refusal.
pub fn plan_text(text: &[u8], out: &mut [u8]) -> Result<usize, Refusal>
    ensures { Writes TooShort out.old out.new (answer_text text.now) result }
{
    let mut first = [0u32; JOBS_MOST];
    let mut second = [0u32; JOBS_MOST];
    match reader::read(text, &mut first, &mut second) {
        Ok(head) => answer_in(head.board, &first, &second, head.jobs, out),
        Err(refusal) => write_refused(refusal, out),
    }
}

// The same for C: how many bytes were written, and 0 where `out` is too short for the lines, and then no byte of it changed.
pub fn clampfern_plan(text: &[u8], out: &mut [u8]) -> usize
    ensures { Entered text.now out.old out.new result }
{
    plan_text(text, out).unwrap_or(0)
}

// The same by value, for a caller that lends nothing: an answer always fits, so there is no case of a text that is too short.
pub fn answer(text: &[u8]) -> AnswerLines
    ensures { Answered text.now result }
{
    let mut bytes = [0u8; ANSWER_MOST];
    let size = clampfern_plan(text, &mut bytes);
    AnswerLines { bytes, size }
}
