// The text: lines of hexadecimal, one record a line (docs/SPEC.md, "The text"). What the records are stands in records.rt, and writer.rt writes a
// plan's lines and a refusal's line into a text that the caller lends. Crate reader reads an input.
#![tactic(auto)]

mod records;
mod writer;

pub use records::{
    ANSWER_MOST, BOARD, BOARD_SIZE, COST_DIGITS, COUNTS, COUNTS_SIZE, HEAD_DIGITS, JOB, JOB_SIZE,
    SHARE, SHARE_SIZE, SLICE, SLICE_SIZE,
};
pub use writer::{slice_record, write_plan, write_refusal};
