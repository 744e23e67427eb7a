// The records of the text, each once for the code: its first byte, and how many bytes it has. specs/Records.antt has the same for the definitions, by
// the fields of each. First bytes are numbers and no enum, since each is a byte that stands in a text. Those of an input have 32 bits, as the numbers
// have that a reader matches them with, and those of an answer 8, as they are written.
use model::{JOBS_MOST, SLICES_MOST};

pub const BOARD: u32 = 0x01;

pub const BOARD_SIZE: usize = 5;

pub const JOB: u32 = 0x02;

// The first byte with the allowed kinds, and each of the two costs. The reader cuts a line so.
const HEAD_SIZE: usize = 2;

const COST_SIZE: usize = 4;

pub const JOB_SIZE: usize = HEAD_SIZE + 2 * COST_SIZE;

pub const COUNTS: u8 = 0x10;

pub const COUNTS_SIZE: usize = 3;

pub const SHARE: u8 = 0x11;

pub const SHARE_SIZE: usize = 6;

pub const SLICE: u8 = 0x12;

pub const SLICE_SIZE: usize = 8;

pub const REFUSAL: u8 = 0x1f;

const REFUSAL_SIZE: usize = 3;

// Each byte is two digits.
pub const HEAD_DIGITS: usize = 2 * HEAD_SIZE;

pub const COST_DIGITS: usize = 2 * COST_SIZE;

// The bytes of a line: the digits of its record, and a line feed. Each is written out, since the value of a constant has no call yet.
pub const COUNTS_LINE: usize = 2 * COUNTS_SIZE + 1;

pub const SHARE_LINE: usize = 2 * SHARE_SIZE + 1;

pub const SLICE_LINE: usize = 2 * SLICE_SIZE + 1;

pub const REFUSAL_LINE: usize = 2 * REFUSAL_SIZE + 1;

// The most bytes that an answer has: the lines of a plan of all jobs and all slices. clampfern's theorem `answer-size` says that it is enough.
pub const ANSWER_MOST: usize = COUNTS_LINE + SHARE_LINE * JOBS_MOST + SLICE_LINE * SLICES_MOST;
