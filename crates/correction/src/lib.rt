// Correction bytes for update frames (EN 13757-4:2019, 12.8; document 02, 11/14).

#![tactic(auto)]

mod rows; // rows.rt: the table of the division, a row for each half-byte
mod division; // division.rt: check bytes, the remainder of a word's division by the generator
mod writing; // writing.rt: a frame with its correction, check bytes alone
mod header; // header.rt: the correction header

pub use division::checks;
pub use header::announced;
pub use writing::{check_bytes, write};

// The longest word (12.8.3.2: a block has 255 bytes, 32 of them check bytes).
pub const LONGEST: usize = 223;

// The check bytes of a word, the header that stands before them behind a frame (12.8.2), and both.
pub const CHECKS: usize = 32;

pub const HEADER: usize = 2;

pub const CORRECTION: usize = HEADER + CHECKS;
