// Proposals for received words, judged and made (EN 13757-4:2019, 12.8; document 02, 12/14).

#![tactic(auto)]

mod words; // words.rt: sizes, differing bytes, the test of a code word, the remainder
mod judging; // judging.rt: whether a proposal is taken
mod single; // single.rt: a word with one wrong byte, mended
mod several; // several.rt: a word with up to 16 wrong bytes, mended
mod proposing; // proposing.rt: the proposal for what was received

pub use judging::judge;
pub use proposing::{propose, propose_one};
