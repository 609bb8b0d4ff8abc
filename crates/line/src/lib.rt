// The three line codes (EN 13757-4:2019): NRZ (9.4.1), three-of-six (7.4.2) and Manchester (6.4.1, 6.4.2).

#![tactic(auto)]

mod codes; // codes.rt: what tells the codes apart: bits and chips of a word, its code words, and back
mod digits; // digits.rt: binary digits of a number, cut out and joined
mod words; // words.rt: the one word at a chip
mod decoding; // decoding.rt: a named number of bytes out of chips
mod encoding; // encoding.rt: bytes into chips

pub use codes::Code;
pub use decoding::decode;
pub use encoding::encode;
pub use words::word_at;
