// The one word at a chip.
ghost use Rattle.std.specs.Prelude.{◌≡◌};
ghost use Rattle.line.specs.Codes.{code_of};
ghost use Rattle.line.specs.OneWord.{word_read};

use crate::codes::Code;
use answers::Refusal;

// The byte, half-byte or bit that the word at chip `at` stands for. The refusals in their order: 10, 1, 6.
pub fn word_at(code: Code, s: &[u8], at: usize) -> Result<u8, Refusal>
    ensures { result ≡ word_read (code_of code) s.now at }
{
    if !chips::in_range(s, at) {
        return Err(Refusal::OutOfRange);
    }
    let w = code.width();
    if 8 * s.len() - at < w {
        return Err(Refusal::Short);
    }
    code.word_value(chips::narrow(s, at, w))
        .ok_or(Refusal::BadWord(0))
}
