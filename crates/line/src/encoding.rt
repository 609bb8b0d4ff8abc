// Bytes, encoded into chips.
ghost use Rattle.std.specs.Prelude.{◌≡◌, ◌*◌, ◌^◌, ◌<◌, length};
ghost use Rattle.answers.specs.Outcome.{leaving};
ghost use Rattle.chips.specs.Chips.{gather};
ghost use Rattle.line.specs.Codes.{code_of};
ghost use Rattle.line.specs.Encoding.{encoding, encoded_size, encoded};
ghost use Rattle.line.specs.Inner.{unit_of, sent_chip};

use crate::codes::Code;
use crate::digits;
use answers::Refusal;

// How many bytes the code words of n bytes take.
fn encoded_size(code: Code, n: usize) -> usize
    requires { 2 * n < 2 ^ 64 }
    ensures { result ≡ encoded_size (code_of code) n }
{
    match code {
        Code::Nrz => n,
        Code::ThreeOfSix => n + n.div_ceil(2),
        Code::Manchester => 2 * n,
    }
}

// The chips of the byte at i as one number; behind the last byte every chip is 0.
fn coded_byte(code: Code, s: &[u8], i: usize) -> usize
    ensures { result ≡ gather (sent_chip (code_of code) s.now) (i * unit_of (code_of code))
        (unit_of (code_of code)) }
{
    if s.len() <= i {
        return 0;
    }
    let b = code.bits();
    let w = code.width();
    let x = usize::from(s[i]);
    let mut all: usize = 0;
    for k in 0..code.per_byte() {
        let word = code.word_of(digits::part(x, b, 8 - b - k * b));
        all = digits::join(all, w, word);
    }
    all
}

// Fills `out` with the code words of `s`, eight chips at a time. `held` has `count` chips that are not written yet;
// where fewer than eight are left, the chips of the next byte are taken in.
fn pour(code: Code, s: &[u8], out: &mut [u8])
    requires { length out.old ≡ encoded_size (code_of code) (length s.now) }
    ensures { out.new ≡ encoding (code_of code) s.now }
{
    let unit = code.unit();
    let mut held: usize = 0;
    let mut count: usize = 0;
    let mut i: usize = 0;
    for byte in out.iter_mut() {
        if count < 8 {
            held = digits::join(held, unit, coded_byte(code, s, i));
            count += unit;
            i += 1;
        }
        count -= 8;
        *byte = digits::part(held, 8, count) as u8;
        held = digits::low(held, count);
    }
}

// Writes the code words of `s` into `out`, from its first byte on; refusal 4. `s` may have any length: a slice has
// fewer than 2 ^ 63 bytes, so that the size never wraps.
#[tactic(auto, unfolding(crate::specs::Encoding::encoded))]
pub fn encode(code: Code, s: &[u8], out: &mut [u8]) -> Result<usize, Refusal>
    ensures { leaving result out.new ≡ encoded (code_of code) s.now out.old }
{
    let size = encoded_size(code, s.len());
    if out.len() < size {
        return Err(Refusal::NoRoom);
    }
    pour(code, s, &mut out[..size]);
    Ok(size)
}
