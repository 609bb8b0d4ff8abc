// A frame with its correction behind it, and check bytes alone.
ghost use Rattle.std.specs.Prelude.{◌++◌, ◌≡◌, ◌+◌, ◌≤◌, length, take, drop};
ghost use Rattle.answers.specs.Outcome.{leaving};
ghost use Rattle.codewords.specs.Corrections.{corrected, correcting_of, checking_of};

use crate::division::checks;
use crate::{CHECKS, CORRECTION, HEADER, LONGEST};
use answers::Refusal;
use frame::Format;

// The header of Reed-Solomon (255, 223): its ID, 1, three times (12.8.2.2, Tables 39 and 40).
const REED_SOLOMON: u16 = 0x0421;

// The frame, the header and the check bytes, where they have room.
fn put_corrected(s: &[u8], size: usize, out: &mut [u8])
    requires { (size ≤ length s.now) × (size + 34 ≤ length out.old) }
    ensures { out.new
        ≡ corrected (take size s.now) ++ drop (size + 34) out.old }
{
    let checks_from = size + HEADER;
    blocks::copy(&s[..size], &mut out[..size]);
    out[size..checks_from].copy_from_slice(&REED_SOLOMON.to_le_bytes());
    out[checks_from..checks_from + CHECKS].copy_from_slice(&checks(&s[..size]));
}

// Writes the frame that s begins with, and its correction behind it; bytes of out after that stay.
#[tactic(auto, unfolding(codewords::specs::Corrections::correcting_of, codewords::specs::Corrections::put_corrected))]
pub fn write(f: Format, s: &[u8], out: &mut [u8]) -> Result<usize, Refusal>
    ensures { leaving result out.new ≡ correcting_of f s.now out.old }
{
    let size = frame::judge(f, s)?.size;
    if size > LONGEST {
        return Err(Refusal::TooLong);
    }
    if out.len() < size + CORRECTION {
        return Err(Refusal::NoRoom);
    }
    put_corrected(s, size, out);
    Ok(size + CORRECTION)
}

// The check bytes of any word alone, from the first byte of out on.
#[tactic(auto, unfolding(codewords::specs::Corrections::checking_of))]
pub fn check_bytes(w: &[u8], out: &mut [u8]) -> Result<usize, Refusal>
    ensures { leaving result out.new ≡ checking_of w.now out.old }
{
    if w.len() > LONGEST {
        return Err(Refusal::TooLong);
    }
    if out.len() < CHECKS {
        return Err(Refusal::NoRoom);
    }
    out[..CHECKS].copy_from_slice(&checks(w));
    Ok(CHECKS)
}
