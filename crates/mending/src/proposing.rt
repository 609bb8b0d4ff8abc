// The proposal for what was received.
ghost use Rattle.std.specs.Prelude.{◌++◌, ◌≡◌, ◌+◌, ◌≤◌, length, drop};
ghost use Rattle.answers.specs.Outcome.{leaving};
ghost use Rattle.proposals.specs.Received.{received};
ghost use Rattle.proposals.specs.Proposals.{proposing_of};

use crate::several::mend_sixteen;
use crate::single::mend_one;
use crate::words::size_in;
use answers::Refusal;
use correction::{CHECKS, CORRECTION, HEADER};
use frame::Format;

// The received word, from the first byte of out on.
fn put_received(s: &[u8], size: usize, out: &mut [u8])
    requires { (size + 34 ≤ length s.now) × (size + 32 ≤ length out.old) }
    ensures { out.new ≡ received size s.now ++ drop (size + 32) out.old }
{
    let checks = size + HEADER;
    blocks::copy(&s[..size], &mut out[..size]);
    out[size..size + CHECKS].copy_from_slice(&s[checks..checks + CHECKS]);
}

// Places the received word of s in out, if s has all of it and out has room; bytes of out after it stay.
#[tactic(auto, unfolding(proposals::specs::Proposals::proposing_of, proposals::specs::Proposals::proposing_by))]
fn receive(f: Format, s: &[u8], out: &mut [u8]) -> Result<usize, Refusal>
    ensures { leaving result out.new ≡ proposing_of 0 f s.now out.old }
{
    let size = size_in(f, s)?.size;
    if s.len() < size + CORRECTION {
        return Err(Refusal::Short);
    }
    if out.len() < size + CHECKS {
        return Err(Refusal::NoRoom);
    }
    put_received(s, size, out);
    Ok(size + CHECKS)
}

// Proposes, for the received bytes s, the word in which one wrong byte behind the length byte is mended, or the
// received word if there is no such byte; bytes of out after it stay. s is a frame, a header of two bytes and the check
// bytes, and may be longer.
pub fn propose_one(f: Format, s: &[u8], out: &mut [u8]) -> Result<usize, Refusal>
    ensures { leaving result out.new ≡ proposing_of 1 f s.now out.old }
{
    let n = receive(f, s, out)?;
    mend_one(&mut out[..n]);
    Ok(n)
}

// As `propose_one`, but with up to 16 wrong bytes behind the length byte mended: all that the code can tell
// (12.8.3.2: E = 16). What the two share is `receive`: they differ in the mender, and this one may leave a word changed
// that it did not mend, so that the received word is placed again.
pub fn propose(f: Format, s: &[u8], out: &mut [u8]) -> Result<usize, Refusal>
    ensures { leaving result out.new ≡ proposing_of 16 f s.now out.old }
{
    let n = receive(f, s, out)?;
    if !mend_sixteen(&mut out[..n]) {
        put_received(s, n - CHECKS, out);
    }
    Ok(n)
}
