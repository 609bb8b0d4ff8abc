// Whether a proposal is taken.
ghost use Rattle.std.specs.Prelude.{◌≡◌, ◌+◌, ◌≤◌, length, take};
ghost use Rattle.ground.specs.Apart.{apart};
ghost use Rattle.proposals.specs.Received.{received};
ghost use Rattle.proposals.specs.Proposals.{compared, proposal_of};

use crate::words::{code_word, differing, size_in};
use answers::Refusal;
use correction::{CHECKS, CORRECTION, HEADER};
use frame::Format;

// Among words of one length so many wrong bytes leave no doubt which code word was sent (12.8.3.2: E = 16).
const MOST: usize = 16;

// In how many bytes the proposal p differs from what was received: frame and check bytes, the header is skipped.
fn count(p: &[u8], s: &[u8], size: usize) -> usize
    requires { (size ≤ 223) × ((size + 32 ≤ length p.now) × (size + 34 ≤ length s.now)) }
    ensures { result ≡ apart (received size s.now) (take (size + 32) p.now) }
{
    let checks = size + HEADER;
    differing(&s[..size], &p[..size])
        + differing(&s[checks..checks + CHECKS], &p[size..size + CHECKS])
}

// Where both have all their bytes: first whether it is a code word, then how far it is.
#[tactic(auto, unfolding(proposals::specs::Proposals::compared))]
fn compare(p: &[u8], s: &[u8], size: usize) -> Result<usize, Refusal>
    requires { (size ≤ 223) × ((size + 32 ≤ length p.now) × (size + 34 ≤ length s.now)) }
    ensures { result ≡ compared (received size s.now) (take (size + 32) p.now) }
{
    if !code_word(&p[..size + CHECKS]) {
        return Err(Refusal::NotCode);
    }
    let d = count(p, s, size);
    if d > MOST {
        return Err(Refusal::TooFar);
    }
    Ok(d)
}

// Judges the proposal p, a frame and its check bytes, for the received bytes s, in which the header stands between the
// two. Either may be longer.
#[tactic(auto, unfolding(proposals::specs::Proposals::proposal_of, proposals::specs::Proposals::proposal_by))]
pub fn judge(f: Format, p: &[u8], s: &[u8]) -> Result<usize, Refusal>
    ensures { result ≡ proposal_of f p.now s.now }
{
    let size = size_in(f, p)?.size;
    if p.len() < size + CHECKS || s.len() < size + CORRECTION {
        return Err(Refusal::Short);
    }
    compare(p, s, size)
}
