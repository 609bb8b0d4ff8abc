// Words: a frame and its 32 check bytes. That a word has these is a clause and no struct's fact: judging would need one
// that holds a `&`, mending one that holds a `&mut`.
ghost use Rattle.std.specs.Prelude.{IfOk, ◌≡◌, ◌≤◌, length};
ghost use Rattle.ground.specs.Apart.{apart};
ghost use Rattle.proposals.specs.Received.{size_in};
ghost use Rattle.proposals.specs.Near.{is_code_block};
ghost use Rattle.mending.specs.Inner.{remainder_of};

use answers::Refusal;
use correction::{CHECKS, LONGEST, checks};
use frame::{Format, Frame};

// The size of the frame by the length byte that s begins with.
#[tactic(auto, unfolding(proposals::specs::Received::size_in, proposals::specs::Received::not_too_long))]
pub(crate) fn size_in(f: Format, s: &[u8]) -> Result<Frame, Refusal>
    ensures value { result ≡ size_in f s.now }
    ensures most { IfOk result (λ a. a.size ≤ 223) }
{
    let length = s.first().ok_or(Refusal::Short)?;
    let frame = f.frame_size(*length)?;
    if frame.size > LONGEST {
        return Err(Refusal::TooLong);
    }
    Ok(frame)
}

// In how many bytes two words of one length differ. No word is longer than 255 bytes: a byte holds the count, and the
// compiler counts in sixteen places at once (D143).
pub(crate) fn differing(u: &[u8], v: &[u8]) -> usize
    requires { (length u.now ≡ length v.now) × (length u.now ≤ 255) }
    ensures { (result ≡ apart u.now v.now) × (result ≤ length u.now) }
{
    let mut count: u8 = 0;
    // by an index: `filter` branches at each byte that differs
    for i in 0..u.len() {
        count += u8::from(u[i] != v[i]);
    }
    usize::from(count)
}

// The remainder of a word: its check bytes and fresh ones, added. It has the word's values at the roots.
pub(crate) fn remainder(w: &[u8]) -> [u8; CHECKS]
    requires { 32 ≤ length w.now }
    ensures { result ≡ remainder_of w.now }
{
    let end = w.len() - CHECKS;
    let mut rest = checks(&w[..end]);
    // an index, since after a zip with `rest.iter_mut()` nothing is known of the bytes (tried)
    for i in 0..CHECKS {
        rest[i] ^= w[end + i];
    }
    rest
}

// Whether a word is a code word: its check bytes are worked out afresh and compared. No other 32 bytes would do.
pub(crate) fn code_word(w: &[u8]) -> bool
    requires { 32 ≤ length w.now }
    ensures { result ≡ is_code_block w.now }
{
    let end = w.len() - CHECKS;
    &w[end..] == checks(&w[..end]).as_slice()
}
