// The calls on proposals, each under the name of its field on the page of demands; and a frame on its way through a
// cellar.
ghost use Rattle.std.specs.Prelude.{List, ◌≡◌, ℕ, Ok, Err};
ghost use Rattle.answers.specs.Outcome.{leaving};
ghost use Rattle.frame.specs.Reads.{reading_of};
ghost use Rattle.codewords.specs.Corrections.{correcting_of};
ghost use Rattle.demands.specs.Rules.{Judged, JudgedLent};
ghost use Rattle.demands.specs.MendingLadders as rule;

use answers::Refusal;
use frame::{Format, Frame};

fn judging_a_proposal(f: Format, p: &[u8], s: &[u8]) -> Result<usize, Refusal>
    ensures { Judged Err (rule.judge_rule f p.now s.now) result }
{
    mending::judge(f, p, s)
}

fn proposing_for_one_byte(f: Format, s: &[u8], d: &mut [u8]) -> Result<usize, Refusal>
    ensures { JudgedLent Err d.old (rule.propose_rule 1 f s.now d.old)
        (leaving result d.new) }
{
    mending::propose_one(f, s, d)
}

fn proposing_for_sixteen_bytes(f: Format, s: &[u8], d: &mut [u8]) -> Result<usize, Refusal>
    ensures { JudgedLent Err d.old (rule.propose_rule 16 f s.now d.old)
        (leaving result d.new) }
{
    mending::propose(f, s, d)
}

// A frame is sent with its correction bytes, one byte behind the length byte comes wrong, a proposal is made for what
// was received, judged, and read. That is just what reading the frame itself gives, whatever frame, place and byte
// (document 02, 12/14, end to end). `sent` and `proposal` are memory to work in. A frame that is refused correction
// bytes is read as it is; so is one where the place is the length byte's or lies behind what was written, or where a
// proposal has no room.
fn through_a_cellar(
    f: Format,
    s: &[u8],
    sent: &mut [u8],
    place: usize,
    byte: u8,
    proposal: &mut [u8],
    d: &mut [u8],
) -> Result<Frame, Refusal>
    ensures { leaving result d.new ≡ reading_of f s.now d.old }
{
    match correction::write(f, s, sent) {
        Err(_) => frame::read(f, s, d),
        Ok(size) => mended_and_read(f, s, sent, size, place, byte, proposal, d),
    }
}

// The second half of it: `sent` holds what was written.
fn mended_and_read(
    f: Format,
    s: &[u8],
    sent: &mut [u8],
    size: usize,
    place: usize,
    byte: u8,
    proposal: &mut [u8],
    d: &mut [u8],
) -> Result<Frame, Refusal>
    requires { (lent : List ℕ) × (leaving (Ok size) sent.old ≡ correcting_of f s.now lent) }
    ensures { leaving result d.new ≡ reading_of f s.now d.old }
{
    if place < 1 || size <= place || proposal.len() < size {
        return frame::read(f, s, d);
    }
    sent[place] = byte;
    mending::propose_one(f, sent, proposal)?;
    mending::judge(f, proposal, sent)?;
    frame::read(f, proposal, d)
}
