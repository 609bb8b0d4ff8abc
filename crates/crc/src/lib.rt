// The block check and its update (EN 13757-4:2019, 12.5.7; document 01, "Frames", "Changing a byte"; document 02,
// 3/14).
#![tactic(auto)]

ghost use Rattle.std.specs.Prelude.{◌≡◌, ◌≤◌};
ghost use Rattle.crc.specs.Check.{reg_of, check_of};
ghost use Rattle.crc.specs.CheckUpdate.{updating, farthest, Mends};

use answers::Refusal;
use shares::share;
use words::{group, lead, left_by, onward};

mod shares; // shares.rt: what one byte adds to the check, whatever the others are
mod words; // words.rt: sixteen bytes at once

// At most so many bytes stand between a changed byte and the end of its span.
const FARTHEST: usize = 125;

// The register after the bytes of `s`. The bytes that fill no group of sixteen are the first ones, since zeros could
// stand before them. A span of sixteen bytes, as nearly all of format A are, is one group.
fn register(s: &[u8]) -> u16
    ensures { result ≡ reg_of 0 s.now }
{
    if s.len() == 16 {
        return left_by(group(s));
    }
    let (head, groups) = s.split_at(s.len() % 16);
    let mut v = lead(head);
    for g in groups.chunks_exact(16) {
        v = group(g) ^ onward(v);
    }
    left_by(v)
}

// The check of the bytes of `s`: of a block, a slice from its first byte to its last.
pub fn check(s: &[u8]) -> u16
    ensures { result ≡ check_of s.now }
{
    register(s) ^ 0xFFFF
}

// The check of a span after one of its bytes was changed from `old` to `new`. `distance` counts the bytes between it
// and the end of the span; no other byte of the span is looked at.
pub fn update(old_check: u16, old: u8, new: u8, distance: usize) -> Result<u16, Refusal>
    ensures settles { result ≡ updating old_check old new distance }
    ensures mends { distance ≤ farthest → Mends old_check old new distance result }
{
    if FARTHEST < distance {
        return Err(Refusal::OutOfRange);
    }
    Ok(old_check ^ share(old ^ new, distance))
}
