// Proposals for received words, in formats A and B: judged, and made where one byte may be wrong or up to sixteen. `p`
// is a proposal.
ghost use Rattle.std.specs.Prelude.{◌≡◌};
ghost use Rattle.frame.specs.declared.Format.{Format};
ghost use Rattle.proposals.specs.Proposals.{proposal_of};
ghost use Rattle.kusikhut.specs.Told.{told, shown, told_number};
ghost use Rattle.kusikhut.specs.Calls.{call_propose};

use crate::telling::tell;
use frame::Format;

pub fn kusikhut_mending_judge_a(p: &[u8], s: &[u8], v: &mut [u64; 1]) -> u8
    ensures { told result v.new ≡ told_number (proposal_of Format.A p.now s.now) }
{
    tell(mending::judge(Format::A, p, s), v)
}

pub fn kusikhut_mending_judge_b(p: &[u8], s: &[u8], v: &mut [u64; 1]) -> u8
    ensures { told result v.new ≡ told_number (proposal_of Format.B p.now s.now) }
{
    tell(mending::judge(Format::B, p, s), v)
}

pub fn kusikhut_mending_propose_one_a(s: &[u8], d: &mut [u8], v: &mut [u64; 1]) -> u8
    ensures { shown result v.new d.new ≡ call_propose 1 Format.A s.now d.old }
{
    tell(mending::propose_one(Format::A, s, d), v)
}

pub fn kusikhut_mending_propose_one_b(s: &[u8], d: &mut [u8], v: &mut [u64; 1]) -> u8
    ensures { shown result v.new d.new ≡ call_propose 1 Format.B s.now d.old }
{
    tell(mending::propose_one(Format::B, s, d), v)
}

pub fn kusikhut_mending_propose_a(s: &[u8], d: &mut [u8], v: &mut [u64; 1]) -> u8
    ensures { shown result v.new d.new ≡ call_propose 16 Format.A s.now d.old }
{
    tell(mending::propose(Format::A, s, d), v)
}

pub fn kusikhut_mending_propose_b(s: &[u8], d: &mut [u8], v: &mut [u64; 1]) -> u8
    ensures { shown result v.new d.new ≡ call_propose 16 Format.B s.now d.old }
{
    tell(mending::propose(Format::B, s, d), v)
}
