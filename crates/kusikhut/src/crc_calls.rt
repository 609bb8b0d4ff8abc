// The block check and its update.
ghost use Rattle.std.specs.Prelude.{◌≡◌};
ghost use Rattle.crc.specs.Check.{check_of};
ghost use Rattle.crc.specs.CheckUpdate.{updating};
ghost use Rattle.kusikhut.specs.Told.{told, told_number};

use crate::telling::tell;

pub fn kusikhut_check(s: &[u8]) -> u16
    ensures { result ≡ check_of s.now }
{
    crc::check(s)
}

pub fn kusikhut_update(check: u16, old: u8, new: u8, k: usize, v: &mut [u64; 1]) -> u8
    ensures { told result v.new ≡ told_number (updating check old new k) }
{
    tell(crc::update(check, old, new, k), v)
}
