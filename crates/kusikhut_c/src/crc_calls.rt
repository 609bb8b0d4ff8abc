// The block check and its update.
ghost use Rattle.std.specs.Prelude.{◌≡◌};
ghost use Rattle.crc.specs.Check.{check_of};
ghost use Rattle.crc.specs.CheckUpdate.{updating};
ghost use Rattle.kusikhut.specs.Told.{told, told_number};

#[unsafe(no_mangle)]
pub extern "C" fn kusikhut_check(s: &[u8]) -> u16
    ensures { result ≡ check_of s.now }
{
    kusikhut::kusikhut_check(s)
}

#[unsafe(no_mangle)]
pub extern "C" fn kusikhut_update(check: u16, old: u8, new: u8, k: usize, v: &mut [u64; 1]) -> u8
    ensures { told result v.new ≡ told_number (updating check old new k) }
{
    kusikhut::kusikhut_update(check, old, new, k, v)
}
