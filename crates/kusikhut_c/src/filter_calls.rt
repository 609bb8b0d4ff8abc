// The meter filter.
ghost use Rattle.std.specs.Prelude.{◌≡◌};
ghost use Rattle.filter.specs.Listed.{verdict_of};
ghost use Rattle.kusikhut.specs.Told.{told, told_verdict};

#[unsafe(no_mangle)]
pub extern "C" fn kusikhut_filter(
    entries: &[[u8; 8]; 16],
    count: usize,
    s: &[u8],
    v: &mut [u64; 1],
) -> u8
    ensures { told result v.new ≡ told_verdict (verdict_of entries.now count s.now) }
{
    kusikhut::kusikhut_filter(entries, count, s, v)
}
