// The sync search.
ghost use Rattle.std.specs.Prelude.{◌≡◌};
ghost use Rattle.sync.specs.SyncSearch.{search_of};
ghost use Rattle.kusikhut.specs.Told.{told, told_sync};

#[unsafe(no_mangle)]
pub extern "C" fn kusikhut_search(s: &[u8], k: usize, allowance: usize, v: &mut [u64; 2]) -> u8
    ensures { told result v.new ≡ told_sync (search_of s.now k allowance) }
{
    kusikhut::kusikhut_search(s, k, allowance, v)
}
