// The sync search.
ghost use Rattle.std.specs.Prelude.{◌≡◌, [], ◌∷◌};
ghost use Rattle.sync.specs.SyncSearch.{search_of};
ghost use Rattle.kusikhut.specs.Told.{told, told_sync};

use crate::telling::{Row, tell_at};
use sync::Found;

impl Row<2> for Found {
    ghost shows = { λ found. found.place ∷ found.tried ∷ [] };

    fn row(self) -> [u64; 2] {
        [self.place as u64, self.tried as u64]
    }
}

pub fn kusikhut_search(s: &[u8], k: usize, allowance: usize, v: &mut [u64; 2]) -> u8
    ensures { told result v.new ≡ told_sync (search_of s.now k allowance) }
{
    tell_at(sync::search(s, k, allowance), 1, v)
}
