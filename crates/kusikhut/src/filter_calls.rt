// The meter filter.
ghost use Rattle.std.specs.Prelude.{◌≡◌, cond, [], ◌∷◌};
ghost use Rattle.filter.specs.Listed.{verdict_of};
ghost use Rattle.kusikhut.specs.Told.{told, told_verdict};

use crate::telling::{Row, tell};

// Whether the meter is wanted.
impl Row<1> for bool {
    ghost shows = { λ wanted. cond wanted 1 0 ∷ [] };

    fn row(self) -> [u64; 1] {
        [u64::from(self)]
    }
}

pub fn kusikhut_filter(entries: &[[u8; 8]; 16], count: usize, s: &[u8], v: &mut [u64; 1]) -> u8
    ensures { told result v.new ≡ told_verdict (verdict_of entries.now count s.now) }
{
    tell(filter::wanted(*entries, count, s), v)
}
