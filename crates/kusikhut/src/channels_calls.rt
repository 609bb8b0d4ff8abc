// Mode N: rows, centres and the lines of a band.
ghost use Rattle.std.specs.Prelude.{◌≡◌, [], ◌∷◌};
ghost use Rattle.channels.specs.Plan.{row_of, centre_of};
ghost use Rattle.channels.specs.Listing.{band_of, line_at};
ghost use Rattle.kusikhut.specs.Told.{told, told_centre, told_line};

use crate::telling::{Row, tell};
use answers::Refusal;
use channels::Line;

pub fn kusikhut_row(index: usize, v: &mut [f64; 3])
    ensures { v.new ≡ (row_of index).centre ∷ (row_of index).spacing ∷ (row_of index).tolerance ∷ [] }
{
    let r = channels::row_at(index);
    *v = [r.centre, r.spacing, r.tolerance];
}

pub fn kusikhut_centre(index: usize, channel: usize, v: &mut [f64; 1]) -> u8
    ensures { told result v.new ≡ told_centre (centre_of index channel) }
{
    let Some(khz) = channels::centre_of(index, channel) else {
        *v = [0.0];
        return Refusal::NoSuchChannel.number();
    };
    *v = [khz];
    0
}

impl Row<3> for Line {
    ghost shows = { λ l. l.index ∷ l.channel ∷ l.hertz ∷ [] };

    fn row(self) -> [u64; 3] {
        [self.index as u64, self.channel as u64, self.hertz]
    }
}

pub fn kusikhut_band_line(s: &[u8], k: usize, v: &mut [u64; 3]) -> u8
    ensures { told result v.new ≡ told_line (line_at (band_of s.now) k) }
{
    let line = channels::line_at(channels::band_of(s), k);
    tell(line.ok_or(Refusal::NoSuchChannel), v)
}
