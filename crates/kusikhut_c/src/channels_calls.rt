// Mode N: rows, centres and the lines of a band.
ghost use Rattle.std.specs.Prelude.{◌≡◌, [], ◌∷◌};
ghost use Rattle.channels.specs.Plan.{row_of, centre_of};
ghost use Rattle.channels.specs.Listing.{band_of, line_at};
ghost use Rattle.kusikhut.specs.Told.{told, told_centre, told_line};

#[unsafe(no_mangle)]
pub extern "C" fn kusikhut_row(index: usize, v: &mut [f64; 3])
    ensures { v.new ≡ (row_of index).centre ∷ (row_of index).spacing ∷ (row_of index).tolerance ∷ [] }
{
    kusikhut::kusikhut_row(index, v);
}

#[unsafe(no_mangle)]
pub extern "C" fn kusikhut_centre(index: usize, channel: usize, v: &mut [f64; 1]) -> u8
    ensures { told result v.new ≡ told_centre (centre_of index channel) }
{
    kusikhut::kusikhut_centre(index, channel, v)
}

#[unsafe(no_mangle)]
pub extern "C" fn kusikhut_band_line(s: &[u8], k: usize, v: &mut [u64; 3]) -> u8
    ensures { told result v.new ≡ told_line (line_at (band_of s.now) k) }
{
    kusikhut::kusikhut_band_line(s, k, v)
}
