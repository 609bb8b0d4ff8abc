// The channels of mode N and the lines of a band: each number is told exactly in its case.
ghost use Rattle.std.specs.Prelude.{[], ◌∷◌, ◌↔◌, ◌⊎◌, ◌≡◌, ℕ, ◌≤◌, ◌<◌, length, slice_get, Some, None};
ghost use Rattle.channels.specs.Table21.{channels_of, quarters_of};
ghost use Rattle.channels.specs.Plan.{float};
ghost use Rattle.channels.specs.Listing.{band_of, lines_of, channel_line};
ghost use Rattle.kusikhut.specs.Told.{told};

use channels::Band;
use kusikhut::{kusikhut_band_line, kusikhut_centre};

fn no_channel(index: usize, channel: usize, centre: &mut [f64; 1]) -> u8
    ensures { (told result centre.new ≡ told 13 (float 0 ∷ [])) ↔ (channels_of index ≤ channel) }
{
    kusikhut_centre(index, channel, centre)
}

fn a_channel(index: usize, channel: usize, centre: &mut [f64; 1]) -> u8
    ensures { (told result centre.new ≡ told 0 (float (quarters_of index channel) ∷ []))
        ↔ (channel < channels_of index) }
{
    kusikhut_centre(index, channel, centre)
}

fn no_line(band: &[u8], k: usize, results: &mut [u64; 3]) -> u8
    ensures { (told result results.new ≡ told 13 (0 ∷ 0 ∷ 0 ∷ []))
        ↔ (length (lines_of (band_of band.now)) ≤ k) }
{
    kusikhut_band_line(band, k, results)
}

fn a_line(band: &[u8], k: usize, results: &mut [u64; 3]) -> u8
    ensures { (i c h : ℕ) → (told result results.new ≡ told 0 (i ∷ c ∷ h ∷ []))
        ↔ (slice_get (lines_of (band_of band.now)) k ≡ Some (channel_line i c h)) }
{
    kusikhut_band_line(band, k, results)
}

fn no_band(s: &[u8]) -> Option<Band>
    ensures { (result ≡ None)
        ↔ ((x : ℕ) → 65 ≤ x → x ≤ 68 → ((s.now ≡ x ∷ []) ⊎ (s.now ≡ x ∷ 10 ∷ [])) → ⊥) }
{
    channels::band_of(s)
}
