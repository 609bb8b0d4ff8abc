// One meter of the store: its twenty bytes (document 02, 9/14, "On disk").
ghost use Rattle.std.specs.Prelude.{◌≡◌, [], ◌∷◌, ◌++◌, ◌+◌, ◌≤◌, length, drop};
ghost use Rattle.std.proofs.lemmas.List.Edits.{sets};
ghost use Rattle.sessions.specs.StoreFile.{meter_bytes, meter_in, right_meter};

use sessions::Meter;

// Bytes of a meter; the last of them is its unsure mark.
pub(crate) const METER: usize = 20;

pub(crate) const MARK: usize = METER - 1;

// Whether the twenty bytes from `at` on are a meter: every length byte is right, every value in its list.
pub(crate) fn right_meter(s: &[u8], at: usize) -> bool
    requires { at + 20 ≤ length s.now }
    ensures { result ≡ right_meter (drop at s.now) }
{
    matches!(
        &s[at..at + METER],
        [
            8,
            _,
            _,
            _,
            _,
            _,
            _,
            _,
            _,
            1,
            0..=5,
            1,
            0..=1,
            4,
            _,
            _,
            _,
            _,
            1,
            0..=1
        ]
    )
}

// The meter in the twenty bytes from `at` on.
pub(crate) fn meter_at(s: &[u8], at: usize) -> Meter
    requires { at + 20 ≤ length s.now }
    ensures { result ≡ meter_in (drop at s.now) }
{
    Meter {
        address: address::key_at(s, at + 1),
        mode: modes::mode_of(s[at + 10]),
        format: modes::format_of(s[at + 12]),
        number: address::four_at(s, at + 14),
        unsure: s[at + 19] == 1,
    }
}

// Stores a meter as twenty bytes from `at` on.
pub(crate) fn put_meter(out: &mut [u8], at: usize, m: Meter)
    requires { at + 20 ≤ length out.old }
    ensures { out.new ≡ sets out.old at (meter_bytes m) }
{
    out[at] = 8;
    address::put_key(out, at + 1, m.address);
    address::put_four(
        out,
        at + 9,
        1,
        modes::mode_number(m.mode),
        1,
        modes::format_number(m.format),
    );
    out[at + 13] = 4;
    address::put_number(out, at + 14, m.number);
    out[at + 18] = 1;
    out[at + MARK] = u8::from(m.unsure);
}

// Stores a meter's bytes as they stand from `at` on, and the unsure mark behind them.
pub(crate) fn put_unsure(out: &mut [u8], at: usize, unmarked: &[u8])
    requires { (length unmarked.now ≡ 19) × (at + 20 ≤ length out.old) }
    ensures { out.new ≡ sets out.old at (unmarked.now ++ (1 ∷ [])) }
{
    out[at..at + MARK].copy_from_slice(unmarked);
    out[at + MARK] = 1;
}
