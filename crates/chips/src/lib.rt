// A chip buffer: its limit, and its chips as one number (document 01, "Chips and line codes").
#![tactic(auto)]

ghost use Rattle.std.specs.Prelude.{◌≡◌, ◌+◌, ◌*◌, ◌≤◌, ◌<◌, length};
ghost use Rattle.chips.specs.Chips.{word_at, chip_count, room_limit, in_range};
ghost use Rattle.chips.specs.Packing.{bytes_at};

// A received chip buffer has at most so many bytes (house).
pub const LIMIT: usize = 1024;

// Whether the buffer is not too long and the place `at` not behind it: all else is document 01's refusal 10.
pub fn in_range(s: &[u8], at: usize) -> bool
    ensures { result ≡ in_range s.now at }
{
    s.len() <= LIMIT && at <= 8 * s.len()
}

// The 32 chips of the four bytes from q on.
fn four(s: &[u8], q: usize) -> usize
    requires { q + 4 ≤ length s.now }
    ensures { (result ≡ word_at s.now (8 * q) 32) × (result < 4294967296) }
{
    u32::from_be_bytes([s[q], s[q + 1], s[q + 2], s[q + 3]]) as usize
}

// The 64 chips from byte q on where fewer than eight bytes are left: those, and 0 behind them.
fn last(s: &[u8], q: usize) -> usize
    requires { (q < length s.now) × (length s.now < q + 8) }
    ensures { result ≡ word_at s.now (8 * q) 64 }
{
    let rest = &s[q..];
    let mut bytes = [0u8; 8];
    bytes[..rest.len()].copy_from_slice(rest);
    usize::from_be_bytes(bytes)
}

// The 64 chips from byte q on as one number, first chip highest; behind the end every chip is 0.
pub fn window(s: &[u8], q: usize) -> usize
    ensures { result ≡ word_at s.now (8 * q) 64 }
{
    if s.len() <= q {
        return 0;
    }
    if s.len() - q < 8 {
        return last(s, q);
    }
    (four(s, q) << 32) + four(s, q + 4)
}

// Half a window: the 32 chips from byte q on. Where few chips are wanted the compiler keeps four bytes one load; of
// eight it would load those that it needs one by one.
pub fn half(s: &[u8], q: usize) -> usize
    ensures { result ≡ word_at s.now (8 * q) 32 }
{
    if s.len() <= q {
        return 0;
    }
    if s.len() - q < 4 {
        return last(s, q) >> 32;
    }
    four(s, q)
}

// The w chips at place `at` as one number: a window that begins with the byte of `at` holds them.
pub fn word(s: &[u8], at: usize, w: usize) -> usize
    requires { (1 ≤ w) × (w ≤ 57) }
    ensures { result ≡ word_at s.now at w }
{
    (window(s, at / 8) << (at % 8)) >> (64 - w)
}

// The same for at most nine chips that are all there. They lie in the byte of the first of them and in that of the
// last, so nothing has to be tested; where the two are one byte, its second copy is cut off.
pub fn narrow(s: &[u8], at: usize, w: usize) -> usize
    requires { ((1 ≤ w) × (w ≤ 9)) × ((length s.now ≤ room_limit) × (at + w ≤ chip_count s.now)) }
    ensures { result ≡ word_at s.now at w }
{
    // no `from_be_bytes`: the two bytes are apart, and turning them cost a byte of NRZ a third (docs/LOOK-BACK.md, d4)
    let two = u16::from(s[at / 8]) * 256 + u16::from(s[(at + w - 1) / 8]);
    usize::from((two << (at % 8)) >> (16 - w))
}

// The chips from place `at` on as bytes, as many as `room` holds, where they are all there. The eight of a byte lie in
// two bytes as for `narrow`; from byte to byte these move on by one, so that the compiler takes sixteen at once (D143).
pub fn bytes(s: &[u8], at: usize, room: &mut [u8])
    requires { (length s.now ≤ room_limit) × (at + 8 * length room.old ≤ chip_count s.now) }
    ensures { room.new ≡ bytes_at s.now at (length room.old) }
{
    let high = at / 8;
    let low = (at + 7) / 8;
    for k in 0..room.len() {
        let two = u16::from(s[high + k]) * 256 + u16::from(s[low + k]);
        room[k] = ((two << (at % 8)) >> 8) as u8;
    }
}
