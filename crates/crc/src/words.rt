// Many bytes at once. The register after a span is what is left of the span's number, with sixteen digits behind it,
// when that is divided by the polynomial (12.5.7). Some powers of x leave the same as five powers below x^32: x^48
// leaves what x^19 + x^17 + x^15 + x^9 + 1 leaves. So a word of 32 digits with 48 behind it may be replaced by the sum
// of five shifted ones, which is below 2^64. But for x^16, no power that is used here leaves what fewer than five do.
ghost use Rattle.std.specs.Prelude.{◌≡◌, ◌∷◌, [], ℕ, ◌+◌, ◌*◌, ◌<◌, ◌≤◌, ◌^◌, length};
ghost use Rattle.std.specs.Int.Bits.{bit_xor};
ghost use Rattle.crc.specs.Check.{bits_in};
ghost use Rattle.crc.specs.Inner.{remainder, nested, Adds, folded};

// Fewer bytes than eight as one number, the first one highest.
fn number(s: &[u8]) -> u64
    requires { length s.now < 8 }
    ensures { Adds s.now 0 (length s.now) (bits_in 16 (remainder result)) × (result < 2 ^ (8 * length s.now)) }
{
    let mut w: u64 = 0;
    for b in s {
        w = w * 256 + u64::from(*b);
    }
    w
}

// Four bytes from place `at` on as one number, the first byte highest.
fn word(s: &[u8], at: usize) -> u64
    requires { at + 4 ≤ length s.now }
    ensures { Adds s.now at 4 (bits_in 16 (remainder result)) × (result < 2 ^ 32) }
{
    u64::from(u32::from_be_bytes([s[at], s[at + 1], s[at + 2], s[at + 3]]))
}

// A word with n digits behind it, where x^n leaves the same as five powers below x^32. They are named by what each has
// more than the next one, the lowest last: for x^48 the powers 19, 17, 15, 9 and 0 are a to e = 2, 2, 6, 9, 0. Then
// Horner's rule is five shifts. n stands only in the contract.
fn moved(w: u64, n: usize, a: u32, b: u32, c: u32, d: u32, e: u32) -> u64
    requires w_bound { (w < 2 ^ 32) × (a + b + c + d + e ≤ 31) }
    requires n_value { bits_in n 1 ≡ nested (e ∷ d ∷ c ∷ b ∷ a ∷ []) 1 }
    ensures result_value { remainder result ≡ bits_in n (remainder w) }
    ensures by_index { (j : ℕ) → w < 2 ^ j → result < 2 ^ (j + (a + b + c + d + e)) }
{
    ((((((((w << a) ^ w) << b) ^ w) << c) ^ w) << d) ^ w) << e
}

// Four words of four bytes each, one behind the other, and the sixteen digits of the register behind them.
fn four(p: u64, q: u64, r: u64, t: u64) -> u64
    requires { (p < 2 ^ 32) × ((q < 2 ^ 32) × ((r < 2 ^ 32) × (t < 2 ^ 32))) }
    ensures result_value { remainder result
        ≡ bit_xor
        (bit_xor (bit_xor (bits_in 112 (remainder p)) (bits_in 80 (remainder q))) (bits_in 48 (remainder r)))
        (bits_in 16 (remainder t)) }
    ensures upper_bound { result < folded }
{
    let p = moved(p, 112, 3, 6, 1, 9, 2); // x^112 = x^21 + x^18 + x^12 + x^11 + x^2
    let q = moved(q, 80, 3, 5, 1, 2, 4); // x^80 = x^15 + x^12 + x^7 + x^6 + x^4
    let r = moved(r, 48, 2, 2, 6, 9, 0); // x^48 = x^19 + x^17 + x^15 + x^9 + 1
    // x^16 = x^22 + x^6 + x^4 + x + 1: one shift would do, but then the compiler reads this word byte by byte
    let t = moved(t, 16, 16, 2, 3, 1, 0);
    p ^ q ^ r ^ t
}

// What a word becomes when sixteen bytes more stand behind it. Powers of x come round: x^128 times x^23 is x^151, which
// leaves 1. So the digits from x^23 on are brought down to the low end, and only those below it are moved.
pub(crate) fn onward(v: u64) -> u64
    ensures result_value { remainder result ≡ bits_in 128 (remainder v) }
    ensures upper_bound { result < folded }
{
    let low = moved(v % 0x80_0000, 128, 1, 2, 10, 4, 2); // x^128 = x^19 + x^18 + x^16 + x^6 + x^2
    (v >> 23) ^ low
}

// Sixteen bytes as one word.
pub(crate) fn group(s: &[u8]) -> u64
    requires { length s.now ≡ 16 }
    ensures adds { Adds s.now 0 16 (remainder result) }
    ensures upper_bound { result < folded }
{
    let p = word(s, 0);
    let q = word(s, 4);
    let r = word(s, 8);
    let t = word(s, 12);
    four(p, q, r, t)
}

// Fewer bytes than sixteen as one word: zeros in front of them change nothing.
pub(crate) fn lead(s: &[u8]) -> u64
    requires { length s.now < 16 }
    ensures adds { Adds s.now 0 (length s.now) (remainder result) }
    ensures upper_bound { result < folded }
{
    let rest = s.len() % 8;
    let w = number(&s[..rest]);
    let high = w >> 32;
    let low = w % 0x1_0000_0000;
    if s.len() < 8 {
        return four(0, 0, high, low);
    }
    let r = word(s, rest);
    let t = word(s, rest + 4);
    four(high, low, r, t)
}

// The register that a word leaves. Five shifts bring it down to forty digits. The lowest sixteen of them stay as they
// are; the table has what each of the three bytes above adds: byte j of them, counted from the lowest, uses number j of
// its row, counted from the low end.
#[inline(always)]
pub(crate) fn left_by(v: u64) -> u16
    requires { v < folded }
    ensures { result ≡ remainder v }
{
    let high = moved(v >> 40, 40, 12, 1, 7, 1, 1); // x^40 = x^22 + x^10 + x^9 + x^2 + x
    let u = (v % 0x100_0000_0000) ^ high;
    let mut sum = u;
    for j in 0..3u32 {
        let b = ((u >> (16 + 8 * j)) % 256) as u8;
        sum ^= checktable::row(b) >> (16 * j);
    }
    (sum % 65536) as u16
}
