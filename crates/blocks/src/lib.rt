// Blocks, spans of bytes with their checks: walks that judge, take out, write and change (EN 13757-4:2019, 12.2 to
// 12.4; document 01, "Frames", "Changing a byte").
// Callers have judged the lengths before they walk (docs/DECISIONS.md, D23).
#![tactic(auto)]

ghost use Rattle.std.specs.Prelude.{◌≡◌, ◌∷◌, ◌++◌, ◌+◌, ◌/◌, ◌%◌, ◌≤◌, ◌<◌, ◌^◌, length, take, drop, set};
ghost use Rattle.std.proofs.lemmas.List.Edits.{sets};
ghost use Rattle.blocks.specs.Places.{place_in, check_in, check_at, mended};
ghost use Rattle.blocks.specs.Spans.{sealed, framed, payload, block_ok, first_wrong, size_of, spans};

// Where spans end, which is all that differs between the formats here: a frame's first span has at most `first` bytes,
// each later one at most `later`.
#[derive(Clone, Copy, Debug, PartialEq, Eq)]
pub struct Cut {
    pub first: usize,
    pub later: usize,
    ghost some: { (0 < first) × (0 < later) },
}

// The bytes of `from`, stored from the first byte of `to` on. Sixteen at a time are one load and one store.
// `copy_from_slice` between two lent slices of a length that the compiler does not know calls `memmove`, which the
// library does not need from outside (D141). Each `while` turn takes sixteen bytes, so it does not count by one.
pub fn copy(from: &[u8], to: &mut [u8])
    requires { length from.now ≤ length to.old }
    ensures { to.new ≡ sets to.old 0 from.now }
{
    let n = from.len();
    let mut i: usize = 0;
    while 16 <= n - i {
        to[i..i + 16].copy_from_slice(&from[i..i + 16]);
        i += 16;
    }
    for k in i..n {
        to[k] = from[k];
    }
}

// The check that stands at place `at`: high byte first (12.2).
fn check_at(s: &[u8], at: usize) -> u16
    requires { at + 2 ≤ length s.now }
    ensures { result ≡ check_at s.now at }
{
    u16::from_be_bytes([s[at], s[at + 1]])
}

// A check written from place `at` on.
fn put_check(s: &mut [u8], at: usize, check: u16)
    requires { at + 2 ≤ length s.old }
    ensures { s.new ≡ set (set s.old at (check / 256)) (at + 1) (check % 256) }
{
    s[at..at + 2].copy_from_slice(&check.to_be_bytes());
}

// Is the check behind the k bytes from place `at` right?
fn block_ok(s: &[u8], at: usize, k: usize) -> bool
    requires { at + k + 2 ≤ length s.now }
    ensures { result ≡ block_ok k (drop at s.now) }
{
    let end = at + k;
    check_at(s, end) == crc::check(&s[at..end])
}

// The check of the k bytes from place `at`, written behind them.
fn seal_at(out: &mut [u8], at: usize, k: usize)
    requires { at + k + 2 ≤ length out.old }
    ensures { out.new
        ≡ take at out.old
        ++ (sealed (take k (drop at out.old)) ++ drop (at + k + 2) out.old) }
{
    let end = at + k;
    let check = crc::check(&out[at..end]);
    put_check(out, end, check);
}

// The first span: the byte l, then k bytes of c, then their check.
fn put_first(l: u8, c: &[u8], k: usize, out: &mut [u8])
    requires { (k ≤ length c.now) × (k + 3 ≤ length out.old) }
    ensures { out.new ≡ sealed (l ∷ take k c.now) ++ drop (k + 3) out.old }
{
    out[0] = l;
    copy(&c[..k], &mut out[1..k + 1]);
    seal_at(out, 0, k + 1);
}

// A later span: the bytes of `piece`, then their check, written from place `at`.
fn put_span(piece: &[u8], out: &mut [u8], at: usize)
    requires { at + length piece.now + 2 ≤ length out.old }
    ensures { out.new
        ≡ take at out.old
        ++ (sealed piece.now ++ drop (at + length piece.now + 2) out.old) }
{
    let k = piece.len();
    copy(piece, &mut out[at..at + k]);
    seal_at(out, at, k);
}

// Place `byte` becomes v, and the check at place `check` follows from the one that stood there: the bytes between the
// changed one and the end of its span are counted, not read.
#[tactic(auto, unfolding(crate::specs::Places::updated_at, crate::specs::Places::mended))]
fn mend(s: &mut [u8], byte: usize, check: usize, distance: usize, v: u8)
    requires { (byte + 1 + distance ≡ check) × ((check + 2 ≤ length s.old) × (distance ≤ 125)) }
    ensures { s.new ≡ mended s.old byte check v }
{
    let old_check = check_at(s, check);
    let old = s[byte];
    let new_check = crc::update(old_check, old, v, distance).unwrap();
    s[byte] = v;
    put_check(s, check, new_check);
}

// Where a byte of the payload stands: its span, and how many bytes of the span stand before it.
#[derive(Clone, Copy)]
struct Spot {
    start: usize,
    length: usize,
    offset: usize,
}

// Each `while` takes a whole span in a turn, so none of them counts by one.
impl Cut {
    // The first wrong block among those of the t bytes that s begins with, counted from 1; None if all are right.
    pub fn first_wrong(self, s: &[u8], t: usize) -> Option<usize>
        requires { size_of (spans self.first self.later t) ≤ length s.now }
        ensures { result ≡ first_wrong 1 (spans self.first self.later t) s.now }
    {
        let mut at: usize = 0;
        let mut most = self.first;
        let mut left = t;
        let mut block: usize = 1;
        while 0 < left {
            let k = most.min(left);
            if !block_ok(s, at, k) {
                return Some(block);
            }
            at += k + 2;
            most = self.later;
            left -= k;
            block += 1;
        }
        None
    }

    // The n bytes behind the first one, without the checks, copied to the start of out. The first span is one byte
    // shorter then, and its walk starts at place 1.
    pub fn take_out(self, s: &[u8], n: usize, out: &mut [u8])
        requires { (1 < self.first)
            × ((n ≤ length out.old) × (size_of (spans self.first self.later (n + 1)) ≤ length s.now)) }
        ensures { out.new
            ≡ drop 1 (payload (spans self.first self.later (n + 1)) s.now) ++ drop n out.old }
    {
        let mut at: usize = 1;
        let mut most = self.first - 1;
        let mut done: usize = 0;
        let mut left = n;

        // No `for` over `out.chunks_mut(..)`: behind such a loop nothing but the length of out is known.
        while 0 < left {
            let k = most.min(left);
            copy(&s[at..at + k], &mut out[done..done + k]);
            at += k + 2;
            most = self.later;
            done += k;
            left -= k;
        }
    }

    // The byte l and the bytes c, cut into spans, each with its check, written from the start of out.
    pub fn put_all(self, l: u8, c: &[u8], out: &mut [u8])
        requires { (1 < self.first) × (size_of (spans self.first self.later (length c.now + 1)) ≤ length out.old) }
        ensures { out.new
            ≡ framed (spans self.first self.later (length c.now + 1)) (l ∷ c.now)
            ++ drop (size_of (spans self.first self.later (length c.now + 1))) out.old }
    {
        let first = (self.first - 1).min(c.len());
        put_first(l, c, first, out);
        let mut at = first + 3;
        for piece in c[first..].chunks(self.later) {
            put_span(piece, out, at);
            at += piece.len() + 2;
        }
    }

    // The place of byte j of t bytes of payload: whole spans are passed until it is in the one at hand.
    fn locate(self, t: usize, j: usize) -> Spot
        requires { (j < t) × (size_of (spans self.first self.later t) < 2 ^ 64) }
        ensures { (result.start + result.offset ≡ place_in (spans self.first self.later t) j)
            × (result.start + result.length ≡ check_in (spans self.first self.later t) j) }
    {
        let mut at: usize = 0;
        let mut most = self.first;
        let mut left = t;
        let mut i = j;
        while most <= i {
            at += most + 2;
            left -= most;
            i -= most;
            most = self.later;
        }
        Spot {
            start: at,
            length: most.min(left),
            offset: i,
        }
    }

    // Byte j of the payload becomes v, and the check over it is mended.
    pub fn set_byte(self, s: &mut [u8], t: usize, j: usize, v: u8)
        requires { (self.first ≤ 126)
            × ((self.later ≤ 126) × ((j < t) × (size_of (spans self.first self.later t) ≤ length s.old))) }
        ensures { s.new
            ≡ mended s.old (place_in (spans self.first self.later t) j) (check_in (spans self.first self.later t) j) v }
    {
        let Spot {
            start,
            length,
            offset,
        } = self.locate(t, j);
        let distance = length - 1 - offset;
        mend(s, start + offset, start + length, distance, v);
    }
}
