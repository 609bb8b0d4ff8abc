// Check bytes: the remainder of a word, with 32 zero bytes behind it, divided by the generator.
ghost use Rattle.std.specs.Prelude.{◌≡◌, ◌∷◌, ◌++◌, [], ◌<◌, ◌%◌, length, drop, take};
ghost use Rattle.ground.specs.Sums.{xors};
ghost use Rattle.codewords.specs.CheckBytes.{generator, rem_of, checks_of};
ghost use Rattle.correction.specs.Inner.{bytes_of, row_at};

use crate::CHECKS;
use crate::rows::Rows;
use std::ops::BitXor;

// Its 32 bytes, highest power first, as four words.
#[derive(Clone, Copy, Debug, PartialEq, Eq)]
pub(crate) struct Remainder {
    pub(crate) a: u64,
    pub(crate) b: u64,
    pub(crate) c: u64,
    pub(crate) d: u64,
}

impl BitXor for Remainder {
    type Output = Remainder;

    ghost bitxor_gives = { λ m n r. bytes_of r ≡ xors (bytes_of m) (bytes_of n) };

    fn bitxor(self, n: Remainder) -> Remainder {
        Remainder {
            a: self.a ^ n.a,
            b: self.b ^ n.b,
            c: self.c ^ n.c,
            d: self.d ^ n.d,
        }
    }
}

impl Remainder {
    const ZERO: Remainder = Remainder {
        a: 0,
        b: 0,
        c: 0,
        d: 0,
    };

    // All moves up by two bytes, and zeros come in.
    fn moved_up(self) -> Remainder
        ensures { bytes_of result ≡ drop 2 (bytes_of self) ++ (0 ∷ 0 ∷ []) }
    {
        Remainder {
            a: (self.a << 16) + (self.b >> 48),
            b: (self.b << 16) + (self.c >> 48),
            c: (self.c << 16) + (self.d >> 48),
            d: self.d << 16,
        }
    }

    // The 32 bytes, highest power first.
    fn to_bytes(self) -> [u8; CHECKS]
        ensures { result ≡ bytes_of self }
    {
        let mut bytes = [0; CHECKS];
        bytes[..8].copy_from_slice(&self.a.to_be_bytes());
        bytes[8..16].copy_from_slice(&self.b.to_be_bytes());
        bytes[16..24].copy_from_slice(&self.c.to_be_bytes());
        bytes[24..].copy_from_slice(&self.d.to_be_bytes());
        bytes
    }
}

impl Rows {
    // Row t, as the remainder that it is.
    fn row(&self, t: usize) -> Remainder
        requires { t < 64 }
        ensures { result ≡ row_at self.now.rows.now t }
    {
        let [a, b, c, d] = self.rows[t];
        Remainder { a, b, c, d }
    }

    // The check bytes of two bytes, a row for each half-byte. As usize and not as u8 they take an eighth less time.
    fn checks_of_two(&self, p: usize, q: usize) -> Remainder
        requires { (p < 256) × (q < 256) }
        ensures { bytes_of result ≡ checks_of (p ∷ q ∷ []) }
    {
        let first = self.row(p / 16) ^ self.row(16 + p % 16);
        let second = self.row(32 + q / 16) ^ self.row(48 + q % 16);
        first ^ second
    }

    // Two more bytes of the word: what falls out at the top, the two bytes added, comes back as check bytes.
    fn two_in(&self, m: Remainder, x: u8, y: u8) -> Remainder
        ensures { bytes_of result ≡ rem_of generator (bytes_of m) (x ∷ y ∷ []) }
    {
        let p = (m.a >> 56) as usize ^ x as usize;
        let q = (m.a >> 48) as usize % 256 ^ y as usize;
        m.moved_up() ^ self.checks_of_two(p, q)
    }

    // The remainder of a word.
    fn divide(&self, w: &[u8]) -> Remainder
        ensures { bytes_of result ≡ checks_of w.now }
    {
        let mut m = Remainder::ZERO;
        let mut rest = w;
        // A word of odd length begins as if a zero byte stood before it.
        if w.len() % 2 == 1 {
            m = self.two_in(m, 0, w[0]);
            rest = &w[1..];
        }
        while let [x, y, behind @ ..] = rest {
            m = self.two_in(m, *x, *y);
            rest = behind;
        }
        m
    }
}

// The check bytes of a word of any length, that of the highest power first.
pub fn checks(w: &[u8]) -> [u8; CHECKS]
    ensures { result ≡ checks_of w.now }
{
    Rows::new().divide(w).to_bytes()
}
