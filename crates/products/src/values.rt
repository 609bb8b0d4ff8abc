// Values of polynomials at powers of alpha, and values combined by a polynomial.
ghost use Rattle.std.specs.Prelude.{◌≡◌, ◌+◌, ◌≤◌, ◌<◌, length};
ghost use Rattle.field.specs.Field.{alpha_to};
ghost use Rattle.field.specs.Polynomials.{value_at};
ghost use Rattle.locators.specs.Combinations.{combined};

use crate::tables::Tables;

impl Tables {
    // The value of w at alpha^k, by Horner's rule, the first byte being that of the highest power.
    pub fn value_at(&self, w: &[u8], k: usize) -> u8
        requires { k < 255 }
        ensures { result ≡ value_at (alpha_to k) w.now }
    {
        w.iter().fold(0, |value, b| self.times_power(value, k) ^ *b)
    }

    // The values s from place i on, each times the coefficient of v's power 0, 1 and so on, added up.
    pub fn combine(&self, s: &[u8; 32], v: &[u8], i: usize) -> u8
        requires { i + length v.now ≤ 32 }
        ensures { result ≡ combined s.now v.now i }
    {
        v.iter()
            .rev()
            .zip(&s[i..])
            .fold(0, |sum, (c, x)| sum ^ self.times(*c, *x))
    }
}
