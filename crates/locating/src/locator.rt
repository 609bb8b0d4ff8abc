// Polynomials whose first coefficient but 0 is 1.
ghost use Rattle.std.specs.Prelude.{◌++◌, ◌∷◌, [], ◌≡◌, ◌+◌, ◌≤◌, ◌<◌, drop};

// Such a polynomial, 17 coefficients from that of the power 16 on, and its degree.
#[derive(Clone, Copy, Debug, PartialEq, Eq)]
pub struct Locator {
    pub coefficients: [u8; 17],
    pub degree: usize,
    ghost within: { degree ≤ 16 },
}

impl Locator {
    // Multiplies by x: all coefficients move up by one.
    pub(crate) fn raise(&mut self)
        requires { self.old.degree < 16 }
        ensures coefficients { self.new.coefficients ≡ drop 1 self.old.coefficients ++ (0 ∷ []) }
        ensures degree { self.new.degree ≡ self.old.degree + 1 }
    {
        self.coefficients.copy_within(1.., 0);
        self.coefficients[16] = 0;
        self.degree += 1;
    }
}
