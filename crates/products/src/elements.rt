// Products and quotients of elements.
ghost use Rattle.std.specs.Prelude.{◌≡◌, ◌<◌};
ghost use Rattle.field.specs.Field.{mul, alpha_to};

use crate::tables::Tables;

impl Tables {
    pub fn times(&self, a: u8, b: u8) -> u8
        ensures { result ≡ mul a b }
    {
        self.powers[self.logs[a as usize] as usize + self.logs[b as usize] as usize]
    }

    // a times alpha^k.
    pub fn times_power(&self, a: u8, k: usize) -> u8
        requires { k < 255 }
        ensures { result ≡ mul a (alpha_to k) }
    {
        self.powers[self.logs[a as usize] as usize + k]
    }

    // The element that times b is a.
    pub fn ratio(&self, a: u8, b: u8) -> u8
        requires { 0 < b }
        ensures { mul result b ≡ a }
    {
        self.powers[self.logs[a as usize] as usize + 255 - self.logs[b as usize] as usize]
    }
}
