// A polynomial divided by x + a power of alpha.
ghost use Rattle.std.specs.Prelude.{◌≡◌, ◌<◌};
ghost use Rattle.field.specs.Field.{alpha_to};
ghost use Rattle.locators.specs.Inner.{quotient};

use products::Tables;

// Where v is all of a polynomial but its last coefficient, the quotient by x + alpha^k is left there.
pub(crate) fn divide(tables: &Tables, v: &mut [u8], k: usize)
    requires { k < 255 }
    ensures { v.new ≡ quotient (alpha_to k) v.old }
{
    let mut value = 0;
    for x in v.iter_mut() {
        value = tables.times_power(value, k) ^ *x;
        *x = value;
    }
}
