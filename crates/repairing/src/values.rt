// The values of a word at the 32 roots.
ghost use Rattle.std.specs.Prelude.{◌≡◌, ◌-◌, ◌≤◌, ◌<◌, length};
ghost use Rattle.repairing.specs.Inner.{Held, Followed, added};

use products::Tables;
use std::array;

// The exponent of the first root: alpha^(11 * 112). The next ones are 11 more each.
pub(crate) const FIRST: usize = 1232;

// Those of a word with the remainder `rest`.
pub(crate) fn values(tables: &Tables, rest: &[u8]) -> [u8; 32]
    ensures { Held rest.now result }
{
    array::from_fn(|k| tables.value_at(rest, (FIRST + 11 * k) % 255))
}

// What becomes of them when e is added to the byte that has `place` bytes behind it.
fn follow(tables: &Tables, s: &mut [u8; 32], place: usize, e: u8)
    requires { place < 255 }
    ensures { Followed s.old place e s.new }
{
    let step = 11 * place % 255;
    let mut term = tables.times_power(e, FIRST * place % 255);
    for value in s.iter_mut() {
        *value ^= term;
        term = tables.times_power(term, step);
    }
}

// Adds e to the byte of w that has `place` bytes behind it, and lets the values follow.
pub(crate) fn correct(tables: &Tables, w: &mut [u8], s: &mut [u8; 32], place: usize, e: u8)
    requires { (place < length w.old) × (length w.old ≤ 255) }
    ensures added { w.new ≡ added w.old (length w.old - 1 - place) e }
    ensures followed { Followed s.old place e s.new }
{
    let i = w.len() - 1 - place;
    w[i] ^= e;
    follow(tables, s, place, e);
}
