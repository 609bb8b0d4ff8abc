// Place after place: where the locator is 0, a byte may be wrong, and the values tell by how much. The locator is
// divided by x + the locator of the place, and what is left is 0 at the places of the wrong bytes that are left. If it
// still is 0 at this place, it is divided once more. The first byte of the word, which is the length byte, is not
// reached.
ghost use Rattle.std.specs.Prelude.{◌≡◌, ◌-◌, ◌≤◌, ◌<◌, length};
ghost use Rattle.repairing.specs.Inner.{Tells, Ready, Going, Moves, Ended};

use crate::dividing::divide;
use crate::values::{FIRST, correct};
use products::Tables;

// The degree that the locator has now, and the next place: how many bytes stand behind it. A slice that is cut to the
// degree would be no plainer: `visit` would hand it back beside the place, and `scan` would lend it anew in each turn.
#[derive(Clone, Copy, Debug, PartialEq, Eq)]
pub(crate) struct Next {
    pub(crate) degree: usize,
    pub(crate) place: usize,
}

// What the byte at a place is wrong by, if the locator was 0 there and v is the quotient, with the value y there.
fn error_at(tables: &Tables, s: &[u8; 32], v: &[u8], y: u8, place: usize) -> u8
    requires { (length v.now ≤ 32) × ((0 < y) × (place < 255)) }
    ensures { Tells s.now v.now y place result }
{
    let whole = tables.times_power(y, FIRST * place % 255);
    tables.ratio(tables.combine(s, v, 0), whole)
}

// One place looked at, or the locator made shorter there.
fn visit(tables: &Tables, w: &mut [u8], s: &mut [u8; 32], v: &mut [u8], at: Next) -> Next
    requires { Ready w.old v.old at.degree at.place }
    ensures { Moves w.old s.old v.old at.degree at.place
        w.new s.new v.new result.degree result.place }
{
    let Next { degree, place } = at;
    let k = 11 * place % 255;
    if tables.value_at(&v[..=degree], k) != 0 {
        return Next {
            degree,
            place: place + 1,
        };
    }
    divide(tables, &mut v[..degree], k);
    let y = tables.value_at(&v[..degree], k);
    if y == 0 {
        return Next {
            degree: degree - 1,
            place,
        };
    }
    let e = error_at(tables, s, &v[..degree], y, place);
    correct(tables, w, s, place, e);
    Next {
        degree: degree - 1,
        place: place + 1,
    }
}

// All places but the last, which is that of the first byte.
pub(crate) fn scan(tables: &Tables, w: &mut [u8], s: &mut [u8; 32], v: &mut [u8])
    requires { (0 < length v.old) × Going w.old w.old s.old v.old (length v.old - 1) 0 }
    ensures { Ended w.old w.new s.new }
{
    let last = w.len() - 1;
    let mut at = Next {
        degree: v.len() - 1,
        place: 0,
    };
    // a `while`, since a turn goes on by one place or makes the degree less
    while at.place < last && 0 < at.degree {
        at = visit(tables, w, s, v, at);
    }
}
