// A word by its remainder.
ghost use Rattle.std.specs.Prelude.{cond, ◌≡◌, ◌≤◌, ◌<◌, length};
ghost use Rattle.proposals.specs.Near.{nearest_of};
ghost use Rattle.repairing.specs.Remains.{Remains};

use crate::scanning::scan;
use crate::values::values;
use locating::locate;
use products::Tables;

// Mends up to 16 wrong bytes of w, but not the first; rest has w's values at the roots. Where it answers no, no code
// word is near, and w is nothing to hand out.
pub fn repair(w: &mut [u8], rest: &[u8]) -> bool
    requires { (0 < length w.old) × ((length w.old ≤ 255) × Remains w.old rest.now) }
    ensures { (length w.new ≡ length w.old)
        × (cond result w.new w.old ≡ nearest_of 16 w.old) }
{
    let tables = Tables::new();
    let mut s = values(&tables, rest);
    let locator = locate(&tables, &s);
    let mut v = locator.coefficients;
    scan(&tables, w, &mut s, &mut v[16 - locator.degree..]);
    s == [0; 32]
}
