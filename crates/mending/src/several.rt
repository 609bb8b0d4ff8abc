// A word with up to 16 wrong bytes, mended.
ghost use Rattle.std.specs.Prelude.{cond, ◌≡◌, ◌≤◌, length};
ghost use Rattle.proposals.specs.Near.{nearest_of};

use crate::words::remainder;
use correction::CHECKS;
use repairing::repair;

// Mends up to 16 wrong bytes, but not the first, which is the length byte. Where it answers no, no code word is near,
// and what it leaves is nothing to hand out. A code word is told early.
pub(crate) fn mend_sixteen(w: &mut [u8]) -> bool
    requires { (32 ≤ length w.old) × (length w.old ≤ 255) }
    ensures { (length w.new ≡ length w.old)
        × (cond result w.new w.old ≡ nearest_of 16 w.old) }
{
    let rest = remainder(w);
    if rest == [0; CHECKS] {
        return true;
    }
    repair(w, &rest)
}
