// A word with one wrong byte, mended. The values of a code word at the roots are 0, so those of the received word are
// the wrong byte's alone: with p bytes behind it and e the sum of the wrong and the right byte, the value at root k is
// e alpha^(11 (112 + k) p). Two of them tell p and e. Whether a code word comes out is judged before it is handed out.
ghost use Rattle.std.specs.Prelude.{◌≡◌, ◌≤◌, ◌<◌, length};
ghost use Rattle.field.specs.Field.{alpha_to};
ghost use Rattle.field.specs.Polynomials.{value_at};
ghost use Rattle.proposals.specs.Near.{nearest_of};
ghost use Rattle.mending.specs.Inner.{Locates, Tried};

use crate::words::{code_word, remainder};
use correction::CHECKS;
use products::Tables;

// One wrong byte: its place in the word, and the sum of the wrong and the right byte.
#[derive(Clone, Copy, Debug, PartialEq, Eq)]
pub(crate) struct Fault {
    pub(crate) place: usize,
    pub(crate) error: u8,
}

// The exponents of the first two roots: 11 * 112 and 11 * 113, less multiples of 255, since alpha^255 is 1.
const FIRST_ROOT: usize = 212;

const SECOND_ROOT: usize = 223;

// Where the length byte stands, which is not mended: with it the word would have another size.
const LENGTH_BYTE: usize = 0;

// The one wrong byte of a word of n bytes whose values at the first two roots are x and y. 11 * 116 is 1 more than a
// multiple of 255, so that times 116 undoes times 11.
fn locate(tables: &Tables, x: u8, y: u8, n: usize) -> Option<Fault>
    ensures { Locates x y n result }
{
    if x == 0 {
        return None;
    }
    let first = tables.logs[x as usize] as usize;
    let second = tables.logs[y as usize] as usize;
    let behind = (second + 255 - first) * 116 % 255;
    if n <= behind {
        return None;
    }
    let error = tables.powers[(first + 255 - FIRST_ROOT * behind % 255) % 255];
    Some(Fault {
        place: n - 1 - behind,
        error,
    })
}

// As `locate`, from the remainder of the word, which has its values at the roots.
fn located(rest: &[u8], n: usize) -> Option<Fault>
    ensures { Locates (value_at (alpha_to 212) rest.now) (value_at (alpha_to 223) rest.now) n result }
{
    let tables = Tables::new();
    let x = tables.value_at(rest, FIRST_ROOT);
    let y = tables.value_at(rest, SECOND_ROOT);
    locate(&tables, x, y, n)
}

// Adds the fault's error at its place if that makes w a code word.
fn try_at(w: &mut [u8], fault: Fault)
    requires { (fault.place < length w.old) × (32 ≤ length w.old) }
    ensures { Tried w.old fault w.new }
{
    let old = w[fault.place];
    w[fault.place] = old ^ fault.error;
    if !code_word(w) {
        w[fault.place] = old;
    }
}

// Mends one wrong byte, but not the length byte; any other word stays as it is. A code word is told early.
pub(crate) fn mend_one(w: &mut [u8])
    requires { (32 ≤ length w.old) × (length w.old ≤ 255) }
    ensures { w.new ≡ nearest_of 1 w.old }
{
    let rest = remainder(w);
    if rest == [0; CHECKS] {
        return;
    }
    if let Some(fault) = located(&rest, w.len()) {
        if fault.place != LENGTH_BYTE {
            try_at(w, fault);
        }
    }
}
