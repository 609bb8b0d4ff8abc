// A polynomial made to combine values to 0. A column is a number i below 16, and what stands there are the values from
// i on, combined by the polynomial. Polynomials that were kept stand by column: each makes 0 before its column.
ghost use Rattle.std.specs.Prelude.{◌≡◌, ◌-◌, ◌≤◌, ◌<◌};
ghost use Rattle.ground.specs.Sums.{xors};
ghost use Rattle.field.specs.Polynomials.{scaled};
ghost use Rattle.locating.specs.Inner.{Slots, Cleared, Reducing, Stepped, Reduced};

use crate::locator::Locator;
use products::Tables;

pub(crate) const COLUMNS: usize = 16;

// A polynomial that is kept for a column, and what stands there, which is not 0.
#[derive(Clone, Copy, Debug, PartialEq, Eq)]
pub(crate) struct Kept {
    pub(crate) row: [u8; 17],
    pub(crate) lead: u8,
}

// The column that was reached, and what stands there, which is not 0.
#[derive(Clone, Copy, Debug, PartialEq, Eq)]
pub(crate) struct Reached {
    pub(crate) column: usize,
    pub(crate) sum: u8,
}

// Adds f times p to v. (By an index: a zip of p with `v.iter_mut()` asks for an invariant of the iterator; tried.)
fn add_times(tables: &Tables, v: &mut [u8; 17], p: &[u8; 17], f: u8)
    ensures { v.new ≡ xors v.old (scaled f p.now) }
{
    for (k, x) in p.iter().enumerate() {
        v[k] ^= tables.times(f, *x);
    }
}

// Takes off v what stands in a column, `sum`, by the polynomial that is kept for it.
fn clear(tables: &Tables, v: &mut [u8; 17], kept: &Kept, sum: u8)
    requires { 0 < kept.now.lead }
    ensures { Cleared v.old kept.now.row kept.now.lead sum v.new }
{
    add_times(tables, v, &kept.row, tables.ratio(sum, kept.lead));
}

// Clears one column of v, if nothing stands there or a polynomial is kept for it; else answers what stands there.
fn step(
    tables: &Tables,
    s: &[u8; 32],
    kept: &[Option<Kept>; COLUMNS],
    v: &mut Locator,
    column: usize,
) -> Option<u8>
    requires slots { Slots s.now kept.now (16 - v.old.degree) }
    requires reducing { (column < 16) × Reducing s.now (16 - v.old.degree) v.old.coefficients column }
    ensures degree { v.new.degree ≡ v.old.degree }
    ensures stepped { Stepped s.now kept.now (16 - v.old.degree) column v.new.coefficients result }
{
    let sum = tables.combine(s, &v.coefficients[16 - v.degree..], column);
    if sum == 0 {
        return None;
    }
    match &kept[column] {
        None => Some(sum),
        Some(polynomial) => {
            clear(tables, &mut v.coefficients, polynomial, sum);
            None
        }
    }
}

// Clears v's columns from `from` on, up to one where something stands and nothing is kept for it.
pub(crate) fn reduce(
    tables: &Tables,
    s: &[u8; 32],
    kept: &[Option<Kept>; COLUMNS],
    v: &mut Locator,
    from: usize,
) -> Option<Reached>
    requires slots { Slots s.now kept.now (16 - v.old.degree) }
    requires reducing { (from ≤ 16) × Reducing s.now (16 - v.old.degree) v.old.coefficients from }
    ensures degree { v.new.degree ≡ v.old.degree }
    ensures reduced { Reduced s.now kept.now (16 - v.old.degree) v.new.coefficients result }
{
    for column in from..COLUMNS {
        if let Some(sum) = step(tables, s, kept, v, column) {
            return Some(Reached { column, sum });
        }
    }
    None
}
