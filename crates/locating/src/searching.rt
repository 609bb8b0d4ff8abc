// Polynomials of one degree after the other, until one combines the values to 0. Each of the degrees 0 to 16 gives one
// that is kept for a column, and there are 16 columns: so one of the seventeen is not kept, but found.
ghost use Rattle.locating.specs.Locates.{Locates};

use crate::locator::Locator;
use crate::reducing::{COLUMNS, Kept, Reached, reduce};
use products::Tables;

// The first such polynomial for the 32 values s.
pub fn locate(tables: &Tables, s: &[u8; 32]) -> Locator
    ensures { Locates s.now result.coefficients result.degree }
{
    let mut kept: [Option<Kept>; COLUMNS] = [None; COLUMNS];
    let mut coefficients = [0; 17];
    coefficients[16] = 1;
    let mut v = Locator {
        coefficients,
        degree: 0,
    };
    let mut from = 0;
    while let Some(Reached { column, sum }) = reduce(tables, s, &kept, &mut v, from) {
        kept[column] = Some(Kept {
            row: v.coefficients,
            lead: sum,
        });
        v.raise();
        // x times the polynomial may have something one column before the polynomial itself
        from = column.saturating_sub(1);
    }
    v
}
