// What the settings store keeps and answers (document 02, 9/14). No function: what is done with it stands in `store`.
#![tactic(auto)]

use frame::Format;
use modes::Mode;

// What is held of a meter. Mode and format are no numbers: a value outside its list cannot stand here.
#[derive(Clone, Copy, Debug, PartialEq, Eq)]
pub struct Meter {
    // M and A as received, the eight bytes as one number, first byte highest.
    pub address: u64,
    pub mode: Mode,
    pub format: Format,
    // The largest session number that was issued for the meter or heard from it.
    pub number: u32,
    // No number of the meter was heard yet: none is issued.
    pub unsure: bool,
}
