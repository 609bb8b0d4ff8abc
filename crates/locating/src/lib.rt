// A polynomial that combines the values of a word to 0, sixteen times in a row: it is 0 at the locator of each wrong
// byte, if there are at most 16 (locators/proofs/LocatorLaws).

#![tactic(auto)]

mod locator; // locator.rt: a polynomial and its degree
mod reducing; // reducing.rt: a polynomial made to combine one more of the values to 0
mod searching; // searching.rt: polynomials of one degree after the other, until one combines all to 0

pub use locator::Locator;
pub use searching::locate;
