// A word with up to 16 wrong bytes, mended (EN 13757-4:2019, 12.8.3.2: E = 16).

#![tactic(auto)]

mod values; // values.rt: the values of a word at the roots, and how they follow a change
mod dividing; // dividing.rt: a polynomial divided by x + a power of alpha
mod scanning; // scanning.rt: place after place, what the locator says of it
mod repairing; // repairing.rt: a word by its remainder

pub use repairing::repair;
