// The settings store in memory that the caller owns (document 02, 9/14): what it holds and what each call makes of it
// stands in `sessions`.
// Each call judges the whole memory first; one on a meter finds it and changes its twenty bytes where they stand.
#![tactic(auto)]

mod meters; // meters.rt: one meter: its twenty bytes, and what becomes of it
mod index; // index.rt: the meters of a memory or a file, each found by its address
mod judging; // judging.rt: whether bytes are a store
mod keeping; // keeping.rt: the calls on one meter, and on the allowance
mod restoring; // restoring.rt: a file brought into the store

pub use keeping::{
    add, add_by_number, allowance, empty, hear, issue, look_up, set_allowance, write,
};
pub use restoring::restore;
