// The exported library for C and Rust (include/kusikhut.h): each function here has the C name, the parameters and the
// clauses of kusikhut's function of the same name, and is one call of it. tests/contracts holds the two against one
// another. Modules are those of kusikhut.
#![tactic(auto)]

mod crc_calls; // crc_calls.rt: the block check and its update
mod line_calls; // line_calls.rt: the line codes alone
mod frame_calls; // frame_calls.rt: frames as bytes
mod sync_calls; // sync_calls.rt: the sync search
mod radio_calls; // radio_calls.rt: frames as chips
mod address_calls; // address_calls.rt: what M says, letters and hard or soft
mod header_calls; // header_calls.rt: extended link headers, access
mod filter_calls; // filter_calls.rt: the meter filter
mod store_calls; // store_calls.rt: the settings store
mod correction_calls; // correction_calls.rt: correction bytes and their header
mod mending_calls; // mending_calls.rt: proposals for received words
mod channels_calls; // channels_calls.rt: mode N rows, centres and bands
