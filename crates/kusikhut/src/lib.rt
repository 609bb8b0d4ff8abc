// The calls of the library: every operation of the base on numbers and byte slices, as C and Rust know them
// (include/kusikhut.h). Each function calls the proved one and tells its answer as a number and a row of results;
// nothing is decided here. The crate kusikhut_c exports them, since a crate is a library or a static library, not both.
// Where 01 has several codes, formats or kinds, each has a function of its own, so that no other can be asked for.
// `s` is what is read, `d` what is lent, `v` the row of results. A module has the name of the crate that it calls and
// `_calls`, since no module may have a crate's own name.
#![tactic(auto)]

mod telling; // telling.rt: an answer told as its number and a row of results
mod crc_calls; // crc_calls.rt: the block check and its update
mod line_calls; // line_calls.rt: the line codes alone
mod frame_calls; // frame_calls.rt: frames as bytes
mod sync_calls; // sync_calls.rt: the sync search
mod radio_calls; // radio_calls.rt: frames as chips
mod address_calls; // address_calls.rt: what M says, letters and hard or soft
mod header_calls; // header_calls.rt: extended link headers, access
mod filter_calls; // filter_calls.rt: the meter filter
mod store_calls; // store_calls.rt: the settings store
mod correction_calls; // correction_calls.rt: correction bytes and their header
mod mending_calls; // mending_calls.rt: proposals for received words
mod channels_calls; // channels_calls.rt: mode N rows, centres and bands

pub use address_calls::kusikhut_maker;
pub use channels_calls::{kusikhut_band_line, kusikhut_centre, kusikhut_row};
pub use correction_calls::{
    kusikhut_correction_check_bytes, kusikhut_correction_header, kusikhut_correction_write_a,
    kusikhut_correction_write_b,
};
pub use crc_calls::{kusikhut_check, kusikhut_update};
pub use filter_calls::kusikhut_filter;
pub use frame_calls::{
    kusikhut_change_a, kusikhut_change_b, kusikhut_frame_size_a, kusikhut_frame_size_b,
    kusikhut_read_a, kusikhut_read_b, kusikhut_write_a, kusikhut_write_b,
};
pub use header_calls::{
    kusikhut_access, kusikhut_header_read, kusikhut_header_write_8c, kusikhut_header_write_8d,
    kusikhut_header_write_8e, kusikhut_header_write_8f,
};
pub use line_calls::{
    kusikhut_decode_manchester, kusikhut_decode_nrz, kusikhut_decode_three_of_six,
    kusikhut_encode_manchester, kusikhut_encode_nrz, kusikhut_encode_three_of_six,
    kusikhut_word_manchester, kusikhut_word_nrz, kusikhut_word_three_of_six,
};
pub use mending_calls::{
    kusikhut_mending_judge_a, kusikhut_mending_judge_b, kusikhut_mending_propose_a,
    kusikhut_mending_propose_b, kusikhut_mending_propose_one_a, kusikhut_mending_propose_one_b,
};
pub use radio_calls::{
    kusikhut_receive, kusikhut_receive_manchester, kusikhut_send_c_a, kusikhut_send_c_b,
    kusikhut_send_manchester_a, kusikhut_send_t_a,
};
pub use store_calls::{
    kusikhut_store_add, kusikhut_store_allowance, kusikhut_store_empty, kusikhut_store_hear,
    kusikhut_store_issue, kusikhut_store_look_up, kusikhut_store_restore,
    kusikhut_store_set_allowance, kusikhut_store_write,
};
pub use sync_calls::kusikhut_search;
