// Calls under the page's own words. The page of demands (crates/demands/specs/Demands) speaks of definitions, and names
// the functions that answer by them. Here the checker itself ties the two: a function calls an entry point, and its
// contract is what the page says of that call. One that answered by another definition would not be proved here.
//
// Called here are: each function below the C interface that answers a `Refusal`, except the methods of
// `ChipReader`, whose parts are called here, and the conversion from a CI byte, whose caller is; channels, band
// lines and the maker of M, by their exported functions; two changes of a frame (demand 3); two numbers issued by
// the store (document 02, 9/14); a frame that is sent with its correction bytes, damaged, mended and read (12/14);
// and the exported functions with two parameters of one type, under their own equations.
// Nothing here is public and nothing calls it: it is there to be proved.

#![tactic(auto)]

mod judged; // judged.rt: the entry points of the crates below, each judged by its ladder
mod listed; // listed.rt: channels and lines of a band, each number exactly in its case
mod named; // named.rt: letters and hard or soft, each exactly in its case
mod stored; // stored.rt: the calls of the settings store, each judged by its ladder
mod corrected; // corrected.rt: the calls on correction bytes, each judged by its ladder
mod mended; // mended.rt: the calls on proposals, each judged by its ladder; a frame on its way through a cellar
mod repeated; // repeated.rt: two changes of a frame, two numbers issued with a restore between them
mod roles; // roles.rt: exported functions with two parameters of one type, each parameter in its role
