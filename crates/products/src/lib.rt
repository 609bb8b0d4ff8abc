// Products in the field of 256 elements, by tables that the caller lends (EN 13757-4:2019, 12.8.3.2; CCSDS 131.0-B-2,
// 4.3.3).

#![tactic(auto)]

mod tables; // tables.rt: powers of alpha and their logarithms
mod elements; // elements.rt: products and quotients of elements
mod values; // values.rt: values of polynomials, values combined

pub use tables::Tables;
