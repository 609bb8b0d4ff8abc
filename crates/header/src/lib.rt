// Extended link headers and the access that a meter announces (EN 13757-4:2019, 12.6.3, 13.2; document 01, "Extended
// headers and names").

#![tactic(auto)]

mod layout; // layout.rt: the four headers, their fields and lengths
mod reading; // reading.rt: a header read from a body
mod writing; // writing.rt: a header written
mod access; // access.rt: when a meter may be called

pub use access::{Access, announced};
pub use layout::{Header, HeaderKind, PayloadCheck, Session};
pub use reading::read;
pub use writing::write;
