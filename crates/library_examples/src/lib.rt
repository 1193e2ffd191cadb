//! Worked examples of the UART, of images, of records, of the clock and of refusals: each function does nothing, and
//! its clauses are the examples, which follow from the definitions. They stand above the crates that they speak of, so
//! that no other crate has to be proved again for them.
#![tactic(auto)]

pub mod images;
pub mod records;
pub mod refusals;
pub mod seconds;
pub mod serial;
