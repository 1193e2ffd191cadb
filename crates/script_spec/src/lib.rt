//! What the texts of scripts and logs mean. `specs/` relates the bytes of a script to what it says, names the first
//! bad line of a text that is no script, with the reason, and says which texts are logs. No definition is about a
//! program that reads them. `laws` proves what one may expect of the definitions.
#![tactic(auto)]

pub mod examples;
pub mod laws;
