// Call sheets: records and their bytes, both ways.
#![tactic(auto)]

pub mod calls;
pub mod fault;
mod field;
pub mod read;
pub mod record;
pub mod write;
