// The control block: any law above any lower end, and again a lower end.
#![tactic(auto)]

pub mod control;
pub mod fault;
pub mod kinds;
pub mod making;
pub mod steps;

pub use fault::ControlFault;
pub use kinds::{Control, ControlSetup};
