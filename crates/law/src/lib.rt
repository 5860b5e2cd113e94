// Control laws: what one means, and the two that are to be had.
#![tactic(auto)]

pub mod fault;
pub(crate) mod gain;
pub mod gain_bias;
pub mod law;
pub mod pi;
pub mod quotient;

pub use fault::LawFault;
pub use gain_bias::GainBias;
pub use law::Law;
pub use pi::Pi;
pub use quotient::{Quotient, floored};
