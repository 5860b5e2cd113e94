// Values, limits, status bytes and modes: what passes between the blocks of a cascade.
#![tactic(auto)]

pub mod codes;
pub mod kinds;
pub mod limits;
pub mod mode;
pub mod numbered;
pub mod status;
pub mod value;

pub use kinds::{Limits, OperatingPoint, Value};
pub use limits::LimitsFault;
pub use mode::{LoCause, Mode, TargetFault};
pub use numbered::Numbered;
pub use status::{Part, PartFault, Parts, Quality, Signal, Status};
pub use value::ValueFault;
