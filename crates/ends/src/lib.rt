// The two kinds of lower end, the analog end and the pulse end, and what any other end shares with them.
#![tactic(auto)]

pub mod analog;
pub mod making;
pub mod pulse;
pub mod round;
pub mod thousand;

pub use analog::{ActionFault, Analog, AnalogSetup, FaultAction};
pub use making::end_settings;
pub use pulse::{Pulse, PulseSetup};
pub use round::EndRound;
pub use thousand::{Thousand, ThousandFault};
