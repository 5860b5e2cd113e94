// What every block has, the calls on it, and what a lower end means.
#![tactic(auto)]

pub mod alone;
pub mod calls;
pub mod end;
pub mod fault;
pub mod kinds;
pub mod lines;
pub mod making;

pub use alone::OneBlock;
pub use end::LowerEnd;
pub use fault::{EndFault, OptionsFault, PermittedFault};
pub use kinds::{Ask, Block, Bounded, Options, Permitted, Reading, Refusal, Settings};
