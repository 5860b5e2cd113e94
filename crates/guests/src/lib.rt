// A third law and a third end, written as somebody else would: they need their own facts alone.
#![tactic(auto)]

pub mod dead_band;
pub mod on_off;

pub use dead_band::DeadBand;
pub use on_off::OnOff;
