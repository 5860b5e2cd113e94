// A control block with its law, over a lower end.
use block::Block;
use signal::Value;

#[derive(Drop)]
pub struct Control<L, E> {
    pub(crate) block: Block,
    pub(crate) track_value: Value,
    pub(crate) law: L,
    pub(crate) lower: E,
}

// The numbers of a control block, as they came.
#[derive(Clone, Copy)]
pub struct ControlSetup {
    pub sp_low: i32,
    pub sp_high: i32,
    pub out_low: i32,
    pub out_high: i32,
    pub track_value: i32,
    pub permitted: u8,
    pub options: u8,
}
