//! What a run changes.

use crate::frame::Frame;
use wasm_core::ConstValue;

/// The function that runs, those that wait for it, the pages of memory and their bytes, the globals, whether a grow of memory was refused,
/// and whether the last such one would have stayed within the module's maximum.
#[derive(Drop)]
pub struct Thread {
    pub current: Frame,
    pub callers: Vec<Frame>,
    pub pages: u32,
    pub memory: Vec<u8>,
    pub globals: Vec<ConstValue>,
    pub refused: bool,
    pub by_choice: bool,
}
