// The questions that the gate puts to each call, and the step of an enclave's record.
#![tactic(auto)]

use board::Board;

mod access;
mod ask;
pub mod phases;

pub use crate::access::{READ, WRITE};
pub use crate::ask::may_use_register;

// The questions are put to a board, over a memory of so many words.
#[derive(Clone, Copy)]
pub struct Questions<'b> {
    pub size: usize,
    pub board: &'b Board,
}
