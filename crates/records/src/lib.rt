// Records of calls as bytes: one byte of kind, then a body whose length the kind fixes.
// What a record is, and what is read of any bytes, is defined in specs/.
#![tactic(auto)]

mod reader;
mod writer;

pub use reader::read;
pub use writer::{kind, write};
