//! Texts and lists that contracts see as plain lists, and the want of memory.
#![tactic(auto)]

mod listed;
mod no_memory;
mod shared_text;
mod text;

pub use listed::Listed;
pub use no_memory::NoMemory;
pub use shared_text::SharedText;
pub use text::Text;
