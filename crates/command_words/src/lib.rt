//! The words of the command line, and what they ask of the program.
#![tactic(auto)]

mod book;
mod command;
mod reading;
mod serving;
mod subcommand;
mod table;

pub use book::book_and_words;
pub use reading::subcommand_in;
pub use serving::{Serve, serve_words};
pub use subcommand::Subcommand;
