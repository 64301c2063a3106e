//! The words of the shell: the lines of a script, their words, what the words ask for, and the words that the
//! program is started with. The definitions stand in `specs/Script.antt`, `specs/Program.antt` and `specs/NamedWords.antt`.
#![tactic(auto)]

mod commands;
mod laws;
mod lines;
mod options;
mod program;
mod told;
mod words;

pub use commands::{Command, TxName, command_of};
pub use laws::{folder_words_are_taken, help_alone_is_refused, network_words_are_taken};
pub use lines::{has_no_answer, is_readable, without_cr};
pub use program::{NetworkWords, ProgramWords, WordsFault, program_words};
pub use told::{Told, text_told, told_of};
pub use words::{has_mark, is_blank, is_plain, mark_of, words_of};
