//! Machines of flows in one form, and the sum of flow sets.
//!
//! A machine is what it keeps (its fields), where it may wait (its places), how it starts and how each place goes on. All that does not
//! depend on the machine is said and proved here once.
#![tactic(auto)]

mod arguments;
mod begins;
mod calls;
mod closed;
mod copies;
mod fields;
mod flows;
mod forms;
mod machine;
mod places;
mod tables;
mod words;

pub use arguments::{Argument, Arguments, End, Then};
pub use begins::{Answers, Begins, ByCall, ByInit, ByWords, Callable, Worded};
pub use calls::{Call, load_of};
pub use closed::{Closed, Closes, InFirst, Opens};
pub use copies::copy_option;
pub use fields::Fields;
pub use flows::Flows;
pub use forms::{At, Frame, Goes, Sum};
pub use machine::{Machine, Numbered, is_peer};
pub use tables::{Tabled, set_means_its_table};
pub use words::begins_by_its_words;
