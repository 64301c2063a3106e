//! Inboxes between threads, each under a rule over what it holds and over what was posted to it and pulled from it.
//!
//! A thread has a pass of an inbox, in which it carries what it posted there and pulled from there. The rule ties the passes of an inbox
//! together: what was pulled or waits was posted by the holder of some pass, and no frame is pulled more often than it was posted. Whoever
//! has joined all passes of an inbox knows this of its own lists.
#![tactic(auto)]

mod inbox;
mod rule;

pub use inbox::{FrameList, Inbox, InboxPass};
pub use rule::{Cut, Posting, Pulling, Seen, WireRule, taken_as_posted};
