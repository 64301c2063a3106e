//! Flows: the acts that they wait on, and what a set of flows means.
//!
//! The terms are those of the flow framework in the Corda 4 documentation. A flow is a stack of 1 to 8 frames, of which the top one waits
//! on an act; when the act is performed that frame is resumed with the result, and gives the next frame and the next act.
#![tactic(auto)]

mod act_spelling;
mod acts;
mod checkpoint_spelling;
mod flow_set;
mod flows;
mod stack;

pub use act_spelling::FrameBytes;
pub use acts::{Act, Place, Resumed};
pub use checkpoint_spelling::same_bytes;
pub use flow_set::{
    FlowSet, MakeFault, WordFault, args_are_short, begins_bare, classes_are_known_by_name,
    frames_are_spelt, limits_are_kept, load_holds, over_frames_fail, over_is_exact, tags_are_kept,
    weight_falls,
};
pub use flows::{Checkpoint, FlowState};
pub use stack::Stack;
