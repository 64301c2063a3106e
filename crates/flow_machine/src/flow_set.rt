//! What a set of flows is.

ghost use Rattle.std.specs.Prelude.{◌≡◌, map, string_bytes, IfOk};
ghost use Rattle.flow_machine.specs.Machine.{Machine};
ghost use Rattle.flow_machine.specs.Flows.{GivesWords, GivesMade, GivesBegun, Falls, LoadHolds, OversHold, OverFails, ArgsAreShort, KnownByName, SpellsContent, KeepsLimits};
ghost use Rattle.flow_machine.specs.Tags.{KeepsTags, BeginsBare};
ghost use Rattle.flow_machine.specs.Limits.{IsResumed, IsPlace};
ghost use Rattle.net_base.specs.Names.{IsKey};

use super::{Act, Place, Resumed};
use net_base::{ByteList, Key, Spelt};
use std::alloc::{AllocError, Global};
use thiserror::Error;

/// Why words start no flow.
#[derive(Clone, Copy, Debug, Error)]
pub enum WordFault {
    /// No class has that name.
    #[error("the class of the flow is unknown")]
    UnknownClass,
    /// There is a wrong count of words, or a word can't be read.
    #[error("the arguments of the flow can't be read")]
    BadArgs,
    #[error("out of memory")]
    Memory,
}

/// Why no flow is made.
#[derive(Clone, Copy, Debug, Error)]
pub enum MakeFault {
    /// No class has that number.
    #[error("the class of the flow is unknown")]
    UnknownClass,
    /// The arguments aren't the class's, or they are out of its range.
    #[error("the arguments of the flow are refused")]
    BadArgs,
    #[error("out of memory")]
    Memory,
}

impl From<AllocError> for WordFault {
    ghost use Rattle.std.specs.Prelude.{◌≡◌};
    ghost use Rattle.flow_machine.specs.declared.flow_set.WordFault.TheVariants.{Memory};

    ghost from_gives = { λ _ e. e ≡ Memory };

    fn from(_: AllocError) -> WordFault {
        WordFault::Memory
    }
}

impl From<AllocError> for MakeFault {
    ghost use Rattle.std.specs.Prelude.{◌≡◌};
    ghost use Rattle.flow_machine.specs.declared.flow_set.MakeFault.TheVariants.{Memory};

    ghost from_gives = { λ _ e. e ≡ Memory };

    fn from(_: AllocError) -> MakeFault {
        MakeFault::Memory
    }
}

/// A set of flows: their frames, and how these begin and go on. A frame is spelt as it stands in an act and in a checkpoint: two
/// bytes of length and its own bytes, of which there are at most 32,768.
pub trait FlowSet: Spelt + Drop {
    /// What the set means, as functions of plain data.
    ghost machine: { Machine Self };

    /// The class that a name and its arguments ask for, and the arguments in bytes.
    ///
    /// # Errors
    ///
    /// `UnknownClass` and `BadArgs` exactly where `machine.worded` says so, `Memory` for want of memory.
    fn read_words(alloc: Global, class: &str, args: &[String]) -> Result<(u16, ByteList), WordFault>
        ensures { GivesWords result (machine.worded class.now
            (map (λ s. string_bytes s) args.now)) };

    /// The frame and the act with which a flow of the class begins.
    ///
    /// # Errors
    ///
    /// `UnknownClass` and `BadArgs` exactly where `machine.made` says so, `Memory` for want of memory.
    fn make(
        alloc: Global,
        class: u16,
        args: &ByteList,
        at: &Place,
    ) -> Result<(Self, Act<Self>), MakeFault>
        requires { IsPlace at.now }
        ensures { GivesMade result (machine.made class args.now at.entry.now) };

    /// The frame and the act with which a flow begins that answers the session's Init of the class.
    ///
    /// # Errors
    ///
    /// `UnknownClass` exactly where `machine.begun` gives none, never `BadArgs`, and `Memory` for want of memory.
    fn initiated(
        alloc: Global,
        class: u16,
        key: &Key,
        at: &Place,
    ) -> Result<(Self, Act<Self>), MakeFault>
        requires fits { IsKey key.now }
        requires place { IsPlace at.now }
        ensures { GivesBegun result (machine.begun class key.now at.entry.now) };

    /// The frame and the act that follow, once the act was performed with this result.
    ///
    /// # Errors
    ///
    /// `AllocError` for want of memory.
    fn resume(
        &self,
        alloc: Global,
        with: &Resumed,
        at: &Place,
    ) -> Result<(Self, Act<Self>), AllocError>
        requires fits { Self.within self.now }
        requires small { IsResumed with.now }
        requires place { IsPlace at.now }
        ensures { IfOk result (λ made. made ≡ machine.next self.now with.now at.entry.now) };

    /// A bound on what the frame may still cause.
    fn weight(&self) -> u64
        requires { Self.within self.now }
        ensures { result ≡ machine.weight self.now };

    /// A frame is spelt by its bytes behind their length, and has at most 32,768.
    ghost spells_content: { SpellsContent Self.within Self.spelling machine };

    /// What is given within the limits makes frames and acts within the limits.
    ghost keeps_limits: { KeepsLimits Self.within machine };

    /// From a frame that isn't over the weight falls at each resume, by at least the cost of the new act.
    ghost falls: { Falls machine };

    /// What an Init may cause is at least the weight and the cost of what answers it.
    ghost load_holds: { LoadHolds machine };

    /// Of the frames that begin or follow a result exactly those that wait on Return or Fail are over, and none that a Sub carries.
    ghost overs_hold: { OversHold machine };

    /// A frame that is over fails.
    ghost over_fails: { OverFails machine };

    /// No tag comes from nowhere.
    ghost keeps_tags: { KeepsTags machine };

    /// What begins has no tag.
    ghost begins_bare: { BeginsBare machine };

    /// Arguments have at most 65,535 bytes.
    ghost args_are_short: { ArgsAreShort machine };

    /// Whether a class is unknown is told by its name, whatever the arguments are.
    ghost known_by_name: { KnownByName machine };
}

/// The law of every flow set that a frame is spelt by two bytes of length and its own bytes, of which there are at most 32,768.
pub fn frames_are_spelt<F: FlowSet>()
    ensures { SpellsContent F.within F.spelling F.machine }
{}

/// The law of every flow set that what is given within the limits makes frames and acts within the limits.
pub fn limits_are_kept<F: FlowSet>()
    ensures { KeepsLimits F.within F.machine }
{}

/// The law of every flow set that from a frame that isn't over the weight falls by at least the cost of the new act.
pub fn weight_falls<F: FlowSet>()
    ensures { Falls F.machine }
{}

/// The law of every flow set that what an Init of a class may cause is at least the weight and the cost of what answers it.
pub fn load_holds<F: FlowSet>()
    ensures { LoadHolds F.machine }
{}

/// The law of every flow set that of the frames that begin or follow a result exactly those that wait on Return or Fail are over, and none
/// that a Sub carries.
pub fn over_is_exact<F: FlowSet>()
    ensures { OversHold F.machine }
{}

/// The law of every flow set that a frame that is over goes on to a Fail, and is over then too.
pub fn over_frames_fail<F: FlowSet>()
    ensures { OverFails F.machine }
{}

/// The law of every flow set that every tag in a new frame or act stood in the old frame or in what it was resumed with.
pub fn tags_are_kept<F: FlowSet>()
    ensures { KeepsTags F.machine }
{}

/// The law of every flow set that what begins has no tag.
pub fn begins_bare<F: FlowSet>()
    ensures { BeginsBare F.machine }
{}

/// The law of every flow set that the words of a flow give at most 65,535 bytes of arguments, and that longer ones make none.
pub fn args_are_short<F: FlowSet>()
    ensures { ArgsAreShort F.machine }
{}

/// The law of every flow set that words whose class is unknown are so with any other arguments: a class is known by its name alone.
pub fn classes_are_known_by_name<F: FlowSet>()
    ensures { KnownByName F.machine }
{}
