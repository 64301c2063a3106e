//! The spelling of what becomes of a flow.

ghost use Rattle.std.specs.Prelude.{◌≡◌, ◌<◌};
ghost use Rattle.net_base.specs.Parts.{Gives, Writes};
ghost use Rattle.transition_record.specs.Changes.{checkpoint_bytes_at, checkpoint_flow, IsFlowPart, part_text, part_at, part_flow, part_over};

use flow_machine::{Checkpoint, FrameBytes};
use net_base::{ByteList, ListOf, PartFault, Reader, Spelt, Writer, read_kind, read_u32};
use session_wire::FlowPart;
use std::alloc::{AllocError, Global};

/// The bytes of the checkpoint that begins here, which is read to find its end.
#[tactic(auto, unfolding(crate::specs::Changes::checkpoint_bytes_at))]
fn read_checkpoint(alloc: Global, from: &mut Reader) -> Result<ByteList, PartFault>
    ensures { Gives (λ x. x) result from.old from.new (checkpoint_bytes_at from.old.left) }
{
    let mut start = from.again();
    let at = from.place();
    let _: Checkpoint<FrameBytes> = Spelt::read_part(alloc, from)?;
    let bytes = start.bytes(from.place() - at)?;
    Ok(ListOf::from_slice(alloc, bytes)?)
}

/// What becomes of a flow.
#[tactic(auto, unfolding(crate::specs::Changes::part_at))]
pub(crate) fn read_flow_part(alloc: Global, from: &mut Reader) -> Result<FlowPart, PartFault>
    ensures { Gives (λ x. x) result from.old from.new (part_at from.old.left) }
{
    match read_kind(from, &[0, 1, 2, 3])? {
        0 => Ok(FlowPart::Absent),
        1 => Ok(FlowPart::Live {
            checkpoint: read_checkpoint(alloc, from)?,
        }),
        2 => Ok(FlowPart::Ended {
            flow: Spelt::read_part(alloc, from)?,
            step: Spelt::read_part(alloc, from)?,
            class: Spelt::read_part(alloc, from)?,
            value: Spelt::read_part(alloc, from)?,
        }),
        _ => Ok(FlowPart::Failed {
            flow: Spelt::read_part(alloc, from)?,
            step: Spelt::read_part(alloc, from)?,
            class: Spelt::read_part(alloc, from)?,
            code: Spelt::read_part(alloc, from)?,
        }),
    }
}

/// Writes it. After want of memory a front of it may stand in `out`.
pub(crate) fn write_flow_part(
    alloc: Global,
    part: &FlowPart,
    out: &mut Writer,
) -> Result<(), AllocError>
    requires { IsFlowPart part.now }
    ensures { Writes (part_text part.now) result out.old out.new }
{
    match part {
        FlowPart::Absent => {
            out.put_u8(alloc, 0)?;
        }
        FlowPart::Live { checkpoint } => {
            out.put_u8(alloc, 1)?;
            out.put_bytes(alloc, checkpoint.as_slice())?;
        }
        FlowPart::Ended {
            flow,
            step,
            class,
            value,
        } => {
            out.put_u8(alloc, 2)?;
            flow.write_part(alloc, out)?;
            step.write_part(alloc, out)?;
            class.write_part(alloc, out)?;
            value.write_part(alloc, out)?;
        }
        FlowPart::Failed {
            flow,
            step,
            class,
            code,
        } => {
            out.put_u8(alloc, 3)?;
            flow.write_part(alloc, out)?;
            step.write_part(alloc, out)?;
            class.write_part(alloc, out)?;
            code.write_part(alloc, out)?;
        }
    }
    Ok(())
}

/// The flow's number with which a checkpoint begins; 0 where the bytes are too few.
fn flow_of_checkpoint(checkpoint: &ByteList) -> u32
    ensures { result ≡ checkpoint_flow checkpoint.now }
{
    let mut from = Reader::new(checkpoint.as_slice());
    match read_u32(&mut from) {
        Ok(flow) => flow,
        Err(_) => 0,
    }
}

/// The number of the flow of which the record tells, 0 where it tells of none.
pub(crate) fn flow_of(part: &FlowPart) -> u32
    ensures { result ≡ part_flow part.now }
{
    match part {
        FlowPart::Absent => 0,
        FlowPart::Live { checkpoint } => flow_of_checkpoint(checkpoint),
        FlowPart::Ended { flow, .. } => *flow,
        FlowPart::Failed { flow, .. } => *flow,
    }
}

/// Whether that flow is over.
pub(crate) fn is_over(part: &FlowPart) -> bool
    ensures { result ≡ part_over part.now }
{
    match part {
        FlowPart::Absent | FlowPart::Live { .. } => false,
        FlowPart::Ended { .. } | FlowPart::Failed { .. } => true,
    }
}
