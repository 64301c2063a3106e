//! The spelling of stacks and checkpoints.

ghost use Rattle.std.specs.Prelude.{◌≤◌, IfOk, length};
ghost use Rattle.std.specs.Arc.{arc_value};
ghost use Rattle.std.specs.List.{flat_map, AllByRecursion};
ghost use Rattle.net_base.specs.Reading.{Puts};
ghost use Rattle.net_base.specs.Forms.{items_at};
ghost use Rattle.net_base.specs.Parts.{Gives, Writes, Decodes};
ghost use Rattle.flow_machine.specs.declared.act_spelling.FrameBytes.{FrameBytes};
ghost use Rattle.flow_machine.specs.Acts.{IsFrameBytes, frame_bytes, SameBytes};
ghost use Rattle.flow_machine.specs.Stacks.{frames_in};
ghost use Rattle.flow_machine.specs.Checkpoints.{IsCheckpoint, checkpoint_text, checkpoint_with};

use super::{Checkpoint, FrameBytes, Stack};
use net_base::{DecodeFault, PartFault, Reader, Spelt, Writer, decode, encode, read_between};
use std::alloc::{AllocError, Global};
use std::sync::Arc;

/// A frame that stacks can share.
fn read_frame<F: Spelt>(alloc: Global, from: &mut Reader) -> Result<Arc<F>, PartFault>
    ensures { Gives (λ frame. arc_value frame) result from.old from.new (F.reading from.old.left) }
{
    let frame = F::read_part(alloc, from)?;
    match Arc::new(alloc, frame) {
        Ok(frame) => Ok(frame),
        Err(_) => Err(PartFault::Memory),
    }
}

fn read_frames<F: Spelt>(
    alloc: Global,
    from: &mut Reader,
    count: u8,
) -> Result<Vec<Arc<F>>, PartFault>
    ensures given { Gives (λ x. frames_in x.items) result from.old from.new
        (items_at F.reading count from.old.left) }
    ensures few { IfOk result (λ x. length x.items ≤ count) }
{
    let mut frames = Vec::with_capacity(alloc, count as usize)?;
    for _ in 0..count {
        frames.push(read_frame(alloc, from)?)?;
    }
    Ok(frames)
}

fn write_frames<F: Spelt>(
    alloc: Global,
    frames: &[Arc<F>],
    out: &mut Writer,
) -> Result<(), AllocError>
    requires { AllByRecursion F.within (frames_in frames.now) }
    ensures { Writes (flat_map F.spelling (frames_in frames.now)) result out.old out.new }
{
    for frame in frames {
        frame.write_part(alloc, out)?;
    }
    Ok(())
}

#[tactic(auto, unfolding(crate::specs::Checkpoints::stack_at))]
impl<F: Spelt> Spelt for Stack<F> {
    ghost use Rattle.flow_machine.specs.Limits.{IsStack};
    ghost use Rattle.flow_machine.specs.Checkpoints.{stack_text, stack_at, stack_laws};

    ghost exact = { F.exact };

    ghost spelling = { stack_text F.spelling };

    ghost within = { IsStack F.within };

    ghost reading = { stack_at F.reading };

    ghost laws = { stack_laws F.laws };

    fn read_part(alloc: Global, from: &mut Reader) -> Result<Stack<F>, PartFault> {
        let depth = read_between(from, 1, 9)?;
        let below = read_frames(alloc, from, depth - 1)?;
        let top = read_frame(alloc, from)?;
        Ok(Stack::from_bottom(below, top))
    }

    fn write_part(&self, alloc: Global, out: &mut Writer) -> Result<(), AllocError> {
        let below = self.below();
        out.put_u8(alloc, below.len() as u8 + 1)?;
        write_frames(alloc, below, out)?;
        self.top().write_part(alloc, out)
    }
}

#[tactic(auto, unfolding(crate::specs::Checkpoints::checkpoint_at))]
impl<F: Spelt> Spelt for Checkpoint<F> {
    ghost use Rattle.flow_machine.specs.Checkpoints.{IsCheckpoint, checkpoint_text, checkpoint_at, checkpoint_laws};

    ghost exact = { F.exact };

    ghost spelling = { checkpoint_text F.spelling };

    ghost within = { IsCheckpoint F.within };

    ghost reading = { checkpoint_at F.reading };

    ghost laws = { checkpoint_laws F.laws };

    fn read_part(alloc: Global, from: &mut Reader) -> Result<Checkpoint<F>, PartFault> {
        Ok(Checkpoint {
            flow: Spelt::read_part(alloc, from)?,
            step: Spelt::read_part(alloc, from)?,
            class: Spelt::read_part(alloc, from)?,
            waiting: Spelt::read_part(alloc, from)?,
            stack: Spelt::read_part(alloc, from)?,
        })
    }

    fn write_part(&self, alloc: Global, out: &mut Writer) -> Result<(), AllocError> {
        self.flow.write_part(alloc, out)?;
        self.step.write_part(alloc, out)?;
        self.class.write_part(alloc, out)?;
        self.waiting.write_part(alloc, out)?;
        self.stack.write_part(alloc, out)?;
        Ok(())
    }
}

impl<F: Spelt> Checkpoint<F> {
    /// Writes the spelling at the end of `out`, which want of memory leaves as it was.
    pub fn encode(&self, alloc: Global, out: &mut Writer) -> Result<(), AllocError>
        requires { IsCheckpoint F.within self.now }
        ensures { Puts (checkpoint_text F.spelling self.now) result out.old out.new }
    {
        encode(alloc, self, out)
    }

    /// The checkpoint whose spelling begins at the reader's place, which then stands behind it.
    ///
    /// # Errors
    ///
    /// `Malformed` with the reader's place exactly where no spelling begins there, and `Memory`. The reader
    /// then stays where it was.
    pub fn decode(alloc: Global, from: &mut Reader) -> Result<Checkpoint<F>, DecodeFault>
        ensures { Decodes (IsCheckpoint F.within)
            (checkpoint_text F.spelling) result from.old from.new }
    {
        decode(alloc, from)
    }
}

/// A checkpoint of a flow set's frames has the same bytes as the checkpoint of the same frames as plain bytes, where each frame is
/// spelt by its content, at most 32,768 bytes, behind two bytes of length. So whoever can't know the flow set still reads its
/// checkpoints. It does nothing when it runs; its contract is the law.
pub fn same_bytes<F: Spelt>()
    ensures { (see : F → FrameBytes) → SameBytes F.within F.spelling IsFrameBytes frame_bytes see
        → SameBytes (IsCheckpoint F.within) (checkpoint_text F.spelling) (IsCheckpoint IsFrameBytes)
        (checkpoint_text frame_bytes) (checkpoint_with see) }
{}
