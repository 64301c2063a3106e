//! What the bytes of a record tell of: the step that made it.

ghost use Rattle.std.specs.Prelude.{◌≡◌, ◌≤◌, length, Option, Some, None, IfOk, IfSome, option_map};
ghost use Rattle.transition_record.specs.Causes.{IsCause};
ghost use Rattle.transition_record.specs.Changes.{IsFlowPart, checkpoint_flow, part_flow, part_over, session_text};
ghost use Rattle.transition_record.specs.Records.{IsEffect};
ghost use Rattle.flow_machine.specs.declared.flows.FlowState.TheVariants.{Live};
ghost use Rattle.flow_machine.specs.Checkpoints.{IsCheckpoint, checkpoint_at};
ghost use Rattle.flow_records.specs.Records.{whole, flow_part, record_over, record_of};
ghost use Rattle.flow_records.specs.Spelling.{is_over};
ghost use Rattle.flow_records.specs.Telling.{TellsFlow};
ghost use Rattle.flow_records.specs.Steps.{is_absent, after_told, owner_of, ends_with, step_with, TellsAfter, TellsStep};

use crate::step::{FlowAfter, Step};
use flow_machine::{Checkpoint, FlowState};
use ledger_types::LedgerChange;
use net_base::{Cause, DecodeFault, Spelt, decode_if_spelt};
use session_wire::{Effect, FlowPart, SessionChange};
use std::alloc::{AllocError, Global};
use transition_record::decode_record;

/// The checkpoint whose bytes these are, `None` where they are no checkpoint's of the flow set.
fn read_checkpoint<F: Spelt + Drop>(
    alloc: Global,
    bytes: &[u8],
) -> Result<Option<Checkpoint<F>>, AllocError>
    ensures read { IfOk result (λ r. r ≡ whole (checkpoint_at F.reading bytes.now)) }
    ensures within { IfOk result (λ r. IfSome r (IsCheckpoint F.within)) }
    ensures own { IfOk result (λ r. IfSome r (λ at. at.flow ≡ checkpoint_flow bytes.now)) }
{
    decode_if_spelt(alloc, bytes)
}

/// The flow that stands at this checkpoint, and its number.
fn live<F: Drop>(at: Checkpoint<F>) -> (u32, FlowState<F>)
    ensures { result ≡ (at.flow, Live at) }
{
    (at.flow, FlowState::Live(at))
}

/// The flow of which a part tells, and its number.
fn flow_after<F: Spelt + Drop>(
    alloc: Global,
    part: FlowPart,
) -> Result<Option<(u32, FlowState<F>)>, AllocError>
    requires { IsFlowPart part }
    ensures tells { IfOk result (TellsFlow F.within (flow_part F.reading part)) }
    ensures own { IfOk result (λ r. IfSome r
        (λ s. (s.0 ≡ part_flow part) × (is_over s.1 ≡ part_over part))) }
{
    match part {
        FlowPart::Absent => Ok(None),
        FlowPart::Live { checkpoint } => {
            Ok(read_checkpoint(alloc, checkpoint.as_slice())?.map(live))
        }
        FlowPart::Ended {
            flow,
            step,
            class,
            value,
        } => Ok(Some((flow, FlowState::Ended { step, class, value }))),
        FlowPart::Failed {
            flow,
            step,
            class,
            code,
        } => Ok(Some((flow, FlowState::Failed { step, class, code }))),
    }
}

/// Whether the part tells of no flow.
fn is_absent(part: &FlowPart) -> bool
    ensures { result ≡ is_absent part.now }
{
    match part {
        FlowPart::Absent => true,
        FlowPart::Live { .. } | FlowPart::Ended { .. } | FlowPart::Failed { .. } => false,
    }
}

/// The flow that was told, or that a part tells of none; `None` where it should tell of a flow and doesn't.
fn after_told<F: Drop>(
    absent: bool,
    told: Option<(u32, FlowState<F>)>,
) -> Option<Option<FlowAfter<F>>>
    ensures { result ≡ after_told absent told }
{
    match told {
        None => { if absent { Some(None) } else { None } }
        Some((number, state)) => Some(Some(FlowAfter { number, state })),
    }
}

/// The flow of which a part tells, or that it tells of none; `None` where its checkpoint is none of the flow set's.
fn part_told<F: Spelt + Drop>(
    alloc: Global,
    part: FlowPart,
) -> Result<Option<Option<FlowAfter<F>>>, AllocError>
    requires { IsFlowPart part }
    ensures tells { IfOk result (TellsAfter F.within (flow_part F.reading part)) }
    ensures own { IfOk result (λ r. IfSome r
        (λ flow. (owner_of flow ≡ part_flow part) × (ends_with flow ≡ part_over part))) }
{
    let absent = is_absent(&part);
    let told = flow_after(alloc, part)?;
    Ok(after_told(absent, told))
}

/// The step of a cause, the flow after it, and what it changes in the sessions and in the ledger, where the flow was told.
fn joined<F: Drop>(
    told: Option<Option<FlowAfter<F>>>,
    cause: Cause,
    session: SessionChange,
    ledger: LedgerChange,
) -> Option<Step<F>>
    ensures { result ≡ option_map (step_with cause session ledger) told }
{
    match told {
        None => {
            drop(session);
            drop(ledger);
            None
        }
        Some(flow) => Some(Step {
            cause,
            flow,
            session,
            ledger,
        }),
    }
}

/// The step of a cause and its effect, `None` where its checkpoint is none of the flow set's.
fn step_of<F: Spelt + Drop>(
    alloc: Global,
    cause: Cause,
    effect: Effect,
) -> Result<Option<Step<F>>, AllocError>
    requires cause { IsCause cause }
    requires effect { IsEffect cause effect }
    ensures tells { IfOk result (TellsStep F.within (record_over F.reading cause effect)) }
    ensures session { IfOk result (λ r. IfSome r (λ step. step.session ≡ effect.session)) }
{
    let Effect {
        flow,
        session,
        ledger,
    } = effect;
    let told = part_told(alloc, flow)?;
    Ok(joined(told, cause, session, ledger))
}

/// The step whose record the bytes are: `None` exactly where they are no record, or their checkpoint is none of the flow set's. The
/// bytes of what the step changes in the sessions are a part of the record's.
///
/// # Errors
///
/// Want of memory.
pub fn read_step<F: Spelt + Drop>(
    alloc: Global,
    bytes: &[u8],
) -> Result<Option<Step<F>>, AllocError>
    ensures tells { IfOk result (TellsStep F.within (record_of F.reading bytes.now)) }
    ensures few { IfOk result (λ r. IfSome r
        (λ step. length (session_text step.session) ≤ length bytes.now)) }
{
    match decode_record(alloc, bytes) {
        Ok((cause, effect)) => step_of(alloc, cause, effect),
        Err(DecodeFault::Memory) => Err(AllocError),
        Err(DecodeFault::Malformed { .. }) => Ok(None),
    }
}
