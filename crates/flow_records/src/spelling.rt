//! The bytes of a record of a flow or of none, and of sessions.

ghost use Rattle.std.specs.Prelude.{◌≡◌, ◌≤◌, Some, IfOk, IfSome, length};
ghost use Rattle.flow_machine.specs.Checkpoints.{IsCheckpoint, checkpoint_text};
ghost use Rattle.transition_record.specs.Causes.{IsCause, came_key_of};
ghost use Rattle.transition_record.specs.Changes.{IsSession, IsLedger, session_text};
ghost use Rattle.net_model.specs.Sound.{IsNumbered};
ghost use Rattle.flow_records.specs.Records.{record_of, IsFlow};
ghost use Rattle.flow_records.specs.Spelling.{is_over, IsPartOf};
ghost use Rattle.flow_records.specs.Steps.{step_record, no_ledger, owner_of, ends_with, IsAfter, IsPartAfter};

use crate::step::{FlowAfter, Step};
use flow_machine::{Checkpoint, FlowSet, FlowState};
use ledger_types::LedgerChange;
use net_base::{ByteList, ListOf};
use session_wire::FlowPart;
use std::alloc::{AllocError, Global};
use transition_record::{encode_parts, writer_with_room};

/// Whether the flow has ended or failed.
fn is_over<F>(state: &FlowState<F>) -> bool
    ensures { result ≡ is_over state.now }
{
    match state {
        FlowState::Live(_) => false,
        FlowState::Ended { .. } | FlowState::Failed { .. } => true,
    }
}

/// The bytes of a checkpoint.
fn spell_checkpoint<F: FlowSet>(alloc: Global, at: &Checkpoint<F>) -> Result<ByteList, AllocError>
    requires { IsCheckpoint F.within at.now }
    ensures { IfOk result (λ bytes. bytes ≡ checkpoint_text F.spelling at.now) }
{
    let mut out = writer_with_room(alloc)?;
    at.encode(alloc, &mut out)?;
    Ok(out.into_bytes())
}

/// What becomes of the flow of the number where it is this.
fn part_of_flow<F: FlowSet>(
    alloc: Global,
    number: u32,
    state: &FlowState<F>,
) -> Result<FlowPart, AllocError>
    requires limits { IsFlow F.within state.now }
    requires own { IsNumbered number state.now }
    ensures { IfOk result (IsPartOf F.reading number state.now) }
{
    match state {
        FlowState::Live(at) => Ok(FlowPart::Live {
            checkpoint: spell_checkpoint(alloc, at)?,
        }),
        FlowState::Ended { step, class, value } => Ok(FlowPart::Ended {
            flow: number,
            step: *step,
            class: *class,
            value: value.copy(alloc)?,
        }),
        FlowState::Failed { step, class, code } => Ok(FlowPart::Failed {
            flow: number,
            step: *step,
            class: *class,
            code: *code,
        }),
    }
}

/// That nothing changes of the ledger, by the flow of the number, which is over or not. Takes no memory.
pub fn no_ledger(alloc: Global, number: u32, ended: bool) -> LedgerChange
    ensures { result ≡ no_ledger number ended }
{
    LedgerChange {
        recorded: None,
        locked: ListOf::new(alloc),
        owner: number,
        ended,
        booked: None,
    }
}

/// The flow that owns what a step makes, 0 where it changes none.
fn owner_of<F>(flow: &Option<FlowAfter<F>>) -> u32
    ensures { result ≡ owner_of flow.now }
{
    match flow {
        None => 0,
        Some(after) => after.number,
    }
}

/// Whether the flow is over with the step.
fn ends_with<F>(flow: &Option<FlowAfter<F>>) -> bool
    ensures { result ≡ ends_with flow.now }
{
    match flow {
        None => false,
        Some(after) => is_over(&after.state),
    }
}

/// That nothing changes of the ledger, by the flow that a step changes, if it changes one. Takes no memory.
pub fn unchanged_ledger<F>(alloc: Global, flow: &Option<FlowAfter<F>>) -> LedgerChange
    ensures { result ≡ no_ledger (owner_of flow.now) (ends_with flow.now) }
{
    no_ledger(alloc, owner_of(flow), ends_with(flow))
}

/// What becomes of the flow.
fn part_after<F: FlowSet>(
    alloc: Global,
    flow: &Option<FlowAfter<F>>,
) -> Result<FlowPart, AllocError>
    requires { IfSome flow.now (IsAfter F.within) }
    ensures { IfOk result (IsPartAfter F.reading flow.now) }
{
    match flow {
        None => Ok(FlowPart::Absent),
        Some(after) => part_of_flow(alloc, after.number, &after.state),
    }
}

/// The bytes of the record of a step. They are at most 524,288, by these bounds: the cause 65,560 bytes, what becomes of the flow
/// 300,000 (a checkpoint has at most 294,942), what changes in the sessions 50,000, what changes in the ledger 32,815; together
/// 448,375. That the sessions' part is so short is asked of the caller: an act opens one session at most, and sends one item of its
/// own or one to each of the 64 sessions at most that its flow owns.
///
/// # Errors
///
/// Want of memory.
pub fn spell_step<F: FlowSet>(alloc: Global, step: &Step<F>) -> Result<ByteList, AllocError>
    requires cause { IsCause step.now.cause }
    requires flow { IfSome step.now.flow (IsAfter F.within) }
    requires session { IsSession (owner_of step.now.flow)
        (came_key_of step.now.cause.event) step.now.session }
    requires ledger { IsLedger (owner_of step.now.flow) (ends_with step.now.flow) step.now.ledger }
    requires few { length (session_text step.now.session) ≤ 50000 }
    ensures record { IfOk result (λ bytes. record_of F.reading bytes
        ≡ Some (step_record step.now)) }
    ensures size { IfOk result (λ bytes. length bytes ≤ 524288) }
{
    let part = part_after(alloc, &step.flow)?;
    let bytes = encode_parts(alloc, &step.cause, &part, &step.session, &step.ledger);
    drop(part);
    bytes
}
