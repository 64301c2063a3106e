//! Records, both ways.

ghost use Rattle.std.specs.Prelude.{◌≡◌, ◌<◌, ◌≤◌, [], IfOk, length};
ghost use Rattle.net_base.specs.Parts.{Writes};
ghost use Rattle.net_base.specs.declared.causes.Cause.{Cause};
ghost use Rattle.session_wire.specs.declared.effect.Effect.{Effect};
ghost use Rattle.transition_record.specs.Records.{IsRecord, record_text, IsUnbounded, unbounded_text, record_at, record_laws, GivesRecord, GivesBack, IsEffect, effect_text};

use crate::causes::{came_key, read_cause, write_cause};
use crate::flow::{flow_of, is_over, read_flow_part, write_flow_part};
use crate::ledger::{read_ledger, write_ledger};
use crate::session::{read_session, write_session};
use ledger_types::LedgerChange;
use net_base::{ByteList, Cause, DecodeFault, PartFault, Reader, Spelt, Writer, decode_whole};
use session_wire::{Effect, FlowPart, SessionChange};
use std::alloc::{AllocError, Global};

/// No record has more bytes.
pub const RECORD_LIMIT: usize = 524_288;

/// A cause and what it changed.
#[derive(Debug, Drop)]
pub(crate) struct Record {
    cause: Cause,
    effect: Effect,
}

fn write_effect(alloc: Global, effect: &Effect, out: &mut Writer) -> Result<(), AllocError>
    requires { (cause : Cause) × IsEffect cause effect.now }
    ensures { Writes (effect_text effect.now) result out.old out.new }
{
    write_flow_part(alloc, &effect.flow, out)?;
    write_session(alloc, &effect.session, out)?;
    write_ledger(alloc, &effect.ledger, out)?;
    Ok(())
}

#[tactic(auto, unfolding(crate::specs::Records::record_at))]
impl Spelt for Record {
    ghost spelling = { unbounded_text };

    ghost within = { IsUnbounded };

    ghost reading = { record_at };

    ghost laws = { record_laws };

    fn read_part(alloc: Global, from: &mut Reader) -> Result<Record, PartFault> {
        let cause = read_cause(alloc, from)?;
        let flow = read_flow_part(alloc, from)?;
        let owner = flow_of(&flow);
        let session = read_session(alloc, from, owner, came_key(&cause.event))?;
        let ledger = read_ledger(alloc, from, owner, is_over(&flow))?;
        Ok(Record {
            cause,
            effect: Effect {
                flow,
                session,
                ledger,
            },
        })
    }

    fn write_part(&self, alloc: Global, out: &mut Writer) -> Result<(), AllocError> {
        write_cause(alloc, &self.cause, out)?;
        write_effect(alloc, &self.effect, out)?;
        Ok(())
    }
}

/// A writer of no bytes. It has held 96 bytes and keeps their memory, so that short records are written without taking memory again.
/// No clause says so: contracts see of a writer its bytes alone.
///
/// # Errors
///
/// Want of memory.
pub fn writer_with_room(alloc: Global) -> Result<Writer, AllocError>
    ensures { IfOk result (λ out. out ≡ []) }
{
    let mut out = Writer::new(alloc);
    out.put_bytes(alloc, &[0; 96])?;
    out.truncate(0);
    Ok(out)
}

/// The bytes of the record of a cause and what it changed, at most `RECORD_LIMIT`.
///
/// The bytes don't say which flow owns a session or a lock, whether the flow has ended, or which session an accepted item belongs
/// to. These must be so in the effect as `decode_record` gives them: both owners are the flow of the effect, or 0 without one;
/// `ended` is true exactly where that flow has ended or failed; `came_key` is the key of an `Answer` or `Arrive`, else `None`.
///
/// # Errors
///
/// Want of memory.
pub fn encode_record(alloc: Global, cause: &Cause, effect: &Effect) -> Result<ByteList, AllocError>
    requires { IsRecord cause.now effect.now }
    ensures text { IfOk result (λ bytes. bytes ≡ record_text cause.now effect.now) }
    ensures size { IfOk result (λ bytes. length bytes ≤ RECORD_LIMIT) }
{
    encode_parts(alloc, cause, &effect.flow, &effect.session, &effect.ledger)
}

/// The bytes of the record of a cause and of the effect that has these parts, on the same terms as `encode_record`.
///
/// # Errors
///
/// Want of memory.
pub fn encode_parts(
    alloc: Global,
    cause: &Cause,
    flow: &FlowPart,
    session: &SessionChange,
    ledger: &LedgerChange,
) -> Result<ByteList, AllocError>
    requires { IsRecord cause.now (record {
      flow = flow.now;
      session = session.now;
      ledger = ledger.now;
    }) }
    ensures text { IfOk result (λ bytes. bytes
        ≡ record_text cause.now (record {
          flow = flow.now;
          session = session.now;
          ledger = ledger.now;
        })) }
    ensures size { IfOk result (λ bytes. length bytes ≤ RECORD_LIMIT) }
{
    let mut out = writer_with_room(alloc)?;
    write_cause(alloc, cause, &mut out)?;
    write_flow_part(alloc, flow, &mut out)?;
    write_session(alloc, session, &mut out)?;
    write_ledger(alloc, ledger, &mut out)?;
    Ok(out.into_bytes())
}

/// The cause and the effect whose record the bytes are.
///
/// # Errors
///
/// `Malformed { at: 0 }` exactly where the bytes aren't one record, and `Memory`.
pub fn decode_record(alloc: Global, bytes: &[u8]) -> Result<(Cause, Effect), DecodeFault>
    ensures record { GivesRecord result bytes.now }
    ensures back { (cause : Cause) (effect : Effect) → IsRecord cause effect
        → bytes.now ≡ record_text cause effect → GivesBack cause effect result }
{
    if bytes.len() > RECORD_LIMIT {
        return Err(DecodeFault::Malformed { at: 0 });
    }
    match decode_whole::<Record>(alloc, bytes) {
        Ok(record) => Ok((record.cause, record.effect)),
        Err(DecodeFault::Memory) => Err(DecodeFault::Memory),
        Err(DecodeFault::Malformed { .. }) => Err(DecodeFault::Malformed { at: 0 }),
    }
}
