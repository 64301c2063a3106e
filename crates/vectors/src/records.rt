use super::columns::{bytes, let_go};
use anyhow::{Result, bail};
use flow_machine::Stack;
use net_base::DecodeFault;
use std::alloc::Global;
use transition_record::{decode_record, encode_record};

/// `record BYTES`: whether the bytes are a record that is spelt so, `spelt` or `malformed`.
pub fn record_of(alloc: Global, values: &[&str]) -> Result<String> {
    let [column] = values else {
        bail!("a record has one value")
    };
    let bytes = bytes(alloc, column)?;
    let answer = match decode_record(alloc, bytes.as_slice()) {
        Ok((cause, effect)) => {
            let spelt = encode_record(alloc, &cause, &effect);
            let_go(cause);
            let_go(effect);
            if spelt?.as_slice() == bytes.as_slice() {
                "spelt"
            } else {
                "another spelling"
            }
        }
        Err(DecodeFault::Malformed { .. }) => "malformed",
        Err(DecodeFault::Memory) => bail!("out of memory"),
    };
    Ok(String::from_str(alloc, answer)?)
}

/// `told BYTES`: what the record tells, as numbers: the flow, and whether it is over, a session's item came and a transaction is recorded;
/// how many states are locked; and whether an answer is booked.
pub fn told_by(alloc: Global, values: &[&str]) -> Result<String> {
    let [column] = values else {
        bail!("a record has one value")
    };
    let (cause, effect) = decode_record(alloc, bytes(alloc, column)?.as_slice())?;
    let (flow, over) = (effect.ledger.owner, u8::from(effect.ledger.ended));
    let came = u8::from(effect.session.came_key.is_some());
    let recorded = u8::from(effect.ledger.recorded.is_some());
    let locked = effect.ledger.locked.len();
    let booked = u8::from(effect.ledger.booked.is_some());
    let_go(cause);
    let_go(effect);
    Ok(format!(in alloc; "{flow} {over} {came} {recorded} {locked} {booked}")?)
}

/// `stack BOTTOM TOP OTHER`: a stack of two frames whose top one is replaced, and what there is once it has returned.
pub fn stack_of(alloc: Global, values: &[&str]) -> Result<String> {
    let [bottom, top, other] = values else {
        bail!("a stack has three values")
    };
    let stack = Stack::new(alloc, bottom.parse::<u32>()?)?;
    let stack = stack.with_callee(alloc, top.parse::<u32>()?)?;
    let stack = stack.with_top(alloc, other.parse::<u32>()?)?;
    let depth = stack.depth();
    let returns = *stack.top();
    let Some(caller) = stack.caller() else {
        bail!("the top frame has no caller")
    };
    let stack = stack.with_caller(alloc, *caller)?;
    let left = *stack.top();
    let rest = stack.depth() - 1;
    let last = u8::from(stack.caller().is_some());
    Ok(format!(in alloc; "{depth} {returns} {left} {rest} {last}")?)
}
