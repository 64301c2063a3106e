//! The flows of a node.

ghost use Rattle.std.specs.Prelude.{◌≡◌, ◌++◌, ◌∷◌, [], None, Some, IfOk, MatchOption, string_bytes, slice_get};
ghost use Rattle.flow_machine.specs.declared.flows.FlowState.{FlowState};
ghost use Rattle.checkpoints.specs.Views.{state_of};
ghost use Rattle.net_model.specs.Print.{act_name, value_text, flow_line, flow_lines, flows_text};

use checkpoints::{FlowView, Flows};
use flow_machine::Act;
use ledger_types::Value;
use std::alloc::{AllocError, Global};

fn act_name<F>(act: &Act<F>) -> &'static str
    ensures { result.now ≡ act_name act.now }
{
    match act {
        Act::Open { .. } => "open",
        Act::Send { .. } => "send",
        Act::Receive { .. } => "receive",
        Act::ReceiveBy { .. } => "receiveby",
        Act::Sleep { .. } => "sleep",
        Act::Sub { .. } => "sub",
        Act::Verify { .. } => "verify",
        Act::Reserve { .. } => "reserve",
        Act::Lookup { .. } => "lookup",
        Act::Missing { .. } => "missing",
        Act::Sign { .. } => "sign",
        Act::Notarise { .. } => "notarise",
        Act::Record { .. } => "record",
        Act::Return { .. } => "return",
        Act::Fail { .. } => "fail",
    }
}

// What a flow ended with.
fn value_text(alloc: Global, value: &Value) -> Result<String, AllocError>
    ensures { IfOk result (λ text. string_bytes text ≡ value_text value.now) }
{
    match value {
        Value::Unit => String::from_str(alloc, "unit"),
        Value::Number(number) => format!(in alloc; "number {number}"),
        Value::Id(id) => {
            let digits = hex::encode(alloc, id.0)?;
            format!(in alloc; "id {digits}")
        }
        _ => String::from_str(alloc, "value"),
    }
}

// The line of a flow, without its end.
fn flow_line<F>(alloc: Global, number: u32, flow: &FlowView<'_, F>) -> Result<String, AllocError>
    ensures { IfOk result (λ text. string_bytes text ≡ flow_line number (state_of flow.now)) }
{
    match flow {
        FlowView::Live(at) => {
            let name = act_name(&at.waiting);
            let line = format!(in alloc;
                "flow {number} class {} steps {} waits {name}",
                at.class, at.step
            )?;
            Ok(line)
        }
        FlowView::Ended { step, class, value } => {
            let value = value_text(alloc, value)?;
            let line = format!(in alloc; "flow {number} class {class} steps {step} ended {value}")?;
            Ok(line)
        }
        FlowView::Failed { step, class, code } => {
            let line = format!(in alloc; "flow {number} class {class} steps {step} failed {code}")?;
            Ok(line)
        }
    }
}

/// The line of a flow, with its end; `None` where there is no such flow.
///
/// # Errors
///
/// `AllocError` for want of memory.
pub fn flow_text<F: Drop>(
    alloc: Global,
    flows: &Flows<F>,
    number: u32,
) -> Result<Option<String>, AllocError>
    ensures { IfOk result (λ found. MatchOption found (slice_get flows.now.flows number ≡ None)
        (λ text. (flow : FlowState F) × (slice_get flows.now.flows number ≡ Some flow)
        × (string_bytes text ≡ flow_line number flow ++ 10 ∷ []))) }
{
    match flows.get(number) {
        None => Ok(None),
        Some(flow) => {
            let line = flow_line(alloc, number, &flow)?;
            let text = format!(in alloc; "{line}\n")?;
            Ok(Some(text))
        }
    }
}

// A line for each flow.
fn flow_lines<F: Drop>(alloc: Global, flows: &Flows<F>) -> Result<String, AllocError>
    ensures { IfOk result (λ text. string_bytes text ≡ flow_lines 0 flows.now.flows) }
{
    let mut out = String::new(alloc);
    for number in 0..flows.count() {
        if let Some(line) = flow_text(alloc, flows, number)? {
            out.push_str(line.as_str())?;
        }
    }
    Ok(out)
}

/// A line for each flow by number, or the line `none`.
///
/// # Errors
///
/// `AllocError` for want of memory.
pub fn flows_text<F: Drop>(alloc: Global, flows: &Flows<F>) -> Result<String, AllocError>
    ensures { IfOk result (λ text. string_bytes text ≡ flows_text flows.now.flows) }
{
    if flows.count() == 0 {
        return String::from_str(alloc, "none\n");
    }
    flow_lines(alloc, flows)
}
