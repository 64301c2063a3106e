//! The history of the network.

ghost use Rattle.std.specs.Prelude.{◌≡◌, ◌≤◌, IfOk, string_bytes, length, map};
ghost use Rattle.net_model.specs.Runs.{merged, lent};
ghost use Rattle.net_model.specs.Print.{event_line, history_line, history_lines, history_text};

use net_base::{Cause, Event};
use net_model::merge;
use std::alloc::{AllocError, Global};
use std::fmt::Write;

// What happened.
fn event_line(alloc: Global, event: &Event) -> Result<String, AllocError>
    ensures { IfOk result (λ text. string_bytes text ≡ event_line event.now) }
{
    match event {
        Event::Start { flow, class, .. } => {
            let line = format!(in alloc; "start {flow} {class}")?;
            Ok(line)
        }
        Event::Answer { key } => {
            let line = format!(in alloc; "answer {} {}", key.initiator.0, key.number)?;
            Ok(line)
        }
        Event::Arrive {
            key,
            direction,
            number,
        } => {
            let line = format!(in alloc;
                "arrive {} {} {direction} {number}",
                key.initiator.0, key.number
            )?;
            Ok(line)
        }
        Event::Move { flow } => format!(in alloc; "move {flow}"),
        Event::Lapse { flow } => format!(in alloc; "lapse {flow}"),
    }
}

// The line of a cause of a node, without its end.
fn history_line(alloc: Global, node: u8, cause: &Cause) -> Result<String, AllocError>
    ensures { IfOk result (λ text. string_bytes text ≡ history_line (node, cause.now)) }
{
    let event = event_line(alloc, &cause.event)?;
    let line = format!(in alloc; "h {} {node} {} {event}", cause.stamp, cause.moment.0)?;
    Ok(line)
}

// A line for each cause.
fn history_lines(alloc: Global, causes: &[(u8, &Cause)]) -> Result<String, AllocError>
    ensures { IfOk result (λ text. string_bytes text ≡ history_lines (lent causes.now)) }
{
    let mut out = String::new(alloc);
    for (node, cause) in causes {
        let line = history_line(alloc, *node, cause)?;
        writeln!(out, "{line}")?;
    }
    Ok(out)
}

/// A line for each cause of all nodes, in their one order, or the line `none`. The list at place p is that of node p. Copies no
/// cause.
///
/// # Errors
///
/// `AllocError` for want of memory.
pub fn history_text(alloc: Global, lists: &[&[Cause]]) -> Result<String, AllocError>
    requires few { length lists.now ≤ 16 }
    ensures { IfOk result (λ text. string_bytes text
        ≡ history_text (merged (map (λ l. l.now) lists.now))) }
{
    let causes = merge(alloc, lists)?;
    if causes.len() == 0 {
        return String::from_str(alloc, "none\n");
    }
    history_lines(alloc, causes.as_slice())
}
