//! The causes of all nodes in one order.

ghost use Rattle.std.specs.Prelude.{◌≡◌, ◌+◌, ◌≤◌, ◌++◌, ◌∷◌, ℕ, [], List, IfOk, OnOk, drop, length, map};
ghost use Rattle.net_base.specs.declared.causes.Cause.{Cause as OfCause};
ghost use Rattle.net_model.specs.Runs.{is_before, stamp_of, at_node, merged_with, merge_from, merged, lent};

use net_base::Cause;
use std::alloc::{AllocError, Global};

/// Merges the causes of all nodes, the list at place p being that of node p: each with its node, by stamp and at the same stamp by
/// node, where the stamps of each list rise (Lamport, Time, Clocks, and the Ordering of Events in a Distributed System, 1978). There are
/// 16 lists at most, and any of them may be empty. Copies no cause: it lends each, and moves what it lends once for each list before
/// its own.
///
/// # Errors
///
/// Want of memory alone.
#[tactic(auto, unfolding(crate::specs::Runs::merge))]
pub fn merge<'a>(alloc: Global, lists: &[&'a [Cause]]) -> Result<Vec<(u8, &'a Cause)>, AllocError>
    requires few { length lists.now ≤ 16 }
    ensures { IfOk result (λ list. lent list.items ≡ merged (map (λ l. l.now) lists.now)) }
{
    merge_from(alloc, 0, lists)
}

/// The lists of the nodes from `node` on, merged.
fn merge_from<'a>(
    alloc: Global,
    node: u8,
    lists: &[&'a [Cause]],
) -> Result<Vec<(u8, &'a Cause)>, AllocError>
    requires { node + length lists.now ≤ 16 }
    ensures { IfOk result (λ list. lent list.items
        ≡ merge_from stamp_of node (map (λ l. l.now) lists.now)) }
{
    match lists {
        [] => Ok(Vec::new(alloc)),
        [first, rest @ ..] => {
            let later = merge_from(alloc, node + 1, rest)?;
            merge_with(alloc, node, first, later)
        }
    }
}

/// The causes of a node merged with those of the nodes behind it.
fn merge_with<'a>(
    alloc: Global,
    node: u8,
    causes: &'a [Cause],
    later: Vec<(u8, &'a Cause)>,
) -> Result<Vec<(u8, &'a Cause)>, AllocError>
    ensures { IfOk result (λ list. lent list.items
        ≡ merged_with node causes.now (lent later.entry.items)) }
{
    let mut all = Vec::new(alloc);
    let mut place = 0;
    for (other, next) in later {
        place = add_until(node, causes, place, other, next, &mut all)?;
        add(other, next, &mut all)?;
    }
    add_all(node, &causes[place..], &mut all)?;
    Ok(all)
}

/// Adds the causes of a node from a place on, up to the first that comes after the next cause of another node; gives its place.
fn add_until<'a>(
    node: u8,
    causes: &'a [Cause],
    from: usize,
    other: u8,
    next: &Cause,
    all: &mut Vec<(u8, &'a Cause)>,
) -> Result<usize, AllocError>
    requires { from ≤ length causes.now }
    ensures place { IfOk result (λ place. place ≤ length causes.now) }
    ensures added { IfOk result (λ place. (rest : List (ℕ × OfCause))
        → lent all.new.items ++ (other, next.now) ∷ merged_with node (drop place causes.now) rest
        ≡ lent all.old.items
        ++ merged_with node (drop from causes.now) ((other, next.now) ∷ rest)) }
{
    let mut place = from;
    while place < causes.len() {
        let cause = &causes[place];
        if comes_before(other, next, node, cause) {
            return Ok(place);
        }
        add(node, cause, all)?;
        place += 1;
    }
    Ok(place)
}

/// Adds the causes of a node.
fn add_all<'a>(
    node: u8,
    causes: &'a [Cause],
    all: &mut Vec<(u8, &'a Cause)>,
) -> Result<(), AllocError>
    ensures { OnOk result (lent all.new.items ≡ lent all.old.items ++ at_node node causes.now) }
{
    for cause in causes {
        add(node, cause, all)?;
    }
    Ok(())
}

/// Adds a cause of a node.
fn add<'a>(node: u8, cause: &'a Cause, all: &mut Vec<(u8, &'a Cause)>) -> Result<(), AllocError>
    ensures { OnOk result (lent all.new.items ≡ lent all.old.items ++ (node, cause.now) ∷ []) }
{
    all.push((node, cause))?;
    Ok(())
}

/// Whether the cause of `node` comes before `next`, a cause of another node.
fn comes_before(node: u8, cause: &Cause, other: u8, next: &Cause) -> bool
    ensures { result ≡ is_before stamp_of (node, cause.now) (other, next.now) }
{
    cause.stamp < next.stamp || (cause.stamp == next.stamp && node < other)
}
