//! A made load of payments: each node but the notary issues cash, and then pays another, as a seed says.

ghost use Rattle.net_model.specs.Environment.{meaning};
ghost use Rattle.std.specs.Prelude.{◌≡◌, ◌<◌, ◌≤◌, ◌++◌, IfOk, OnOk, OnErr, length, map, is_some, option_map, string_bytes, true, false};
ghost use Rattle.std.specs.Option.{option_map_or};
ghost use Rattle.std.specs.List.{AllByRecursion, flat_map, list_all};
ghost use Rattle.ledger_types.specs.Vaults.{IsHeld};
ghost use Rattle.checkpoints.specs.Views.{state_of};
ghost use Rattle.node_core.specs.Seen.{NodeSeen};
ghost use Rattle.node_shell.specs.Lines.{ended_by, is_ended};
ghost use Rattle.node_shell.specs.Replies.{is_end};
ghost use Rattle.node_shell.specs.Loads.{Breaks, IsMade, Loads, Pays, PaysShort, all_but, deal_of, deals_of, issue_by, issues_by, load_text, pay_by, started, start_by, then_drain};
ghost use Rattle.node_shell.specs.Responds.{ended_seen, given, held_of, net_states};

use super::replies::Reply;
use super::serving::{notary_of, refused};
use checkpoints::FlowView;
use contract_verify::Judge;
use flow_machine::{FlowSet, WordFault};
use ledger_types::Held;
use load_maker::{Maker, Payment};
use network_core::{Net, Outcome, Refusal, Step};
use node_core::Node;
use outside::Bay;
use shell_report::totals_text;
use std::alloc::{AllocError, Global};

/// This many places from 0 on without one of them, ascending.
fn all_but(alloc: Global, one: u8, count: usize) -> Result<Vec<u8>, AllocError>
    requires { count ≤ 16 }
    ensures { IfOk result (λ places. places.items ≡ all_but one count) }
{
    let mut places = Vec::new(alloc);
    for place in 0..count {
        if place != one as usize {
            places.push(place as u8)?;
        }
    }
    Ok(places)
}

/// Adds the start of a flow that these words name, if they name one.
fn add_start<F: FlowSet>(
    alloc: Global,
    steps: &mut Vec<Step>,
    node: u8,
    class: &str,
    args: &[String],
) -> Result<(), AllocError>
    ensures { OnOk result (steps.new.items
        ≡ steps.old.items ++ start_by node
        (F.machine.worded class.now (map (λ s. string_bytes s) args.now))) }
{
    match F::read_words(alloc, class, args) {
        Ok((class, args)) => steps.push(Step::Start { node, class, args })?,
        Err(WordFault::Memory) => return Err(AllocError),
        Err(WordFault::UnknownClass | WordFault::BadArgs) => {}
    }
    Ok(())
}

/// Adds the start by which a node issues 1,000,000 to itself.
fn add_issue<F: FlowSet>(alloc: Global, steps: &mut Vec<Step>, node: u8) -> Result<(), AllocError>
    ensures { OnOk result (steps.new.items ≡ steps.old.items ++ issue_by F.machine node) }
{
    let mut args = Vec::new(alloc);
    args.push(String::from_str(alloc, "USD")?)?;
    args.push(String::from_str(alloc, "1000000")?)?;
    add_start::<F>(alloc, steps, node, "issue", args.as_slice())
}

/// The starts by which each of these nodes does.
fn issues<F: FlowSet>(alloc: Global, nodes: &[u8]) -> Result<Vec<Step>, AllocError>
    ensures { IfOk result (λ steps. steps.items ≡ issues_by F.machine nodes.now) }
{
    let mut steps = Vec::new(alloc);
    for node in nodes {
        add_issue::<F>(alloc, &mut steps, *node)?;
    }
    Ok(steps)
}

/// The start by which a node pays another.
fn payment<F: FlowSet>(
    alloc: Global,
    from: u8,
    to: u8,
    amount: u64,
) -> Result<Vec<Step>, AllocError>
    ensures { IfOk result (λ steps. steps.items ≡ pay_by F.machine from to amount) }
{
    let mut args = Vec::new(alloc);
    args.push(to.to_string(alloc)?)?;
    args.push(String::from_str(alloc, "USD")?)?;
    args.push(from.to_string(alloc)?)?;
    args.push(amount.to_string(alloc)?)?;
    let mut steps = Vec::new(alloc);
    add_start::<F>(alloc, &mut steps, from, "pay", args.as_slice())?;
    Ok(steps)
}

/// Makes these starts, and a drain behind them; gives their outcomes.
fn start_and_drain<B: Bay, F: FlowSet, J: Judge>(
    alloc: Global,
    net: &mut Net<B, F>,
    starts: Vec<Step>,
    contracts: &J,
) -> Result<Vec<Outcome>, AllocError>
    ensures ok { IfOk result (λ outcomes.
        (net_states (meaning F.machine F.reading (J.judges contracts.now))).follows
        (then_drain starts.items) outcomes.items true net.old net.new) }
    ensures err { OnErr result (Breaks
        (net_states (meaning F.machine F.reading (J.judges contracts.now)))
        (then_drain starts.items) net.old net.new) }
    ensures count { length net.new.nodes ≡ length net.old.nodes }
{
    let mut steps = starts;
    steps.push(Step::Drain)?;
    let mut outcomes = Vec::with_capacity(alloc, steps.len())?;
    if net.apply_all(alloc, steps.as_slice(), &mut outcomes, contracts) {
        Ok(outcomes)
    } else {
        Err(AllocError)
    }
}

/// Whether a flow that was looked up has ended without failure.
fn is_ended<F>(flow: Option<FlowView<'_, F>>) -> bool
    ensures { result ≡ is_ended (option_map state_of flow.entry) }
{
    matches!(flow, Some(FlowView::Ended { .. }))
}

/// Whether a flow of a node has, where the node is up.
fn ended_at<B: Bay, F: FlowSet>(node: &Node<B, F>, flow: u32) -> bool
    ensures { result ≡ option_map_or (ended_by F.reading flow) node.now.journal false }
{
    match node.flows() {
        None => false,
        Some(flows) => is_ended(flows.get(flow)),
    }
}

/// Whether a flow of the node at a place has, where there is one that is up.
fn has_ended<B: Bay, F: FlowSet>(net: &Net<B, F>, place: u8, flow: u32) -> bool
    ensures { result ≡ ended_seen F.reading place flow net.entry.now }
{
    match net.nodes().get(place as usize) {
        None => false,
        Some(node) => ended_at(node, flow),
    }
}

/// The flow that a start began, by the outcomes of it and of the steps behind it.
fn started(outcomes: &[Outcome]) -> Option<u32>
    ensures { result ≡ started outcomes.now }
{
    match outcomes {
        [Outcome::Started { flow }, ..] => Some(*flow),
        _ => None,
    }
}

/// Whether a payment of which these are the outcomes is paid.
fn is_paid<B: Bay, F: FlowSet>(net: &Net<B, F>, node: u8, outcomes: &[Outcome]) -> bool
    ensures { result ≡ option_map_or (λ flow. ended_seen F.reading node flow net.entry.now)
        (started outcomes.now) false }
{
    match started(outcomes) {
        None => false,
        Some(flow) => has_ended(net, node, flow),
    }
}

/// Makes the payment that was drawn for these nodes, with a drain behind it; says whether it is paid.
fn pay<B: Bay, F: FlowSet, J: Judge>(
    alloc: Global,
    net: &mut Net<B, F>,
    nodes: &[u8],
    drawn: Payment,
    contracts: &J,
) -> Result<bool, AllocError>
    requires { (drawn.from < length nodes.now) × (drawn.to < length nodes.now) }
    ensures ok { IfOk result (IsMade (net_states
        (meaning F.machine F.reading (J.judges contracts.now)))
        (deal_of F.machine nodes.now drawn) net.old net.new) }
    ensures err { OnErr result (Breaks
        (net_states (meaning F.machine F.reading (J.judges contracts.now)))
        (then_drain (deal_of F.machine nodes.now drawn).starts) net.old net.new) }
    ensures count { length net.new.nodes ≡ length net.old.nodes }
{
    let from = nodes[drawn.from as usize];
    let to = nodes[drawn.to as usize];
    let starts = payment::<F>(alloc, from, to, drawn.amount)?;
    let outcomes = start_and_drain(alloc, net, starts, contracts)?;
    Ok(is_paid(net, from, outcomes.as_slice()))
}

/// Makes this many payments between these nodes, drawn from the seed; says how many of them are paid.
fn pay_all<B: Bay, F: FlowSet, J: Judge>(
    alloc: Global,
    net: &mut Net<B, F>,
    nodes: &[u8],
    seed: u64,
    count: u64,
    contracts: &J,
) -> Result<u64, AllocError>
    requires { (2 ≤ length nodes.now) × (length nodes.now ≤ 16) }
    ensures ok { IfOk result (λ paid. Pays
        (net_states (meaning F.machine F.reading (J.judges contracts.now)))
        (deals_of F.machine nodes.now seed count) paid net.old net.new) }
    ensures few { IfOk result (λ paid. paid ≤ count) }
    ensures err { OnErr result (PaysShort
        (net_states (meaning F.machine F.reading (J.judges contracts.now)))
        (deals_of F.machine nodes.now seed count) net.old net.new) }
    ensures count { length net.new.nodes ≡ length net.old.nodes }
{
    let mut maker = Maker::new(seed, nodes.len() as u32);
    let mut paid = 0;
    'payments: for _ in 0..count {
        if pay(alloc, net, nodes, maker.next(), contracts)? {
            paid += 1;
        }
    }
    Ok(paid)
}

/// The unconsumed states in the vaults of all nodes that are up.
fn held<B: Bay, F: FlowSet>(alloc: Global, nodes: &[Node<B, F>]) -> Result<Vec<Held>, AllocError>
    ensures held { IfOk result (λ held. held.items ≡ flat_map (held_of F.reading) nodes.now) }
    ensures limits { IfOk result (λ held. AllByRecursion IsHeld held.items) }
{
    let mut held = Vec::new(alloc);
    for node in nodes {
        if let Some(ledger) = node.ledger() {
            let states = ledger.vault().unconsumed(alloc)?;
            held.extend_from_slice(states.as_slice())?;
        }
    }
    Ok(held)
}

/// The line of a load, and those of the totals of all tokens.
fn load_text<B: Bay, F: FlowSet>(
    alloc: Global,
    net: &Net<B, F>,
    count: u64,
    paid: u64,
) -> Result<String, AllocError>
    requires { paid ≤ count }
    ensures { IfOk result (λ text. string_bytes text
        ≡ load_text count paid (flat_map (held_of F.reading) net.entry.now.nodes)) }
{
    let held = held(alloc, net.nodes())?;
    let totals = totals_text(alloc, held.as_slice())?;
    let failed = count - paid;
    let text = format!(in alloc; "load {count} paid {paid} failed {failed}\n{totals}")?;
    Ok(text)
}

fn is_node_up<B: Bay, F: FlowSet>(node: &Node<B, F>) -> bool
    ensures { result ≡ is_some node.now.journal }
{
    node.is_up()
}

/// Whether all nodes are up.
pub(super) fn are_up<B: Bay, F: FlowSet>(nodes: &[Node<B, F>]) -> bool
    ensures { result ≡ list_all (λ (n : NodeSeen). is_some n.journal) nodes.now }
{
    nodes.iter().all(|node| is_node_up(node))
}

/// Makes a load: each node but the notary issues 1,000,000 to itself, and then come as many payments as asked for between them, drawn from
/// the seed, each with a drain behind it. Tells how many are paid, and the totals of the tokens in all vaults.
///
/// # Errors
///
/// `AllocError` for want of memory; the starts and drains before it stand.
pub fn load<B: Bay, F: FlowSet, J: Judge>(
    alloc: Global,
    net: &mut Net<B, F>,
    seed: u64,
    count: u64,
    contracts: &J,
) -> Result<Reply, AllocError>
    ensures goes { Loads (net_states (meaning F.machine F.reading (J.judges contracts.now)))
        F.machine seed count net.old (given result) net.new }
    ensures count { length net.new.nodes ≡ length net.old.nodes }
    ensures goes_on { IfOk result (λ reply. is_end reply ≡ false) }
{
    if !are_up(net.nodes()) {
        return Ok(refused(Refusal::NodeDown));
    }
    let nodes = all_but(alloc, notary_of(net), net.nodes().len())?;
    if nodes.len() < 2 {
        return Ok(refused(Refusal::BadArgs));
    }
    let issued = issues::<F>(alloc, nodes.as_slice())?;
    start_and_drain(alloc, net, issued, contracts)?;
    let paid = pay_all(alloc, net, nodes.as_slice(), seed, count, contracts)?;
    Ok(Reply::Printed(load_text(alloc, net, count, paid)?))
}
