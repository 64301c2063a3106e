//! What the words of a line do to the network.

ghost use Rattle.net_model.specs.Environment.{meaning};
ghost use Rattle.std.specs.Prelude.{◌≡◌, ◌<◌, IfOk, map, string_bytes, min, ◌-◌, length, [], Option, Some, None, option_map, false};
ghost use Rattle.std.specs.Option.{option_map_or};
ghost use Rattle.network_core.specs.Worlds.{KeepsWorld};
ghost use Rattle.shell_words.specs.Script.{command_of, is_quit};
ghost use Rattle.shell_words.specs.declared.commands.Command.TheVariants as command;
ghost use Rattle.flow_machine.specs.Flows.{GivesWords};
ghost use Rattle.node_shell.specs.Replies.{IsRefused, is_end};
ghost use Rattle.node_shell.specs.Lines.{Comes, LineComes, StepComes, put_in, named_by, started_by, node_at, flow_of, frame_of, record_of, is_quit_command};
ghost use Rattle.node_shell.specs.Responds.{recorded_seen, AtSeen, PrintsFlows, PrintsFlow, OfSeen, PrintsVault, PrintsBalance, PrintsBook, PrintsTx, IsLineOf, notary_seen, PrintsHistory, StepResponds, CommandResponds, LineResponds, causes_up, given};

use super::loads::load;
use super::replies::Reply;
use super::working::work;
use contract_verify::Judge;
use flow_machine::{FlowSet, WordFault};
use flow_workers::Plan;
use net_base::{ByteList, Cause, Moment};
use network_core::{Net, Outcome, Refusal, Step};
use node_core::Node;
use outside::{Bay, Gate};
use shell_report::{
    balance_text, book_text, flow_text, flows_text, history_text, tx_text_at, tx_text_of,
    vault_text,
};
use shell_words::{
    Command, TxName, command_of, has_mark, has_no_answer, is_readable, mark_of, words_of,
};
use std::alloc::{AllocError, Global};
use std::sync::Wait;
use std::thread::Threads;
use tx_store::Store;

/// The place of a node of this number. A number that is too great names none.
fn node_at(node: u64) -> u8
    ensures { result ≡ node_at node }
{
    node.min(255) as u8
}

/// The number of a flow. A number that is too great names none.
fn flow_of(flow: u64) -> u32
    ensures { result ≡ flow_of flow }
{
    flow.min(u32::MAX as u64) as u32
}

/// The place of a waiting frame. A number that is too great names none.
fn frame_of(place: u64) -> u32
    ensures { result ≡ frame_of place }
{
    place.min(u32::MAX as u64) as u32
}

/// The place of a recorded transaction. A number that is too great names none.
fn record_of(place: u64) -> u32
    ensures { result ≡ record_of place }
{
    place.min(u32::MAX as u64) as u32
}

/// The pick of a turn.
fn pick_of(pick: Option<u64>) -> Option<u32>
    ensures { result ≡ option_map flow_of pick }
{
    match pick {
        Some(flow) => Some(flow_of(flow)),
        None => None,
    }
}

/// A refusal.
pub(super) fn refused(why: Refusal) -> Reply
    ensures { IsRefused why result }
{
    Reply::Told(Outcome::Refused { why })
}

/// Makes a step, and tells its outcome.
fn make<B: Bay, F: FlowSet, J: Judge>(
    alloc: Global,
    net: &mut Net<B, F>,
    step: &Step,
    contracts: &J,
) -> Result<Reply, AllocError>
    ensures serves { KeepsWorld (meaning F.machine F.reading (J.judges contracts.now)) net.old
        net.new (λ e w v. StepComes e w step.now result v) }
    ensures responds { StepResponds (meaning F.machine F.reading (J.judges contracts.now)) step.now
        net.old (given result) net.new }
    ensures count { length net.new.nodes ≡ length net.old.nodes }
    ensures goes_on { IfOk result (λ reply. is_end reply ≡ false) }
{
    Ok(Reply::Told(net.apply(alloc, step, contracts)?))
}

/// What the node at a place recorded, where it is there and up.
fn store_of<B: Bay, F: FlowSet>(net: &Net<B, F>, place: u8) -> Option<&Store>
    ensures { option_map_or (λ store. store.now.list) result []
        ≡ recorded_seen F.reading net.entry.now place }
{
    match net.nodes().get(place as usize) {
        None => None,
        Some(node) => match node.ledger() {
            None => None,
            Some(ledger) => Some(ledger.store()),
        },
    }
}

/// An argument of a start, `#k` replaced by the digits of the id of the transaction at place k, where there is one.
fn put_in(alloc: Global, store: &Store, word: &str) -> Result<String, AllocError>
    ensures { IfOk result (λ digits. string_bytes digits ≡ put_in store.now.list word.now) }
{
    match mark_of(word) {
        None => String::from_str(alloc, word),
        Some(k) => match store.at(record_of(k)) {
            None => String::from_str(alloc, word),
            Some((id, _)) => hex::encode(alloc, id.0),
        },
    }
}

/// The arguments of a start, each `#k` that names a recorded transaction replaced so.
fn put_in_all(alloc: Global, store: &Store, args: &[String]) -> Result<Vec<String>, AllocError>
    ensures { IfOk result (λ filled. map (λ s. string_bytes s) filled.items
        ≡ map (put_in store.now.list) (map (λ s. string_bytes s) args.now)) }
{
    let mut filled = Vec::with_capacity(alloc, args.len())?;
    for word in args {
        filled.push(put_in(alloc, store, word.as_str())?)?;
    }
    Ok(filled)
}

/// The class and the arguments that these words ask for; a word that still is `#k` names no recorded transaction.
fn named_by<F: FlowSet>(
    alloc: Global,
    class: &str,
    args: &[String],
) -> Result<(u16, ByteList), WordFault>
    ensures { GivesWords result (named_by F.machine class.now
        (map (λ s. string_bytes s) args.now)) }
{
    match F::read_words(alloc, class, args) {
        Ok(_) if has_mark(args) => Err(WordFault::BadArgs),
        Ok(named) => Ok(named),
        Err(fault) => Err(fault),
    }
}

/// The class and the arguments that the words of a start ask for.
fn started_by<B: Bay, F: FlowSet>(
    alloc: Global,
    net: &Net<B, F>,
    place: u8,
    words: &[String],
) -> Result<(u16, ByteList), WordFault>
    requires { 2 < length words.now }
    ensures { GivesWords result (started_by F.machine (recorded_seen F.reading net.entry.now place)
        (map (λ s. string_bytes s) words.now)) }
{
    let args = &words[3..];
    if !has_mark(args) {
        return named_by::<F>(alloc, words[2].as_str(), args);
    }
    match store_of(net, place) {
        None => named_by::<F>(alloc, words[2].as_str(), args),
        Some(store) => {
            let filled = put_in_all(alloc, store, args)?;
            named_by::<F>(alloc, words[2].as_str(), filled.as_slice())
        }
    }
}

/// A refusal of a command at a node that is there and up.
fn refuse_at<B: Bay, F: FlowSet>(net: &Net<B, F>, place: u8, why: Refusal) -> Reply
    ensures asks { AtSeen net.entry.now place result (λ bodies. IsRefused why result) }
    ensures goes_on { is_end result ≡ false }
{
    match net.nodes().get(place as usize) {
        None => refused(Refusal::UnknownNode),
        Some(node) => refused(if node.is_up() { why } else { Refusal::NodeDown }),
    }
}

/// Starts the flow that the words name.
fn start<B: Bay, F: FlowSet, J: Judge>(
    alloc: Global,
    net: &mut Net<B, F>,
    node: u64,
    words: &[String],
    contracts: &J,
) -> Result<Reply, AllocError>
    requires { 2 < length words.now }
    ensures serves { KeepsWorld (meaning F.machine F.reading (J.judges contracts.now)) net.old
        net.new (λ e w v. Comes e w (command.Start node)
        (map (λ s. string_bytes s) words.now) result v) }
    ensures responds { CommandResponds (meaning F.machine F.reading (J.judges contracts.now))
        (command.Start node) (map (λ s. string_bytes s) words.now) net.old (given result) net.new }
    ensures count { length net.new.nodes ≡ length net.old.nodes }
    ensures goes_on { IfOk result (λ reply. is_end reply ≡ false) }
{
    let place = node_at(node);
    match started_by(alloc, net, place, words) {
        Ok((class, args)) => {
            let step = Step::Start {
                node: place,
                class,
                args,
            };
            make(alloc, net, &step, contracts)
        }
        Err(WordFault::Memory) => Err(AllocError),
        Err(WordFault::UnknownClass) => Ok(refuse_at(net, place, Refusal::UnknownClass)),
        Err(WordFault::BadArgs) => Ok(refuse_at(net, place, Refusal::BadArgs)),
    }
}

/// The lines of a node's flows.
fn print_flows<B: Bay, F: FlowSet>(
    alloc: Global,
    net: &Net<B, F>,
    place: u8,
) -> Result<Reply, AllocError>
    ensures asks { IfOk result (λ reply.
        AtSeen net.entry.now place reply (PrintsFlows F.reading reply)) }
    ensures goes_on { IfOk result (λ reply. is_end reply ≡ false) }
{
    let Some(node) = net.nodes().get(place as usize) else {
        return Ok(refused(Refusal::UnknownNode));
    };
    match node.flows() {
        None => Ok(refused(Refusal::NodeDown)),
        Some(flows) => Ok(Reply::Printed(flows_text(alloc, flows)?)),
    }
}

/// The line of a node's flow.
fn print_flow<B: Bay, F: FlowSet>(
    alloc: Global,
    net: &Net<B, F>,
    place: u8,
    flow: u32,
) -> Result<Reply, AllocError>
    ensures asks { IfOk result (λ reply.
        AtSeen net.entry.now place reply (PrintsFlow F.reading flow reply)) }
    ensures goes_on { IfOk result (λ reply. is_end reply ≡ false) }
{
    let Some(node) = net.nodes().get(place as usize) else {
        return Ok(refused(Refusal::UnknownNode));
    };
    match node.flows() {
        None => Ok(refused(Refusal::NodeDown)),
        Some(flows) => match flow_text(alloc, flows, flow)? {
            None => Ok(refused(Refusal::NoFlow)),
            Some(line) => Ok(Reply::Printed(line)),
        },
    }
}

/// The lines of a node's vault.
fn print_vault<B: Bay, F: FlowSet>(
    alloc: Global,
    net: &Net<B, F>,
    place: u8,
) -> Result<Reply, AllocError>
    ensures asks { IfOk result (λ reply.
        OfSeen net.entry.now place reply (PrintsVault F.reading reply)) }
    ensures goes_on { IfOk result (λ reply. is_end reply ≡ false) }
{
    let Some(node) = net.nodes().get(place as usize) else {
        return Ok(refused(Refusal::UnknownNode));
    };
    match node.ledger() {
        None => Ok(refused(Refusal::NodeDown)),
        Some(ledger) => {
            let text = vault_text(alloc, ledger.store(), ledger.vault())?;
            Ok(Reply::Printed(text))
        }
    }
}

/// The lines of a node's balances.
fn print_balance<B: Bay, F: FlowSet>(
    alloc: Global,
    net: &Net<B, F>,
    place: u8,
) -> Result<Reply, AllocError>
    ensures asks { IfOk result (λ reply.
        OfSeen net.entry.now place reply (PrintsBalance F.reading reply)) }
    ensures goes_on { IfOk result (λ reply. is_end reply ≡ false) }
{
    let Some(node) = net.nodes().get(place as usize) else {
        return Ok(refused(Refusal::UnknownNode));
    };
    match node.ledger() {
        None => Ok(refused(Refusal::NodeDown)),
        Some(ledger) => Ok(Reply::Printed(balance_text(alloc, ledger.vault())?)),
    }
}

/// The place of the notary.
pub(super) fn notary_of<B: Bay, F: FlowSet>(net: &Net<B, F>) -> u8
    ensures { result ≡ notary_seen net.entry.now }
{
    match net.nodes().get(0) {
        None => 0,
        Some(node) => node.identity().notary.0,
    }
}

/// The lines of a node's book.
fn print_book<B: Bay, F: FlowSet>(
    alloc: Global,
    net: &Net<B, F>,
    place: u8,
) -> Result<Reply, AllocError>
    ensures asks { IfOk result (λ reply.
        AtSeen net.entry.now place reply (PrintsBook F.reading reply)) }
    ensures goes_on { IfOk result (λ reply. is_end reply ≡ false) }
{
    let Some(node) = net.nodes().get(place as usize) else {
        return Ok(refused(Refusal::UnknownNode));
    };
    match node.ledger() {
        None => Ok(refused(Refusal::NodeDown)),
        Some(ledger) => Ok(Reply::Printed(book_text(alloc, ledger.book())?)),
    }
}

/// The line of a recorded transaction, with its end; `None` where none is so named.
fn tx_line(alloc: Global, store: &Store, name: &TxName) -> Result<Option<String>, AllocError>
    ensures { IfOk result (λ line. IsLineOf name.now store.now.list
        (option_map (λ s. string_bytes s) line)) }
{
    match name {
        TxName::Id(id) => tx_text_of(alloc, store, id),
        TxName::Place(k) => tx_text_at(alloc, store, record_of(*k)),
    }
}

/// The line of a node's transaction.
fn print_tx<B: Bay, F: FlowSet>(
    alloc: Global,
    net: &Net<B, F>,
    place: u8,
    name: &TxName,
) -> Result<Reply, AllocError>
    ensures asks { IfOk result (λ reply.
        AtSeen net.entry.now place reply (PrintsTx F.reading name.now reply)) }
    ensures goes_on { IfOk result (λ reply. is_end reply ≡ false) }
{
    let Some(node) = net.nodes().get(place as usize) else {
        return Ok(refused(Refusal::UnknownNode));
    };
    match node.ledger() {
        None => Ok(refused(Refusal::NodeDown)),
        Some(ledger) => match tx_line(alloc, ledger.store(), name)? {
            None => Ok(refused(Refusal::NoTransaction)),
            Some(line) => Ok(Reply::Printed(line)),
        },
    }
}

/// The causes of all nodes' journals, lent by the nodes; `None` where a node is down.
fn all_causes<'a, B: Bay, F: FlowSet>(
    alloc: Global,
    nodes: &'a [Node<B, F>],
) -> Result<Option<Vec<&'a [Cause]>>, AllocError>
    ensures { IfOk result (λ r. option_map (λ lists. map (λ l. l.now) lists.items) r
        ≡ causes_up F.reading nodes.now) }
{
    let mut lists = Vec::with_capacity(alloc, nodes.len())?;
    for node in nodes {
        let Some(causes) = node.causes() else {
            return Ok(None);
        };
        lists.push(causes)?;
    }
    Ok(Some(lists))
}

/// The merged causes of all nodes.
fn print_history<B: Bay, F: FlowSet>(alloc: Global, net: &Net<B, F>) -> Result<Reply, AllocError>
    ensures asks { IfOk result (λ reply. PrintsHistory F.reading net.entry.now reply) }
    ensures goes_on { IfOk result (λ reply. is_end reply ≡ false) }
{
    match all_causes(alloc, net.nodes())? {
        None => Ok(refused(Refusal::NodeDown)),
        Some(lists) => Ok(Reply::Printed(history_text(alloc, lists.as_slice())?)),
    }
}

/// Does what the words of a line ask for.
fn serve<
    B: Bay + Send,
    F: FlowSet + Send + Sync,
    J: Judge + Sync,
    R: Threads + Wait + Sync,
    G: Gate + Sync,
>(
    rt: &R,
    alloc: Global,
    net: &mut Net<B, F>,
    words: &[String],
    contracts: &J,
    gate: &G,
) -> Result<Reply, AllocError>
    ensures serves { let ws = map (λ s. string_bytes s) words.now in
        KeepsWorld (meaning F.machine F.reading (J.judges contracts.now)) net.old net.new
        (λ e w v. Comes e w (command_of ws) ws result v) }
    ensures responds { let ws = map (λ s. string_bytes s) words.now in
        CommandResponds (meaning F.machine F.reading (J.judges contracts.now))
        (command_of ws) ws net.old (given result) net.new }
    ensures count { length net.new.nodes ≡ length net.old.nodes }
    ensures end { IfOk result (λ reply. is_end reply
        ≡ is_quit_command (command_of (map (λ s. string_bytes s) words.now))) }
{
    match command_of(words) {
        Command::Clock { to } => make(alloc, net, &Step::Clock { to: Moment(to) }, contracts),
        Command::Start { node } => start(alloc, net, node, words, contracts),
        Command::Turn { node, pick } => {
            let step = Step::Turn {
                node: node_at(node),
                pick: pick_of(pick),
            };
            make(alloc, net, &step, contracts)
        }
        Command::Post { node } => {
            let node = node_at(node);
            make(alloc, net, &Step::Post { node }, contracts)
        }
        Command::Deliver { node, place } => {
            let step = Step::Deliver {
                node: node_at(node),
                at: frame_of(place),
            };
            make(alloc, net, &step, contracts)
        }
        Command::Repeat { node, place } => {
            let step = Step::Repeat {
                node: node_at(node),
                at: frame_of(place),
            };
            make(alloc, net, &step, contracts)
        }
        Command::Lose { node, place } => {
            let step = Step::Lose {
                node: node_at(node),
                at: frame_of(place),
            };
            make(alloc, net, &step, contracts)
        }
        Command::Cut {
            node,
            calls,
            outcome,
        } => {
            let step = Step::Cut {
                node: node_at(node),
                calls,
                outcome,
            };
            make(alloc, net, &step, contracts)
        }
        Command::Boot { node } => make(
            alloc,
            net,
            &Step::Boot {
                node: node_at(node),
            },
            contracts,
        ),
        Command::Drain => make(alloc, net, &Step::Drain, contracts),
        Command::Flows { node } => print_flows(alloc, net, node_at(node)),
        Command::Flow { node, flow } => print_flow(alloc, net, node_at(node), flow_of(flow)),
        Command::Vault { node } => print_vault(alloc, net, node_at(node)),
        Command::Balance { node } => print_balance(alloc, net, node_at(node)),
        Command::Book => print_book(alloc, net, notary_of(net)),
        Command::TxLine { node, name } => print_tx(alloc, net, node_at(node), &name),
        Command::History => print_history(alloc, net),
        Command::Load { seed, count } => load(alloc, net, seed, count, contracts),
        Command::Workers {
            workers,
            turns,
            seed,
        } => {
            let plan = Plan {
                workers,
                turns,
                seed,
            };
            work(rt, alloc, net, plan, contracts, gate)
        }
        Command::Quit => Ok(Reply::Quit),
        Command::Unknown => Ok(refused(Refusal::Syntax)),
    }
}

/// The reply to a line, once what it asks for is done.
///
/// # Errors
///
/// `AllocError` for want of memory. Nothing has changed then, but that a drain keeps the turns, posts and deliveries that it made, a
/// load its starts and drains, and that a node which was to be booted has its power back.
pub fn reply_to<
    B: Bay + Send,
    F: FlowSet + Send + Sync,
    J: Judge + Sync,
    R: Threads + Wait + Sync,
    G: Gate + Sync,
>(
    rt: &R,
    alloc: Global,
    net: &mut Net<B, F>,
    line: &[u8],
    contracts: &J,
    gate: &G,
) -> Result<Reply, AllocError>
    ensures replies { KeepsWorld (meaning F.machine F.reading (J.judges contracts.now)) net.old
        net.new (λ e w v. LineComes e w line.now result v) }
    ensures responds { LineResponds (meaning F.machine F.reading (J.judges contracts.now)) line.now
        net.old (given result) net.new }
    ensures count { length net.new.nodes ≡ length net.old.nodes }
    ensures end { IfOk result (λ reply. is_end reply ≡ is_quit line.now) }
{
    if has_no_answer(line) {
        return Ok(Reply::Silence);
    }
    if !is_readable(line) {
        return Ok(refused(Refusal::Syntax));
    }
    let words = words_of(alloc, line)?;
    serve(rt, alloc, net, words.as_slice(), contracts, gate)
}
