ghost use Rattle.std.specs.Prelude.{◌≡◌, map, string_bytes, nat_le, if◌then◌else◌, Some, None};
ghost use Rattle.shell_words.specs.Script.{asked, one_word, ledger_words, two_words, load_words, frame_words, three_words, four_words, plan_of, many_words, command_of};

use super::words::tx_name;
use net_base::{Hash32, number};

/// How a recorded transaction is named.
#[derive(Clone, Copy, Debug, PartialEq, Eq)]
pub enum TxName {
    /// By its id.
    Id(Hash32),
    /// By its place among those that the node recorded, from 0.
    Place(u64),
}

/// What the words of a line ask for. Numbers are as they stand in the words.
#[derive(Clone, Copy, Debug, PartialEq, Eq)]
pub enum Command {
    /// `clock T`: the clock is to stand at the moment T.
    Clock { to: u64 },
    /// `start N CLASS ARGS..`: a flow begins at the node. The class is word 2, the arguments the words from 3 on.
    Start { node: u64 },
    /// `turn N` or `turn N F`: one turn of the node, of its flow F where one is picked.
    Turn { node: u64, pick: Option<u64> },
    /// `post N`: the node sends its messages that aren't acknowledged.
    Post { node: u64 },
    /// `deliver N I`: the frame at place I, from 0, of those that wait at the node is handed to it.
    Deliver { node: u64, place: u64 },
    /// `repeat N I`: a copy of that frame is handed to it.
    Repeat { node: u64, place: u64 },
    /// `lose N I`: that frame is lost.
    Lose { node: u64, place: u64 },
    /// `cut N CALLS OUTCOME`: the node's power goes after that number of calls. The outcome is at most 3.
    Cut { node: u64, calls: u64, outcome: u8 },
    /// `boot N`.
    Boot { node: u64 },
    /// `drain`.
    Drain,
    /// `flows N`.
    Flows { node: u64 },
    /// `flow N F`.
    Flow { node: u64, flow: u64 },
    /// `vault N`.
    Vault { node: u64 },
    /// `balance N`.
    Balance { node: u64 },
    /// `book`.
    Book,
    /// `tx N NAME`.
    TxLine { node: u64, name: TxName },
    /// `history`.
    History,
    /// `load SEED COUNT`: payments between the nodes, drawn from the seed. The count is at most 1,000.
    Load { seed: u64, count: u64 },
    /// `workers W T SEED`: W workers, 1 to 16, make T turns each, 1 to 10,000, side by side; what they do is drawn from the seed.
    Workers { workers: u8, turns: u32, seed: u64 },
    /// `quit`.
    Quit,
    /// Any other words.
    Unknown,
}

fn one_word(word: &str) -> Option<Command>
    ensures { asked result ≡ one_word word.now }
{
    if word == "drain" {
        Some(Command::Drain)
    } else if word == "book" {
        Some(Command::Book)
    } else if word == "history" {
        Some(Command::History)
    } else if word == "quit" {
        Some(Command::Quit)
    } else {
        None
    }
}

fn ledger_words(word: &str, node: &str) -> Option<Command>
    ensures { asked result ≡ ledger_words word.now node.now }
{
    if word == "vault" {
        let node = number(node)?;
        Some(Command::Vault { node })
    } else if word == "balance" {
        let node = number(node)?;
        Some(Command::Balance { node })
    } else {
        None
    }
}

fn two_words(word: &str, node: &str) -> Option<Command>
    ensures { asked result ≡ two_words word.now node.now }
{
    let first = number(node);
    if word == "clock" {
        Some(Command::Clock { to: first? })
    } else if word == "turn" {
        let pick = None;
        Some(Command::Turn { node: first?, pick })
    } else if word == "post" {
        Some(Command::Post { node: first? })
    } else if word == "boot" {
        Some(Command::Boot { node: first? })
    } else if word == "flows" {
        Some(Command::Flows { node: first? })
    } else {
        ledger_words(word, node)
    }
}

fn many_words(word: &str, node: &str) -> Option<Command>
    ensures { asked result ≡ many_words word.now node.now }
{
    if word == "start" {
        let node = number(node)?;
        Some(Command::Start { node })
    } else {
        None
    }
}

/// The count of payments of a load: 0 to 1,000.
fn load_count(count: u64) -> Option<u64>
    ensures { result ≡ (if nat_le count 1000 then Some count else None) }
{
    if count <= 1000 { Some(count) } else { None }
}

fn load_words(word: &str, seed: &str, count: &str) -> Option<Command>
    ensures { asked result ≡ load_words word.now seed.now count.now }
{
    if word == "load" {
        let seed = number(seed)?;
        let count = load_count(number(count)?)?;
        Some(Command::Load { seed, count })
    } else {
        many_words(word, seed)
    }
}

fn frame_words(word: &str, node: &str, place: &str) -> Option<Command>
    ensures { asked result ≡ frame_words word.now node.now place.now }
{
    if word == "deliver" {
        let (node, place) = (number(node)?, number(place)?);
        Some(Command::Deliver { node, place })
    } else if word == "repeat" {
        let (node, place) = (number(node)?, number(place)?);
        Some(Command::Repeat { node, place })
    } else if word == "lose" {
        let (node, place) = (number(node)?, number(place)?);
        Some(Command::Lose { node, place })
    } else {
        load_words(word, node, place)
    }
}

fn three_words(word: &str, node: &str, flow: &str) -> Option<Command>
    ensures { asked result ≡ three_words word.now node.now flow.now }
{
    if word == "turn" {
        let (node, flow) = (number(node)?, number(flow)?);
        let pick = Some(flow);
        Some(Command::Turn { node, pick })
    } else if word == "flow" {
        let (node, flow) = (number(node)?, number(flow)?);
        Some(Command::Flow { node, flow })
    } else if word == "tx" {
        let (node, name) = (number(node)?, tx_name(flow)?);
        Some(Command::TxLine { node, name })
    } else {
        frame_words(word, node, flow)
    }
}

fn four_words(word: &str, node: &str, calls: &str, outcome: &str) -> Option<Command>
    ensures { asked result ≡ four_words word.now node.now calls.now outcome.now }
{
    if word == "cut" {
        let node = number(node)?;
        let calls = number(calls)?;
        let outcome = outcome_of(number(outcome)?)?;
        Some(Command::Cut {
            node,
            calls,
            outcome,
        })
    } else if word == "workers" {
        let (workers, turns, seed) = (number(node)?, number(calls)?, number(outcome)?);
        plan_of(workers, turns, seed)
    } else {
        many_words(word, node)
    }
}

/// Workers, as many as may be, with as many turns.
fn plan_of(workers: u64, turns: u64, seed: u64) -> Option<Command>
    ensures { asked result ≡ plan_of workers turns seed }
{
    if 1 <= workers && workers <= 16 && 1 <= turns && turns <= 10_000 {
        Some(Command::Workers {
            workers: workers as u8,
            turns: turns as u32,
            seed,
        })
    } else {
        None
    }
}

/// The outcome of a cut: 0 to 3.
fn outcome_of(outcome: u64) -> Option<u8>
    ensures { result ≡ (if nat_le outcome 3 then Some outcome else None) }
{
    if outcome <= 3 {
        Some(outcome as u8)
    } else {
        None
    }
}

/// The command that words ask for, if it is known.
fn parse(words: &[String]) -> Option<Command>
    ensures { asked result ≡ command_of (map (λ s. string_bytes s) words.now) }
{
    match words {
        [] => None,
        [w] => one_word(w.as_str()),
        [w, n] => two_words(w.as_str(), n.as_str()),
        [w, n, m] => three_words(w.as_str(), n.as_str(), m.as_str()),
        [w, n, m, k] => four_words(w.as_str(), n.as_str(), m.as_str(), k.as_str()),
        [w, n, _, _, _, ..] => many_words(w.as_str(), n.as_str()),
    }
}

/// The command that words ask for.
pub fn command_of(words: &[String]) -> Command
    ensures { result ≡ command_of (map (λ s. string_bytes s) words.now) }
{
    match parse(words) {
        Some(command) => command,
        None => Command::Unknown,
    }
}
