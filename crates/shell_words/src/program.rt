ghost use Rattle.std.specs.Prelude.{◌≡◌, ◌<◌, ◌≤◌, IfOk, IfErr, MatchOption, ⊤, None, map, string_bytes, option_map, codes};
ghost use Rattle.std.specs.Option.{option_map_or};
ghost use Rattle.clap.specs.Words.{FailsBy, fault_of, found_of, first_value, kind_of, matches_of, one_text, rows_of};
ghost use Rattle.clap.specs.declared.error.kind.ErrorKind.TheVariants.{OutOfMemory};
ghost use Rattle.shell_words.specs.Program.{our_app, number_in, network, network_of_words, dir_of_words, IsNetwork, HoldsNumber};

use super::options::command;
use clap::ArgMatches;
use clap::error::ErrorKind;
use std::alloc::{AllocError, Global};
use thiserror::Error;

/// The network that the program's words ask for.
#[derive(Clone, Copy, Debug, PartialEq, Eq)]
pub struct NetworkWords {
    /// How many nodes it has: 1 to 16.
    pub nodes: u8,
    /// The number of the node that is its notary: below `nodes`.
    pub notary: u8,
}

/// What the program's words ask for.
#[derive(Debug, Drop)]
pub struct ProgramWords {
    /// The network.
    pub network: NetworkWords,
    /// The folder in which its disks are kept; `None` for disks in memory.
    pub dir: Option<String>,
}

/// Why the program's words were not read.
#[derive(Clone, Copy, Debug, PartialEq, Eq, Error)]
pub enum WordsFault {
    /// `clap` refuses them, or the notary is not a node.
    #[error("the words are refused")]
    Refused,
    /// Out of memory.
    #[error("out of memory")]
    Memory,
}

/// The number of nodes where the words name none.
const USUAL_NODES: u8 = 2;

/// The notary where the words name none.
const USUAL_NOTARY: u8 = 0;

/// What `clap` finds in the words.
fn parsed<'a>(alloc: Global, words: &'a [String]) -> Result<ArgMatches<'a>, clap::Error>
    ensures fails { FailsBy (fault_of our_app (map (λ s. string_bytes s) words.entry.now)) result }
    ensures rows { IfOk result (λ m. rows_of (found_of m)
        ≡ matches_of our_app (map (λ s. string_bytes s) words.entry.now)) }
    ensures nodes { IfOk result (λ m. HoldsNumber 1 16 (found_of m) (codes "nodes")) }
    ensures notary { IfOk result (λ m. HoldsNumber 0 15 (found_of m) (codes "notary")) }
{
    let mut command = command(alloc)?;
    command.try_get_matches_from_mut(words)
}

fn nodes_of(matches: &ArgMatches<'_>) -> u8
    requires { HoldsNumber 1 16 (found_of matches.now) (codes "nodes") }
    ensures value { result
        ≡ option_map_or number_in (one_text (found_of matches.now) (codes "nodes")) 2 }
    ensures some { 1 ≤ result }
    ensures few { result ≤ 16 }
{
    matches.get_one::<u8>("nodes").unwrap_or(USUAL_NODES)
}

fn notary_of(matches: &ArgMatches<'_>) -> u8
    requires { HoldsNumber 0 15 (found_of matches.now) (codes "notary") }
    ensures { result
        ≡ option_map_or number_in (one_text (found_of matches.now) (codes "notary")) 0 }
{
    matches.get_one::<u8>("notary").unwrap_or(USUAL_NOTARY)
}

fn network(nodes: u8, notary: u8) -> Option<NetworkWords>
    ensures { result ≡ network nodes notary }
{
    if notary < nodes {
        Some(NetworkWords { nodes, notary })
    } else {
        None
    }
}

fn dir_of(alloc: Global, matches: &ArgMatches<'_>) -> Result<Option<String>, AllocError>
    ensures { IfOk result (λ dir. option_map (λ s. string_bytes s) dir
        ≡ first_value (found_of matches.now) (codes "dir")) }
{
    match matches.get_str("dir") {
        Some(dir) => Ok(Some(String::from_str(alloc, dir)?)),
        None => Ok(None),
    }
}

/// What a parse that gave no matches says of the words.
fn fault_by(error: clap::Error) -> WordsFault
    ensures { result ≡ WordsFault.Refused → kind_of error ≡ OutOfMemory → ⊥ }
{
    match error.kind() {
        ErrorKind::OutOfMemory => WordsFault::Memory,
        _ => WordsFault::Refused,
    }
}

/// What the program's words, without its name, ask for: `--nodes` with 1 to 16, 2 where it is not
/// named, `--notary` with the number of a node, 0 where it is not named, and `--dir` with a path.
/// `clap` decides what it takes.
///
/// # Errors
///
/// `Refused` only where `clap` refuses the words for another cause than memory, or the notary is not one of the nodes, and there nothing
/// else comes but `Memory`.
pub fn program_words(alloc: Global, words: &[String]) -> Result<ProgramWords, WordsFault>
    ensures network { IfOk result (λ p.
        network_of_words (map (λ s. string_bytes s) words.now) ≡ Some p.network) }
    ensures dir { IfOk result (λ p. dir_of_words (map (λ s. string_bytes s) words.now)
        ≡ option_map (λ s. string_bytes s) p.dir) }
    ensures refused { IfErr result (λ e. e ≡ WordsFault.Refused
        → network_of_words (map (λ s. string_bytes s) words.now) ≡ None) }
    ensures within { IfOk result (λ p. IsNetwork p.network) }
{
    let matches = match parsed(alloc, words) {
        Ok(matches) => matches,
        Err(error) => return Err(fault_by(error)),
    };
    let Some(network) = network(nodes_of(&matches), notary_of(&matches)) else {
        return Err(WordsFault::Refused);
    };
    match dir_of(alloc, &matches) {
        Ok(dir) => Ok(ProgramWords { network, dir }),
        Err(_) => Err(WordsFault::Memory),
    }
}
