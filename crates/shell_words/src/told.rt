//! What the program tells of itself.
ghost use Rattle.std.specs.Prelude.{◌≡◌, map, string_bytes};
ghost use Rattle.shell_words.specs.Program.{told_by, told_of};

use super::options::command;
use std::alloc::{AllocError, Global};

/// A text that the program's words may ask for.
#[derive(Clone, Copy, Debug, PartialEq, Eq)]
pub enum Told {
    /// What it reads, its commands, its options and its statuses.
    Help,
    /// Its name and version.
    Version,
}

/// What the program is, above its options.
const ABOUT: &str = "Runs a script of commands over a network of Corda nodes.
The script comes from standard input, one command a line; the answers go to standard output.";

/// The commands and the statuses, below its options: a line for each.
const COMMANDS: &str =
    "Commands (N, P: a node, from 0; F: the number of a flow; I: the place of a frame, from 0):
  clock T             sets the network's moment
  start N CLASS ARGS  starts a flow at node N
  turn N [F]          lets a flow of N, or F, go on
  post N              sends what N has not had acknowledged
  deliver N I         hands the frame at place I to N
  repeat N I          hands a copy of it to N
  lose N I            drops it
  cut N K O           takes N's power, now (K 0) or at its K-th write or sync; O (0 to 3): what is left
  boot N              gives the power back, and rebuilds N from its journal
  drain               turns, posts and delivers until nothing more happens
  flows N             tells the flows of N
  flow N F            tells one flow
  vault N             tells the states that N holds
  balance N           tells the cash that N holds
  book                tells the notary's entries
  tx N ID             tells a transaction, by its id or by #K, the K-th recorded
  history             tells the transitions of the run
  load SEED COUNT     issues cash to each node but the notary, and makes COUNT payments, drawn from SEED
  workers W T SEED    has W threads make T turns each at the nodes, drawn from SEED
  quit                ends the script
A line that begins with # has no answer.

Statuses:
  0  the script was read to its end, or to quit
  2  the words are refused
  3  the script is longer than 16777216 bytes
  4  standard input failed
  5  standard output failed
  6  a disk failed before the script
  7  out of memory
  8  a node's journal is not its own, or damaged";

fn told_by(word: &str) -> Option<Told>
    ensures { result ≡ told_by word.now }
{
    if word == "--help" || word == "-h" {
        Some(Told::Help)
    } else if word == "--version" || word == "-V" {
        Some(Told::Version)
    } else {
        None
    }
}

/// The text that the program's words, without its name, ask for: they are exactly one of `--help`,
/// `-h`, `--version` and `-V`.
pub fn told_of(words: &[String]) -> Option<Told>
    ensures { result ≡ told_of (map (λ s. string_bytes s) words.now) }
{
    match words {
        [word] => told_by(word.as_str()),
        _ => None,
    }
}

/// The text, as `clap` writes it, with its ends of lines.
///
/// # Errors
///
/// `AllocError` for want of memory.
pub fn text_told(alloc: Global, told: Told) -> Result<String, AllocError> {
    let mut command = command(alloc)?
        .version("0.1.0")
        .about(ABOUT)
        .after_help(COMMANDS);
    match told {
        Told::Help => command.render_help(),
        Told::Version => command.render_version(),
    }
}
