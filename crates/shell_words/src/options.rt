//! The options that the program is started with, as `clap` has them.
ghost use Rattle.std.specs.Prelude.{◌≡◌, IfOk, false};
ghost use Rattle.clap.specs.Words.{app_of, rule_of};
ghost use Rattle.shell_words.specs.Program.{our_app, nodes_rule, notary_rule, dir_rule};

use clap::{Arg, ArgAction, Command};
use std::alloc::{AllocError, Global};

fn nodes_arg<'a>(alloc: Global) -> Arg<'a>
    ensures rule { rule_of result ≡ nodes_rule }
    ensures local { result.global ≡ false }
{
    Arg::new(alloc, "nodes")
        .long("nodes")
        .help("How many nodes the network has, 1 to 16 [default: 2]")
        .action(ArgAction::Set)
        .value_parser(clap::value_parser!(u8).range(1..17))
}

fn notary_arg<'a>(alloc: Global) -> Arg<'a>
    ensures rule { rule_of result ≡ notary_rule }
    ensures local { result.global ≡ false }
{
    Arg::new(alloc, "notary")
        .long("notary")
        .help("The node that is the notary, from 0, below the number of nodes [default: 0]")
        .action(ArgAction::Set)
        .value_parser(clap::value_parser!(u8).range(0..16))
}

fn dir_arg<'a>(alloc: Global) -> Arg<'a>
    ensures rule { rule_of result ≡ dir_rule }
    ensures local { result.global ≡ false }
{
    Arg::new(alloc, "dir")
        .long("dir")
        .help("Keeps the disks as files in this folder [default: in memory]")
        .action(ArgAction::Set)
}

/// The command line: three options, none of them required, and no rule among them.
pub(crate) fn command<'a>(alloc: Global) -> Result<Command<'a>, AllocError>
    ensures { IfOk result (λ c. app_of c ≡ our_app) }
{
    let nodes = nodes_arg(alloc);
    let notary = notary_arg(alloc);
    let dir = dir_arg(alloc);
    let command = Command::new(alloc, "corda_net")
        .no_binary_name(true)
        .arg(nodes)?
        .arg(notary)?
        .arg(dir)?;
    Ok(command)
}
