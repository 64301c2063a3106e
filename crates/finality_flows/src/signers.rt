//! Who is asked to sign.

ghost use Rattle.std.specs.Prelude.{◌≡◌, ◌<◌, ◌&&◌, slice_get};
ghost use Rattle.net_base.specs.Parties.{has_party};
ghost use Rattle.ledger_types.specs.Signatures.{needs};
ghost use Rattle.finality_flows.specs.Finality.{is_neither, others, others_below};

use flow_machine::Place;
use ledger_types::Tx;
use net_base::{Party, PartySet};
use tx_rules::needed_signers;

/// Whether the party signs and is neither of the two.
fn is_other(signers: PartySet, p: u8, me: Party, notary: Party) -> bool
    ensures { result ≡ (has_party signers p && is_neither me notary p) }
{
    signers.contains(Party(p)) && (p != me.0 && p != notary.0)
}

/// The n-th signer below `count` beside these two, counted from 0.
fn nth_other(signers: PartySet, me: Party, notary: Party, count: u8, n: u8) -> Option<u8>
    ensures { result ≡ slice_get (others_below signers me notary count) n }
{
    (0..count)
        .filter(|p| is_other(signers, *p, me, notary))
        .nth(usize::from(n))
}

/// The next signer beside this node's party and the notary.
pub(crate) fn next_signer(tx: &Tx, asked: u8, here: &Place) -> Option<u8>
    ensures { result ≡ slice_get (others tx.now here.entry.now) asked }
{
    nth_other(needed_signers(tx), here.me, here.notary, 16, asked)
}

/// Whether the notary has to sign.
pub(crate) fn asks_notary(tx: &Tx, here: &Place) -> bool
    requires { here.now.notary.0 < 16 }
    ensures { result ≡ needs tx.now here.entry.now.notary.0 }
{
    needed_signers(tx).contains(here.notary)
}
