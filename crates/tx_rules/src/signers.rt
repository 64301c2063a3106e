//! Who has to sign a transaction, and who has not.

ghost use Rattle.std.specs.Prelude.{◌≡◌, ◌<◌, ◌&&◌, ℕ};
ghost use Rattle.std.specs.List.{list_any};
ghost use Rattle.net_base.specs.Parties.{has_party, members};
ghost use Rattle.ledger_types.specs.Txs.{IsTx};
ghost use Rattle.ledger_types.specs.Signatures.{needs, needed, missing_signers, is_tag, checks, is_missing};
ghost use Rattle.ledger_types.specs.Names.{hash_eq};

use crate::shape::asks_notary;
use ledger_types::{Command, SignedTx, Tx};
use net_base::{Hash32, PartySet, Tag};
use signing::Signer;

#[tactic(auto, using(std::proofs::lemmas::List::Folds::list_any_more))]
fn signers_of(commands: &[Command]) -> PartySet
    ensures { (p : ℕ) → has_party result p ≡ list_any (λ c. has_party c.signers p) commands.now }
{
    let mut signers = PartySet::empty();
    for command in commands {
        signers = signers.union(command.signers);
    }
    signers
}

fn needed_set(tx: &Tx) -> PartySet
    ensures { (p : ℕ) → p < 16 → has_party result p ≡ needs tx.now p }
{
    let signers = signers_of(tx.commands.as_slice());
    match tx.notary {
        Some(notary) if notary.0 < 16 && asks_notary(tx) => signers.with(notary),
        _ => signers,
    }
}

/// The parties that have to sign the transaction: each signer of a command, and the notary where there is an input, a
/// reference or a time window (Corda 4 documentation, "Transactions", "Signatures").
pub fn needed_signers(tx: &Tx) -> PartySet
    ensures each { (p : ℕ) → p < 16 → has_party result p ≡ needs tx.now p }
    ensures all { members result ≡ needed tx.now }
{
    needed_set(tx)
}

/// Whether the tag is over the id and checks.
fn is_good<S: Signer>(tag: &Tag, id: &Hash32, signer: &S) -> bool
    ensures { result ≡ (hash_eq tag.now.of id.now && checks (S.mark_of signer.now) tag.now) }
{
    tag.of == *id && signer.checks(tag)
}

/// The parties that have a tag here over the id, which checks.
#[tactic(auto, using(std::proofs::lemmas::List::Folds::list_any_more))]
fn signed_by<S: Signer>(tags: &[Tag], id: &Hash32, signer: &S) -> PartySet
    ensures { (p : ℕ) → p < 16 → has_party result p
        ≡ list_any (is_tag (S.mark_of signer.now) id.now p) tags.now }
{
    let mut signed = PartySet::empty();
    for tag in tags {
        if tag.by.0 < 16 && is_good(tag, id, signer) {
            signed = signed.with(tag.by);
        }
    }
    signed
}

#[tactic(auto)]
fn missing_set<S: Signer>(stx: &SignedTx, signer: &S) -> PartySet
    requires { IsTx stx.now.tx }
    ensures { (p : ℕ) → p < 16 → has_party result p ≡ is_missing (S.mark_of signer.now) stx.now p }
{
    let id = stx.tx.id();
    needed_set(&stx.tx).without(signed_by(stx.tags.as_slice(), &id, signer))
}

/// The parties that have to sign the transaction of whom no tag stands here that is over its id and checks.
pub fn missing_tags<S: Signer>(stx: &SignedTx, signer: &S) -> PartySet
    requires { IsTx stx.now.tx }
    ensures each { (p : ℕ) → p < 16 → has_party result p
        ≡ is_missing (S.mark_of signer.now) stx.now p }
    ensures all { members result ≡ missing_signers (S.mark_of signer.now) stx.now }
{
    missing_set(stx, signer)
}
