//! The rules on what a transaction has to have.

ghost use Rattle.std.specs.Prelude.{◌≡◌};
ghost use Rattle.net_base.specs.Parties.{members};
ghost use Rattle.ledger_types.specs.Rules as rule;

use ledger_types::{Command, Tx, Window};

/// Whether the salt is 32 zero bytes.
pub(crate) fn has_zero_salt(tx: &Tx) -> bool
    ensures { result ≡ rule.has_zero_salt tx.now }
{
    tx.salt.0 == [0; 32]
}

/// Whether there is neither an input nor an output.
pub(crate) fn has_no_state(tx: &Tx) -> bool
    ensures { result ≡ rule.has_no_state tx.now }
{
    tx.inputs.as_slice().is_empty() && tx.outputs.as_slice().is_empty()
}

/// Whether there is no command.
pub(crate) fn has_no_command(tx: &Tx) -> bool
    ensures { result ≡ rule.has_no_command tx.now }
{
    tx.commands.as_slice().is_empty()
}

fn is_unsigned(command: &Command) -> bool
    ensures { result ≡ rule.is_empty (members command.now.signers) }
{
    command.signers.is_empty()
}

/// Whether a command has no signer.
pub(crate) fn has_unsigned_command(tx: &Tx) -> bool
    ensures { result ≡ rule.has_unsigned_command tx.now }
{
    tx.commands
        .as_slice()
        .iter()
        .any(|command| is_unsigned(command))
}

/// Whether a notary has to sign: there is an input, a reference or a time window.
pub(crate) fn asks_notary(tx: &Tx) -> bool
    ensures { result ≡ rule.asks_notary tx.now }
{
    !tx.inputs.as_slice().is_empty() || !tx.references.as_slice().is_empty() || tx.window.is_some()
}

/// Whether a notary has to sign and none is named.
pub(crate) fn lacks_notary(tx: &Tx) -> bool
    ensures { result ≡ rule.lacks_notary tx.now }
{
    asks_notary(tx) && tx.notary.is_none()
}

fn is_endless(window: Option<Window>) -> bool
    ensures { result ≡ rule.is_endless window }
{
    match window {
        None => false,
        Some(window) => window.from.is_none() && window.until.is_none(),
    }
}

/// Whether there is a time window without either end.
pub(crate) fn has_endless_window(tx: &Tx) -> bool
    ensures { result ≡ rule.has_endless_window tx.now }
{
    is_endless(tx.window)
}
