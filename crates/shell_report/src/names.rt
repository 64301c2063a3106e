//! Names of transactions and tokens.

ghost use Rattle.std.specs.Prelude.{◌≡◌, IfOk, string_bytes};
ghost use Rattle.net_base.specs.Names.{IsToken};
ghost use Rattle.shell_report.specs.LedgerText.{hash_text, token_text};

use net_base::{Hash32, Token};
use std::alloc::{AllocError, Global};

/// The digits of an id or another hash.
pub(crate) fn hash_text(alloc: Global, hash: &Hash32) -> Result<String, AllocError>
    ensures { IfOk result (λ text. string_bytes text ≡ hash_text hash.now) }
{
    hex::encode(alloc, hash.0)
}

/// A token: its issuer and its code.
pub(crate) fn token_text(alloc: Global, token: &Token) -> Result<String, AllocError>
    requires { IsToken token.now }
    ensures { IfOk result (λ text. string_bytes text ≡ token_text token.now) }
{
    let [a, b, c] = token.code;
    let mut text = format!(in alloc; "{}.", token.issuer.0)?;
    text.push(a as char)?;
    text.push(b as char)?;
    text.push(c as char)?;
    Ok(text)
}
