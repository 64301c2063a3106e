//! What words of these flows are.

ghost use Rattle.std.specs.Prelude.{◌≡◌};
ghost use Rattle.hex.specs.Hex.{decode_sized};
ghost use Rattle.flow_txs.specs.Words.{is_letter, code_of_letters, code_of_word, code_within, IsCurrency, code, code_at, code_laws, id_in, id_of, id_within, IsTxId, tx_id, tx_id_at, tx_id_laws, tx_id_few, reference_in, reference_of};
ghost use Rattle.ledger_types.proofs.Sizes.{code_fits};

use flow_forms::Argument;
use hex::FromHex;
use net_base::{Hash32, PartFault, Reader, Spelt, StateRef, Writer, read_between};
use std::alloc::{AllocError, Global};

/// A currency code: three letters A to Z.
#[derive(Clone, Copy)]
pub struct Code(pub [u8; 3]);

/// The id of a transaction, as a word gives it: 64 hexadecimal digits, in either case.
#[derive(Clone, Copy)]
pub struct TxId(pub Hash32);

fn is_letter(b: u8) -> bool
    ensures { result ≡ is_letter b }
{
    b'A' <= b && b <= b'Z'
}

fn code_of_letters(a: u8, b: u8, c: u8) -> Option<Code>
    ensures { result ≡ code_of_letters a b c }
{
    if is_letter(a) && (is_letter(b) && is_letter(c)) {
        Some(Code([a, b, c]))
    } else {
        None
    }
}

#[tactic(auto, unfolding(crate::specs::Words::code_at))]
impl Spelt for Code {
    ghost spelling = { code };

    ghost within = { IsCurrency };

    ghost reading = { code_at };

    ghost laws = { code_laws };

    fn read_part(_alloc: Global, from: &mut Reader) -> Result<Code, PartFault> {
        Ok(Code([
            read_between(from, b'A', b'Z' + 1)?,
            read_between(from, b'A', b'Z' + 1)?,
            read_between(from, b'A', b'Z' + 1)?,
        ]))
    }

    fn write_part(&self, alloc: Global, out: &mut Writer) -> Result<(), AllocError> {
        out.put_bytes(alloc, &self.0)
    }
}

impl Argument for Code {
    ghost worded = { code_of_word };

    ghost most = { 3 };

    ghost worded_within = { code_within };

    ghost few = { λ c h. code_fits c.0 h };

    fn of_word(word: &str) -> Option<Code> {
        match word.as_bytes() {
            [a, b, c] => code_of_letters(*a, *b, *c),
            _ => None,
        }
    }
}

#[tactic(auto, unfolding(crate::specs::Words::tx_id_at))]
impl Spelt for TxId {
    ghost spelling = { tx_id };

    ghost within = { IsTxId };

    ghost reading = { tx_id_at };

    ghost laws = { tx_id_laws };

    fn read_part(alloc: Global, from: &mut Reader) -> Result<TxId, PartFault> {
        Ok(TxId(Spelt::read_part(alloc, from)?))
    }

    fn write_part(&self, alloc: Global, out: &mut Writer) -> Result<(), AllocError> {
        self.0.write_part(alloc, out)
    }
}

impl Argument for TxId {
    ghost worded = { id_of };

    ghost most = { 32 };

    ghost worded_within = { id_within };

    ghost few = { tx_id_few };

    fn of_word(word: &str) -> Option<TxId> {
        match <[u8; 32] as FromHex>::from_hex(word) {
            Ok(bytes) => Some(TxId(Hash32(bytes))),
            Err(_) => None,
        }
    }
}

/// The reference that the two words are: an id, and the place of an output, below 2^32.
pub fn reference_of(id: &str, index: &str) -> Option<StateRef>
    ensures { result ≡ reference_of id.now index.now }
{
    match (TxId::of_word(id), u32::of_word(index)) {
        (Some(id), Some(index)) => Some(StateRef { id: id.0, index }),
        _ => None,
    }
}
