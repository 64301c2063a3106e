use super::columns::{bytes, let_go, value};
use anyhow::{Result, bail, ensure};
use cash_contract::Cash;
use contract_verify::{BoxedContract, ContractBook, Judge, LedgerContract};
use ledger_types::{Resolved, SignedTx, StateList, Tx, TxState, Verdict};
use net_base::{PartFault, Reader, read_list};
use signing::KeyedDigest;
use small_contracts::{Facts, Ious, Locks};
use std::alloc::Global;
use tx_rules::{check, missing_tags, needed_signers};

/// The states that a column lists.
fn states(alloc: Global, column: &str) -> Result<StateList> {
    let bytes = bytes(alloc, column)?;
    match read_list::<TxState>(alloc, &mut Reader::new(bytes.as_slice()), 64) {
        Ok(states) => Ok(states),
        Err(PartFault::Left(_)) => bail!("no list of states"),
        Err(PartFault::Memory) => bail!("out of memory"),
    }
}

/// The states that two columns list for the inputs and the references of a transaction.
fn resolved(alloc: Global, inputs: &str, references: &str) -> Result<Resolved> {
    let inputs = states(alloc, inputs)?;
    match states(alloc, references) {
        Ok(references) => Ok(Resolved { inputs, references }),
        Err(error) => {
            let_go(inputs);
            Err(error)
        }
    }
}

/// The first structural rule that is broken, 0 where none is.
fn first_broken(tx: &Tx, resolved: &Resolved) -> Result<u8> {
    ensure!(
        resolved.inputs.len() == tx.inputs.len()
            && resolved.references.len() == tx.references.len(),
        "a state for each input and each reference"
    );
    match check(tx, resolved) {
        Ok(()) => Ok(0),
        Err(broken) => Ok(broken.rule),
    }
}

/// The same over the states that two columns list.
fn first_broken_over(alloc: Global, tx: &Tx, inputs: &str, references: &str) -> Result<u8> {
    let resolved = resolved(alloc, inputs, references)?;
    let rule = first_broken(tx, &resolved);
    let_go(resolved);
    rule
}

/// `rule TRANSACTION INPUTS REFERENCES`: the first structural rule that is broken, 0 where none is.
pub fn rule_of(alloc: Global, values: &[&str]) -> Result<String> {
    let [tx, inputs, references] = values else {
        bail!("a rule has three values")
    };
    let tx = value::<Tx>(alloc, tx)?;
    let rule = first_broken_over(alloc, &tx, inputs, references);
    let_go(tx);
    let rule = rule?;
    Ok(format!(in alloc; "{rule}")?)
}

/// `needed TRANSACTION`: who has to sign, as a number whose bits are the parties.
pub fn needed_of(alloc: Global, values: &[&str]) -> Result<String> {
    let [tx] = values else {
        bail!("a transaction has one value")
    };
    let tx = value::<Tx>(alloc, tx)?;
    let needed = needed_signers(&tx).0;
    let_go(tx);
    Ok(format!(in alloc; "{needed}")?)
}

/// `missing SIGNED`: whose tags are missing, as a number whose bits are the parties.
pub fn missing_of(alloc: Global, values: &[&str]) -> Result<String> {
    let [signed] = values else {
        bail!("a signed transaction has one value")
    };
    let signed = value::<SignedTx>(alloc, signed)?;
    let missing = missing_tags(&signed, &KeyedDigest).0;
    let_go(signed);
    Ok(format!(in alloc; "{missing}")?)
}

/// The clause by which the contract of a number refuses a transaction over these states.
fn refusing(contract: &str, tx: &Tx, resolved: &Resolved) -> Result<Option<u8>> {
    Ok(match contract {
        "1" => Cash.verdict(tx, resolved),
        "2" => Locks.verdict(tx, resolved),
        "3" => Facts.verdict(tx, resolved),
        "4" => Ious.verdict(tx, resolved),
        _ => bail!("no contract of that number"),
    })
}

/// The same over the states that a column lists for the inputs, with no reference.
fn refusing_over(alloc: Global, contract: &str, tx: &Tx, inputs: &str) -> Result<Option<u8>> {
    let resolved = Resolved {
        inputs: states(alloc, inputs)?,
        references: StateList::new(alloc),
    };
    let clause = refusing(contract, tx, &resolved);
    let_go(resolved);
    clause
}

/// `clause CONTRACT TRANSACTION INPUTS`: the clause by which the contract refuses, or `accepted`.
pub fn clause_of(alloc: Global, values: &[&str]) -> Result<String> {
    let [contract, tx, inputs] = values else {
        bail!("a clause has three values")
    };
    let tx = value::<Tx>(alloc, tx)?;
    let clause = refusing_over(alloc, contract, &tx, inputs);
    let_go(tx);
    match clause? {
        Some(clause) => Ok(format!(in alloc; "{clause}")?),
        None => Ok(String::from_str(alloc, "accepted")?),
    }
}

/// The verdict of a book of the contracts of these numbers, in this order.
fn judged(alloc: Global, numbers: &str, tx: &Tx, resolved: &Resolved) -> Result<Verdict> {
    ensure!(
        resolved.inputs.len() == tx.inputs.len()
            && resolved.references.len() == tx.references.len(),
        "a state for each input and each reference"
    );
    let mut contracts: Vec<BoxedContract> = Vec::new(alloc);
    for number in numbers.bytes() {
        match number {
            b'1' => contracts.push(Box::new(alloc, Cash)?)?,
            b'2' => contracts.push(Box::new(alloc, Locks)?)?,
            b'3' => contracts.push(Box::new(alloc, Facts)?)?,
            b'4' => contracts.push(Box::new(alloc, Ious)?)?,
            _ => {}
        }
    }
    Ok(ContractBook::new(contracts).judge(tx, resolved))
}

/// The same over the states that two columns list.
fn judged_over(
    alloc: Global,
    numbers: &str,
    tx: &Tx,
    inputs: &str,
    references: &str,
) -> Result<Verdict> {
    let resolved = resolved(alloc, inputs, references)?;
    let verdict = judged(alloc, numbers, tx, &resolved);
    let_go(resolved);
    verdict
}

/// `verdict CONTRACTS TRANSACTION INPUTS REFERENCES`: the verdict of a book of these contracts.
pub fn verdict_of(alloc: Global, values: &[&str]) -> Result<String> {
    let [contracts, tx, inputs, references] = values else {
        bail!("a verdict has four values")
    };
    let tx = value::<Tx>(alloc, tx)?;
    let verdict = judged_over(alloc, contracts, &tx, inputs, references);
    let_go(tx);
    Ok(match verdict? {
        Verdict::Accepted => String::from_str(alloc, "accepted")?,
        Verdict::Broken { rule } => format!(in alloc; "broken {rule}")?,
        Verdict::NoContract { id } => format!(in alloc; "no-contract {id}")?,
        Verdict::Refused { contract, clause } => format!(in alloc; "refused {contract} {clause}")?,
    })
}
