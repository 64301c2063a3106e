//! Tests of the calls of `ledger_acts` and `node_tables` that no program of the gate makes. They stand in a crate of their own, so that
//! neither crate is proved a second time for them, and a change of a test proves nothing else anew.
#![tactic(auto)]

#[cfg(test)]
mod acts;
#[cfg(test)]
mod records;
