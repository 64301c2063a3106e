use super::columns::{bytes, hash};
use anyhow::{Result, bail};
use component_merkle::{digest, group, leaf, nonce, root};
use net_base::{Party, Tag};
use signing::{KeyedDigest, Signer};
use std::alloc::Global;

/// `digest BYTES`: the digest of the bytes.
pub fn digest_of(alloc: Global, values: &[&str]) -> Result<String> {
    let [column] = values else {
        bail!("a digest is of one value")
    };
    Ok(hex::encode(alloc, digest(bytes(alloc, column)?.as_slice()))?)
}

/// The leaves of which a row asks: leaf `n` is the digest of the one byte `n`.
fn leaves(alloc: Global, values: &[&str]) -> Result<Vec<[u8; 32]>> {
    let [count] = values else {
        bail!("a tree has one number")
    };
    let count = count.parse::<u8>()?;
    Ok(
        (0..count)
            .map(|n| digest(&[n]))
            .collect::<Vec<[u8; 32]>>(alloc)?,
    )
}

/// `root COUNT`: the root of this many leaves.
pub fn root_of(alloc: Global, values: &[&str]) -> Result<String> {
    let mut leaves = leaves(alloc, values)?;
    Ok(hex::encode(alloc, root(leaves.as_mut_slice()))?)
}

/// `group COUNT`: the value of a group of this many leaves.
pub fn group_of(alloc: Global, values: &[&str]) -> Result<String> {
    let mut leaves = leaves(alloc, values)?;
    Ok(hex::encode(alloc, group(leaves.as_mut_slice()))?)
}

/// `leaf SALT GROUP PLACE COMPONENT`: the nonce and the leaf of the component at a place of a group.
pub fn leaf_of(alloc: Global, values: &[&str]) -> Result<String> {
    let [salt, group, place, component] = values else {
        bail!("a leaf has four values")
    };
    let component = bytes(alloc, component)?;
    let nonce = nonce(&hash(salt)?.0, group.parse::<u32>()?, place.parse::<u32>()?);
    let leaf = leaf(&nonce, component.as_slice());
    let (nonce, leaf) = (hex::encode(alloc, nonce)?, hex::encode(alloc, leaf)?);
    Ok(format!(in alloc; "{nonce} {leaf}")?)
}

/// `mark PARTY ID`: the mark of a party under an id.
pub fn mark_of(alloc: Global, values: &[&str]) -> Result<String> {
    let [party, id] = values else {
        bail!("a mark has two values")
    };
    let mark = KeyedDigest.mark(Party(party.parse::<u8>()?), &hash(id)?);
    Ok(hex::encode(alloc, mark.0)?)
}

/// `tag PARTY ID MARK`: whether the tag checks, `checks` or `bad`.
pub fn tag_checks(alloc: Global, values: &[&str]) -> Result<String> {
    let [party, id, mark] = values else {
        bail!("a tag has three values")
    };
    let tag = Tag {
        by: Party(party.parse::<u8>()?),
        of: hash(id)?,
        mark: hash(mark)?,
    };
    let answer = if KeyedDigest.checks(&tag) {
        "checks"
    } else {
        "bad"
    };
    Ok(String::from_str(alloc, answer)?)
}
