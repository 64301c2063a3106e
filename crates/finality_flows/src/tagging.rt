//! A tag added to the tags of a transaction.

ghost use Rattle.std.specs.Prelude.{◌≡◌, ◌==◌, ◌++◌, IfOk, nat_lt, filter, find};
ghost use Rattle.net_base.specs.Names.{by_of};
ghost use Rattle.finality_flows.specs.Tagging.{with_tag};

use ledger_types::TagList;
use net_base::{ListOf, Party, Tag};
use std::alloc::{AllocError, Global};

/// The tags of the parties below.
fn tags_below(alloc: Global, by: Party, tags: &[Tag]) -> Result<Vec<Tag>, AllocError>
    ensures { IfOk result (λ v. v.items ≡ filter (λ u. nat_lt (by_of u) by.0) tags.now) }
{
    tags.iter()
        .copied()
        .filter(|tag| tag.by.0 < by.0)
        .collect(alloc)
}

/// The tags of the parties above.
fn tags_above(alloc: Global, by: Party, tags: &[Tag]) -> Result<Vec<Tag>, AllocError>
    ensures { IfOk result (λ v. v.items ≡ filter (λ u. nat_lt by.0 (by_of u)) tags.now) }
{
    tags.iter()
        .copied()
        .filter(|tag| by.0 < tag.by.0)
        .collect(alloc)
}

/// The tags with one more, in the place of one by the same party.
#[tactic(auto, using(std::proofs::Common::append_assoc))]
pub(crate) fn with_tag(alloc: Global, tag: Tag, tags: &TagList) -> Result<TagList, AllocError>
    ensures { IfOk result (λ l. l ≡ with_tag tag tags.now) }
{
    let mut all = tags_below(alloc, tag.by, tags.as_slice())?;
    all.push(tag)?;
    let mut above = tags_above(alloc, tag.by, tags.as_slice())?;
    all.append(&mut above)?;
    Ok(ListOf::from_vec(all))
}

/// The tag of the party.
pub(crate) fn tag_by(by: Party, tags: &[Tag]) -> Option<Tag>
    ensures { result ≡ find (λ t. by_of t == by.0) tags.now }
{
    tags.iter().copied().find(|tag| tag.by.0 == by.0)
}
