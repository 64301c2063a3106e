//! Laws of ids and tear-offs. The functions do nothing when they run; their contracts are the laws.
//!
//! That an id names one transaction rests on its digests: in the list of all that is hashed, no two different byte lists
//! share a SHA-256 digest, and none has a digest of 32 zero bytes or of 32 bytes 0xFF, which stand for padding and for a
//! component group without components.

ghost use Rattle.tx_tear.specs.Agreement.{EqualRootsHaveEqualLeaves, GoodTearShowsTransaction, GoodTearsAgree, EachTxIncluded, EachTearIncluded};

/// Two lists of hashes that are padded to one length and have one Merkle root are the same once padded, where no
/// digests of what is hashed for the two roots collide. The hashes have 32 bytes each.
pub fn equal_roots_have_equal_leaves()
    ensures { EqualRootsHaveEqualLeaves }
{}

/// A good tear-off that has the id of a transaction with a command, and that names a notary, shows what the
/// transaction's own tear-off shows: its inputs, references, notary and time window. This holds where both are within
/// their limits, and no digests of what is hashed for the two collide.
pub fn good_tear_off_shows_transaction()
    ensures { GoodTearShowsTransaction }
{}

/// Two good tear-offs that have one id, and that name a notary each, show the same inputs, references, notary and time
/// window, where both are within their limits, and no digests of what is hashed for the two collide.
pub fn good_tear_offs_agree()
    ensures { GoodTearsAgree }
{}

/// What is hashed for some transactions and tear-offs includes what is hashed for each of them, so that one list serves
/// the laws above for all.
pub fn each_is_included()
    ensures transactions { EachTxIncluded }
    ensures tear_offs { EachTearIncluded }
{}
