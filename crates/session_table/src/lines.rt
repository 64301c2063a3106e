//! Changes of how a session stands.

ghost use Rattle.std.specs.Prelude.{◌≡◌, ◌<◌, ◌≤◌, ◌+◌, ◌^◌, ◌++◌, ◌∷◌, [], Some, None};
ghost use Rattle.std.specs.Map.{lookup};
ghost use Rattle.indexmap.specs.IndexMap.{spare};
ghost use Rattle.session_wire.specs.Sessions.{key_eq};
ghost use Rattle.session_table.specs.Kept.{place_eq, Rewrites, one_came, one_sent, taken_to, acked_to};
ghost use Rattle.session_table.specs.declared.standing.Standing.{Standing as State};

use crate::standing::{Place, Standing};
use indexmap::IndexMap;
use net_base::Key;
use session_wire::Body;

/// Puts an item into its place, which is free. There is room, so it takes no memory.
pub(crate) fn put_item<V: Drop>(items: &mut IndexMap<Place, V>, place: Place, item: V)
    requires room { 0 < spare items.old }
    requires free { lookup (place_eq place) items.old.entries ≡ None }
    ensures entries { items.new.entries ≡ items.old.entries ++ (place, item) ∷ [] }
    ensures room { spare items.old ≤ spare items.new + 1 }
{
    items.insert(place, item).unwrap();
}

/// Adds a session behind all others. Its key is new and there is room, so it takes no memory.
pub(crate) fn put_line(lines: &mut IndexMap<Key, Standing>, key: Key, standing: Standing)
    requires room { 0 < spare lines.old }
    requires free { lookup (key_eq key) lines.old.entries ≡ None }
    ensures entries { lines.new.entries ≡ lines.old.entries ++ (key, standing) ∷ [] }
    ensures room { spare lines.old ≤ spare lines.new + 1 }
{
    lines.insert(key, standing).unwrap();
}

/// Counts one more item that arrived in a session that stands, and gives its number.
pub(crate) fn count_came(lines: &mut IndexMap<Key, Standing>, key: &Key) -> u32
    requires { (v : State) → Some v ≡ lookup (key_eq key.now) lines.old.entries
        → v.came + 1 < 2 ^ 32 }
    ensures number { (v : State) → Some v ≡ lookup (key_eq key.now) lines.old.entries
        → result ≡ v.came }
    ensures lines { Rewrites key.now one_came lines.old.entries lines.new.entries }
    ensures room { spare lines.new ≡ spare lines.old }
{
    match lines.get_mut(key) {
        Some(standing) => {
            let number = standing.came;
            standing.came = number + 1;
            number
        }
        None => 0,
    }
}

/// Counts one more item that was sent in a session that stands.
pub(crate) fn count_sent(lines: &mut IndexMap<Key, Standing>, key: &Key)
    requires { (v : State) → Some v ≡ lookup (key_eq key.now) lines.old.entries
        → v.sent + 1 < 2 ^ 32 }
    ensures lines { Rewrites key.now one_sent lines.old.entries lines.new.entries }
    ensures room { spare lines.new ≡ spare lines.old }
{
    if let Some(standing) = lines.get_mut(key) {
        standing.sent += 1;
    }
}

/// Sets how many items of a session are taken, and the ending that was taken, if none was before.
pub(crate) fn set_taken(
    lines: &mut IndexMap<Key, Standing>,
    key: &Key,
    taken: u32,
    ending: Option<Body>,
)
    ensures lines { Rewrites key.now (taken_to taken ending) lines.old.entries lines.new.entries }
    ensures room { spare lines.new ≡ spare lines.old }
{
    if let Some(standing) = lines.get_mut(key) {
        standing.taken = taken;
        if standing.ending.is_none() {
            standing.ending = ending;
        }
    }
}

/// Raises how many of the items that were sent in a session are acknowledged.
pub(crate) fn raise_acked(lines: &mut IndexMap<Key, Standing>, key: &Key, upto: u32)
    ensures lines { Rewrites key.now (acked_to upto) lines.old.entries lines.new.entries }
    ensures room { spare lines.new ≡ spare lines.old }
{
    if let Some(standing) = lines.get_mut(key) {
        standing.acked = standing.acked.max(upto);
    }
}
