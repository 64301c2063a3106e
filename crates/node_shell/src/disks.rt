//! The disks of a run's nodes, taken out of all disks and put back.

ghost use Rattle.std.specs.Prelude.{◌≡◌, ◌≤◌, ◌+◌, ◌++◌, [], length, vec_capacity};

/// Takes the disks of this many nodes out of all disks, in order. The list for them is empty, and has room.
pub fn take_first<D: Drop>(disks: &mut Vec<D>, own: &mut Vec<D>, nodes: usize)
    requires few { nodes ≤ length disks.old.items }
    requires empty { own.old.items ≡ [] }
    requires room { nodes ≤ vec_capacity own.old }
    ensures count { length own.new.items ≡ nodes }
    ensures whole { own.new.items ++ disks.new.items ≡ disks.old.items }
    ensures room { vec_capacity disks.new ≡ vec_capacity disks.old }
{
    'nodes: for _ in 0..nodes {
        own.push(disks.remove(0)).unwrap();
    }
}

/// Puts the disks of the nodes back before all others. There is room for them.
pub fn put_back<D: Drop>(disks: &mut Vec<D>, own: Vec<D>)
    requires room { length own.items + length disks.old.items ≤ vec_capacity disks.old }
    ensures { disks.new.items ≡ own.items ++ disks.old.items }
{
    let mut own = own;
    'nodes: while let Some(disk) = own.pop() {
        disks.insert(0, disk).unwrap();
    }
}
