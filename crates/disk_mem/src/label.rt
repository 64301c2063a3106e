//! Names that only clauses read.
ghost use Rattle.std.specs.Prelude.{◌≡◌, ℕ, List};
ghost use Rattle.std.specs.Borrow.{ftrue};

use std::marker::Model;

/// Bytes as clauses see them. It takes no memory, and no code looks at it.
#[derive(Drop)]
pub struct Said {
    pub ghost bytes: { List ℕ },
}

impl Model for Said {
    ghost also_owns = { λ _. ftrue };
}

impl Said {
    /// Keeps bytes for clauses.
    pub fn of(_bytes: &[u8]) -> Said
        ensures { result.bytes ≡ _bytes.now }
    {
        Said {}
    }
}

/// What a disk was attached as: its folder, if there is one, and its name.
#[derive(Drop)]
pub struct Label {
    pub folder: Option<Said>,
    pub name: Said,
}

impl Label {
    ghost use Rattle.std.specs.Prelude.{Some, option_map};
    ghost use Rattle.disk_mem.specs.Mem.{attached_of};

    /// Keeps both for clauses.
    pub fn of(dir: Option<&str>, name: &str) -> Label
        ensures { attached_of (Some result)
            ≡ Some (record { folder = option_map (λ s. s.now) dir.entry; name = name.now }) }
    {
        let folder = match dir {
            Some(dir) => Some(Said::of(dir.as_bytes())),
            None => None,
        };
        Label {
            folder,
            name: Said::of(name.as_bytes()),
        }
    }
}
