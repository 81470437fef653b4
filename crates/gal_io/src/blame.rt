//! What went wrong with files, counted.
ghost use Rattle.std.specs.Prelude.{◌≡◌, Some, None};
ghost use Rattle.gal_io.specs.Count.{one_more};

use crate::Bytes;

// How often something went wrong, and the name of the file of the last time. The count stands still at 2^64 - 1.
#[derive(Drop)]
pub struct Blame {
    pub count: u64,
    pub name: Option<Bytes>,
}

impl Blame {
    pub fn none() -> Self
        ensures { result ≡ record { count = 0; name = None } }
    {
        Blame {
            count: 0,
            name: None,
        }
    }

    pub fn add(&mut self, name: Bytes)
        ensures { self.new ≡ record { count = one_more self.old.count; name = Some name } }
    {
        self.count = self.count.saturating_add(1);
        self.name = Some(name);
    }
}
