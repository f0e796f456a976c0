ghost use Rattle.std.specs.Prelude.{◌≡◌, None};

use terms::BLOCK_LENGTH;

mod keeping;

// A store of any make, and the first block that it accepted at number 0.
#[derive(Drop)]
pub struct Rewind<S> {
    store: S,
    first: Option<[u8; BLOCK_LENGTH]>,
}

impl<S> Rewind<S> {
    // A rewind that remembers nothing yet.
    pub fn new(store: S) -> Rewind<S>
        ensures store { result.store ≡ store }
        ensures first { result.first ≡ None }
    {
        Rewind { store, first: None }
    }

    // The store, as it is now.
    pub fn into_store(self) -> S
        ensures { result ≡ self.store }
    {
        let Rewind { store, first: _ } = self;
        store
    }
}
