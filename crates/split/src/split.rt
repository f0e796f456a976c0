ghost use Rattle.std.specs.Prelude.{◌≡◌};

mod keeping;

// Two stores as one.
#[derive(Drop)]
pub struct Split<B, N> {
    blocks: B,
    nodes: N,
}

impl<B, N> Split<B, N> {
    // A store that keeps blocks in the first and nodes in the second.
    pub fn new(blocks: B, nodes: N) -> Split<B, N>
        ensures blocks { result.blocks ≡ blocks }
        ensures nodes { result.nodes ≡ nodes }
    {
        Split { blocks, nodes }
    }

    // The two stores, as they are now.
    pub fn into_stores(self) -> (B, N)
        ensures blocks { result.0 ≡ self.blocks }
        ensures nodes { result.1 ≡ self.nodes }
    {
        let Split { blocks, nodes } = self;
        (blocks, nodes)
    }
}
