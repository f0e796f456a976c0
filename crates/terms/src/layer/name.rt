ghost use Rattle.terms.specs.Refusals.{layer_name};
ghost use Rattle.std.specs.Prelude.{◌≡◌, Some};

use super::Layer;
use std::fmt;

impl Layer {
    // The layer's name, for who compares it; what is printed is the same.
    pub fn name(self) -> &'static str
        ensures { result.now ≡ layer_name self }
    {
        match self {
            Layer::Vault => "vault",
            Layer::Hash => "hash",
            Layer::Store => "store",
            Layer::Tree => "tree",
            Layer::Seal => "seal",
            Layer::Slip => "slip",
        }
    }
}

impl fmt::Display for Layer {
    ghost output = { λ l. Some (layer_name l) };

    fn fmt<W: fmt::Write>(&self, f: &mut fmt::Formatter<W>) -> fmt::Result {
        f.write_str(self.name())
    }
}
