// The part of the system that refuses.
mod name;

#[derive(Clone, Copy, Debug, PartialEq, Eq)]
pub enum Layer {
    Vault,
    Hash,
    Store,
    Tree,
    Seal,
    Slip,
}
