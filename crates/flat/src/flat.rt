ghost use Rattle.flat.specs.Layout.{flat_span};
ghost use Rattle.std.specs.Prelude.{◌≡◌, vec_len};

mod keeping;
mod making;

// A flat store: its bytes, and the most blocks whose layout fits them.
#[derive(Drop)]
pub struct Flat {
    bytes: Vec<u8>,
    span: u32,
    ghost spans: { span ≡ flat_span (vec_len bytes) },
}
