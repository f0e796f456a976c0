// Reads tagged fields where their bytes are.
use std::marker::Model;

mod contents;
mod ends;
mod narrow;

// A place in the sender's bytes: the next field starts at `at`, and nothing is read from `end` on. Both are plain numbers beside the bytes:
// refusals name offsets into all of them, and a guard narrows the end to one field.
#[derive(Drop)]
pub struct Reader<'a> {
    bytes: &'a [u8],
    at: usize,
    end: usize,
}

impl<'a> Model for Reader<'a> {
    ghost use Rattle.std.specs.Prelude.{◌≤◌, length};
    ghost use Rattle.fields.specs.Fields.{Reading};

    ghost Value = { Reading };

    ghost view = { λ r. record { bytes = r.bytes.now; at = r.at; end = r.end } };

    ghost invariant = { λ r. (r.at ≤ r.end) × (r.end ≤ length r.bytes.now) };
}
