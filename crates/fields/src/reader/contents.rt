// One field after another.
ghost use Rattle.std.specs.Prelude.{◌≡◌, ◌≤◌, length, IfOk};
ghost use Rattle.std.specs.Option.{option_map};
ghost use Rattle.std.specs.Result.{result_map_both};
ghost use Rattle.fields.specs.Fields.{after, byte, content, given, number, whole};

use super::Reader;
use super::narrow::Narrow;
use crate::bad_field::BadField;

// The content of a field that takes up all of `field`, where its tag and its length are right.
fn content_of(field: &[u8], tag: u8) -> Option<&[u8]>
    requires { 3 ≤ length field.now }
    ensures { option_map (λ x. x.now) result ≡ whole field.now tag }
{
    let [mark, high, low, content @ ..] = field else {
        return None;
    };
    let size = u16::from_be_bytes([*high, *low]) as usize;
    (*mark == tag && size == content.len()).then_some(content)
}

impl<'a> Reader<'a> {
    // The content of the next field, which is to have this tag and length; else its offset, and the reader stays.
    pub fn field(&mut self, tag: u8, size: usize) -> Result<&'a [u8], BadField>
        ensures value { result_map_both (λ x. x.now) (λ e. e) result
            ≡ given self.old tag size (content self.old size) }
        ensures long { IfOk result (λ x. length x.now ≡ size) }
        ensures reader { self.new ≡ after self.old tag size }
        ensures inside { self.old.at ≤ self.old.end }
        ensures within { self.old.end ≤ length self.old.bytes }
    {
        let at = self.at;
        let outer = self.end;
        let room = outer - at;
        if room < 3 || room - 3 < size {
            return Err(BadField { at });
        }
        let guard = Narrow {
            end: &mut self.end,
            outer,
        };
        *guard.end = at + (size + 3);
        let inside = content_of(&self.bytes[at..*guard.end], tag).ok_or(BadField { at })?;
        self.at = *guard.end;
        Ok(inside)
    }

    // The same of a length that is known where the program is built.
    pub fn array<const N: usize>(&mut self, tag: u8) -> Result<&'a [u8; N], BadField>
        ensures value { result_map_both (λ x. x.now) (λ e. e) result ≡ given self.old tag N (content self.old N) }
        ensures reader { self.new ≡ after self.old tag N }
        ensures inside { self.old.at ≤ self.old.end }
        ensures within { self.old.end ≤ length self.old.bytes }
    {
        let at = self.at;
        // the field has `N` bytes, so there is always a chunk of them
        self.field(tag, N)?.first_chunk().ok_or(BadField { at })
    }

    // The one byte of the next field.
    pub fn byte(&mut self, tag: u8) -> Result<u8, BadField>
        ensures value { result ≡ given self.old tag 1 (byte self.old) }
        ensures reader { self.new ≡ after self.old tag 1 }
        ensures inside { self.old.at ≤ self.old.end }
        ensures within { self.old.end ≤ length self.old.bytes }
    {
        let [byte] = *self.array::<1>(tag)?;
        Ok(byte)
    }

    // The number in the four bytes of the next field.
    pub fn number(&mut self, tag: u8) -> Result<u32, BadField>
        ensures value { result ≡ given self.old tag 4 (number self.old) }
        ensures reader { self.new ≡ after self.old tag 4 }
        ensures inside { self.old.at ≤ self.old.end }
        ensures within { self.old.end ≤ length self.old.bytes }
    {
        let bytes = self.array::<4>(tag)?;
        Ok(u32::from_be_bytes(*bytes))
    }
}
