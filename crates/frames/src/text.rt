// What is printed: a text at the front of an array.
ghost use Rattle.std.specs.Prelude.{◌≡◌, [], ◌∷◌, ◌++◌, ◌+◌, ◌-◌, ◌<◌, ◌≤◌, length};
ghost use Rattle.arrayvec.specs.ArrayVec.{array_vec_len};
ghost use Rattle.frames.specs.Output.{zeros};

use crate::TEXT_BYTES;
use std::marker::Model;
use std::ops::DerefSlice;

// The first `len` bytes, and zeros after them. An ArrayVec is not Copy; contracts see a Text as one.
#[derive(Clone, Copy, Debug, PartialEq, Eq)]
pub struct Text {
    bytes: [u8; TEXT_BYTES],
    len: usize,
}

impl Model for Text {
    ghost use Rattle.std.specs.Prelude.{◌≡◌, ℕ, ◌++◌, ◌-◌, ◌≤◌, length, take};
    ghost use Rattle.arrayvec.specs.ArrayVec.{ArrayVec};
    ghost use Rattle.frames.specs.Output.{zeros};

    ghost Value = { ArrayVec ℕ };

    ghost view = { λ t. record { items = take t.len t.bytes } };

    ghost invariant = { λ t. (t.len ≤ 20480) × (length t.bytes ≡ 20480) × (t.bytes ≡ take t.len t.bytes ++ zeros (20480 - t.len)) };

    ghost inverse = { λ x. record { bytes = x.items ++ zeros (20480 - length x.items); len = length x.items } };

    ghost use Rattle.frames.specs.Fields.{fields_back};

    ghost inverse_ok = { fields_back };
}

impl Text {
    pub fn new() -> Text
        ensures { result.items ≡ [] }
    {
        Text {
            bytes: [0; TEXT_BYTES],
            len: 0,
        }
    }

    // Not public, as it asks for room.
    pub(crate) fn push(&mut self, b: u8)
        requires { array_vec_len self.old < 20480 }
        ensures items { self.new.items ≡ self.old.items ++ b ∷ [] }
        ensures len { array_vec_len self.new ≡ array_vec_len self.old + 1 }
    {
        self.bytes[self.len] = b;
        self.len += 1;
    }

    pub fn len(&self) -> usize
        ensures value { result ≡ array_vec_len self.now }
        ensures fits { result ≤ 20480 }
    {
        self.len
    }

    // The whole array: the text, and zeros after it.
    pub fn bytes(&self) -> &[u8; TEXT_BYTES]
        ensures { result.now ≡ self.now.items ++ zeros (20480 - length self.now.items) }
    {
        &self.bytes
    }

    pub fn as_slice(&self) -> &[u8]
        ensures value { result.now ≡ self.now.items }
        ensures fits { length result.now ≤ 20480 }
    {
        &self.bytes[..self.len]
    }
}

impl DerefSlice for Text {
    type Elem = u8;

    ghost deref_gives = { λ x bs. (bs ≡ x.items) × (length bs ≤ 20480) };

    fn deref(&self) -> &[u8] {
        self.as_slice()
    }
}
