// Numbers in four bytes, big-endian two's complement.
ghost use Rattle.std.specs.Prelude.{◌≡◌, ◌≤◌, ◌*◌, length};
ghost use Rattle.rules.specs.Bytes.{bytes_of};
ghost use Rattle.rules.specs.Calls.{filled};
ghost use Rattle.bench.specs.Words.{Decoded, room_of};

use byte_numbers::{four_bytes, long};

// All the numbers in s, at the front of what is lent for them; all that is lent where s holds no whole count of numbers, or not fewer than that.
pub fn decode<'a>(s: &[u8], numbers: &'a mut [i32]) -> &'a [i32]
    ensures { Decoded s.now (length numbers.old) result.now }
{
    let (words, torn) = s.as_chunks::<4>();
    if !torn.is_empty() || numbers.len() <= words.len() {
        return numbers;
    }
    for (i, &[a, b, c, d]) in words.iter().enumerate() {
        numbers[i] = long(a, b, c, d);
    }
    &numbers[..words.len()]
}

// All that is lent where s has room for so many numbers and a whole count of them, else none of it.
pub fn room<'a>(s: &[u8], numbers: &'a mut [i32]) -> &'a mut [i32]
    ensures { length result.now ≡ room_of s.now (length numbers.old) }
{
    if s.len() % 4 == 0 && numbers.len() <= s.len() / 4 {
        numbers
    } else {
        &mut numbers[..0]
    }
}

// The numbers xs, at the front of out. Written at an index: the library says of `chunks_exact_mut` and of `as_chunks_mut` nothing of what the bytes
// are after, so that no proof over them closes.
pub fn encode(out: &mut [u8], xs: &[i32])
    requires { 4 * length xs.now ≤ length out.old }
    ensures { out.new ≡ filled (bytes_of xs.now) out.old }
{
    for (i, x) in xs.iter().enumerate() {
        out[4 * i..4 * i + 4].copy_from_slice(&four_bytes(*x));
    }
}
