// Reading an input to its end, with a failed read told from the end: what came before it is no whole input.
ghost use Rattle.std.specs.Prelude.{◌≡◌, ◌-◌, ◌<◌, ◌≤◌, length, IfOk};
ghost use Rattle.glaukemis.specs.Reading.{Given, HeldBytes, marked, told};

use std::io;
use std::io::Read;

// How a reading stopped: at the end of the input, at a read that failed, or where the buffer was full.
#[derive(Clone, Copy, Debug, PartialEq, Eq)]
pub enum End {
    AtEnd,
    Failed,
    Full,
}

// The first `len` bytes of the buffer are held. Where a read failed, the last of them is a blank that stands for it.
// The buffer is lent, so that the count stands beside it, as in the answer of each read.
#[derive(Drop)]
pub struct Held {
    pub len: usize,
    pub end: End,
}

// What a read's answer says, `len` bytes being held before it: how many are held now, and how the reading stops, if it does.
fn heard(got: io::Result<usize>, buf: &mut [u8], len: usize) -> (usize, Option<End>)
    requires len_in_bounds { len < length buf.old }
    requires moved { IfOk got (λ n. n ≤ length buf.old - len) }
    ensures value { result ≡ told got len }
    ensures buf_after { buf.new ≡ marked got len buf.old }
{
    match got {
        Ok(0) => (len, Some(End::AtEnd)),
        Ok(n) => (len + n, None),
        Err(_) => {
            buf[len] = b' ';
            (len + 1, Some(End::Failed))
        }
    }
}

// Reads until the input ends, a read fails or buf is full.
pub fn read<R: Read>(input: &mut R, buf: &mut [u8]) -> Held
    ensures held { HeldBytes buf.new result }
    ensures given { Given (R.remaining input.old) (R.remaining input.new) buf.new result }
{
    let mut len = 0;
    // No `for`: each read says how far it came.
    while len < buf.len() {
        let got = input.read(&mut buf[len..]);
        let (held, end) = heard(got, buf, len);
        if let Some(end) = end {
            return Held { len: held, end };
        }
        len = held;
    }
    Held {
        len,
        end: End::Full,
    }
}
