// Numbers in bytes, big-endian two's complement. No public function has a condition on its caller.
#![tactic(auto)]

ghost use Rattle.std.specs.Prelude.{◌≡◌, [], ◌∷◌, ◌%◌};
ghost use Rattle.rules.specs.Bytes as rules;

// The number in two bytes, and that in four: each is one call of std for its width.
#[tactic(auto, unfolding(rules::specs::Bytes::short))]
pub fn short(a: u8, b: u8) -> i32
    ensures { result ≡ rules.short (a ∷ b ∷ []) }
{
    i32::from(i16::from_be_bytes([a, b]))
}

#[tactic(auto, unfolding(rules::specs::Bytes::long))]
pub fn long(a: u8, b: u8, c: u8, d: u8) -> i32
    ensures { result ≡ rules.long (a ∷ b ∷ c ∷ d ∷ []) }
{
    i32::from_be_bytes([a, b, c, d])
}

// The lowest byte of a number, by which `frames` prints. By hand, since no plainer form is there: `as` has to lose nothing.
pub fn low(x: u64) -> u8
    ensures { result ≡ x % 256 }
{
    (x % 256) as u8
}

// The four bytes of a number.
#[tactic(auto, unfolding(rules::specs::Bytes::bytes_of))]
pub fn four_bytes(z: i32) -> [u8; 4]
    ensures { result ≡ rules.bytes_of (z ∷ []) }
{
    z.to_be_bytes()
}
