// Bytes of a body, 0 past its end, and numbers made of them, the lower byte first, as the library's from_le_bytes makes them; the
// clauses speak of the body.
ghost use Rattle.std.specs.Prelude.{◌≡◌, [], ◌∷◌};
ghost use Rattle.kinds.specs.Bytes.{byte_in, number, word_in};

pub fn byte_at(body: &[u8], i: usize) -> u8
    ensures { result ≡ byte_in body.now i }
{
    body.get(i).copied().unwrap_or(0)
}

#[tactic(auto, using(crate::proofs::Numbers::pair))]
pub fn pair_of(low: u8, high: u8) -> u16
    ensures { result ≡ number (low ∷ high ∷ []) }
{
    u16::from_le_bytes([low, high])
}

// The number that a body of eight bytes is.
#[tactic(auto, using(crate::proofs::Numbers::word), unfolding(crate::specs::Bytes::word_in))]
pub fn word_of(body: &[u8]) -> u64
    ensures { result ≡ word_in body.now }
{
    u64::from_le_bytes([
        byte_at(body, 0),
        byte_at(body, 1),
        byte_at(body, 2),
        byte_at(body, 3),
        byte_at(body, 4),
        byte_at(body, 5),
        byte_at(body, 6),
        byte_at(body, 7),
    ])
}
