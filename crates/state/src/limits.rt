// Document 01's limits: the least length of each buffer, and the shares that a seat may have.
ghost use Rattle.std.specs.Prelude.{◌≡◌};
ghost use Rattle.rules.specs.Calls.{fair_share};
ghost use Rattle.state.specs.State.{is_long};

// Whether each buffer has its minimum length.
#[tactic(auto, unfolding(crate::specs::State::is_long))]
pub fn is_long(
    book: usize,
    tags: usize,
    words: usize,
    heads: usize,
    accs: usize,
    images: usize,
) -> bool
    ensures { result ≡ is_long book tags words heads accs images }
{
    72 <= book && 2048 <= tags && 2048 <= words && 256 <= heads && 256 <= accs && 32768 <= images
}

#[tactic(auto, unfolding(rules::specs::Calls::fair_share))]
pub fn is_fair(cells: u32, threads: u32) -> bool
    ensures { result ≡ fair_share (record { cells = cells; threads = threads }) }
{
    (1..=1024).contains(&cells) && (1..=32).contains(&threads)
}
