// Opening: shares fixed, every seat vacant, every byte of the machine's own wiped.
#![tactic(auto)]

ghost use Rattle.std.specs.Prelude.{◌≡◌, ◌&&◌, ◌+◌, ◌%◌, ◌≤◌, ◌++◌, length, take, drop, eqb, leb};
ghost use Rattle.laws.specs.Lists.{all};
ghost use Rattle.lent.specs.Runs.{wiped};
ghost use Rattle.rules.specs.Calls.{fair_share, total, may_open};
ghost use Rattle.rules.specs.Refused.{answered, answered_at};
ghost use Rattle.state.specs.State.{state};
ghost use Rattle.calls.specs.Calls as Calls;
ghost use Rattle.opening.specs.Opening.{shares_over};

use lent::{Zero, put, wipe};
use rules::CallRefusal;
use state::limits;
use state::whole::Lent;

// Whether each seat's share is fair, and all of them together.
fn are_fair(shares: &[u32], seats: usize) -> bool
    requires { length shares.now ≡ seats + seats }
    ensures { result ≡ (all fair_share (Calls.shares_in shares.now) && leb (total (Calls.shares_in shares.now)) 2048) }
{
    let mut sum: u32 = 0;
    for k in 0..seats {
        let cells = shares[k + k];
        if !limits::is_fair(cells, shares[k + k + 1]) {
            return false;
        }
        if 2048 - sum < cells {
            return false;
        }
        sum += cells;
    }
    true
}

#[tactic(auto, using(std::proofs::lemmas::Bool::Decides::nat_tests, crate::proofs::Openings::seats_are), unfolding(rules::specs::Calls::may_open))]
fn may_open(shares: &[u32]) -> bool
    ensures { result ≡ (eqb (length shares.now % 2) 0 && may_open (Calls.shares_in shares.now)) }
{
    let n = shares.len();
    if n % 2 != 0 {
        return false;
    }
    let seats = n / 2;
    if seats < 1 {
        return false;
    }
    if 8 < seats {
        return false;
    }
    are_fair(shares, seats)
}

fn write_shares(book: &mut [u32], shares: &[u32], seats: usize)
    requires { (length shares.now ≡ seats + seats) × (seats ≤ 8) }
    ensures { book.new ≡ shares_over 0 (Calls.shares_in shares.now) book.old }
{
    for k in 0..seats {
        put(book, k * 9, shares[k + k]);
        put(book, k * 9 + 1, shares[k + k + 1]);
    }
}

// Wipes the first `count` elements.
fn wipe_front<T: Zero>(s: &mut [T], count: usize)
    requires { count ≤ length s.old }
    ensures { s.new ≡ wiped T.ZERO (take count s.old) ++ drop count s.old }
{
    wipe(&mut s[..count]);
}

#[tactic(auto, using(std::proofs::lemmas::Bool::Decides::nat_tests), unfolding(calls::specs::Calls::open_call, state::specs::State::long, state::specs::State::is_long))]
pub fn open(
    book: &mut [u32],
    tags: &mut [u16],
    words: &mut [u64],
    heads: &mut [u64],
    accs: &mut [u64],
    images: &mut [u8],
    shares: &[u32],
) -> Result<(), CallRefusal>
    ensures outcome { Calls.open_call (state book.old tags.old words.old heads.old accs.old images.old) shares.now ≡ Calls.moved (answered result) (state book.new tags.new words.new heads.new accs.new images.new) }
    ensures placeless { answered_at result ≡ 0 }
{
    let lent = Lent {
        book: &book[..],
        tags: &tags[..],
        words: &words[..],
        heads: &heads[..],
        accs: &accs[..],
        images: &images[..],
    };
    if !lent.is_long() {
        return Err(CallRefusal::TooShort);
    }
    if !may_open(shares) {
        return Err(CallRefusal::BadShares);
    }
    wipe_front(book, 72);
    wipe_front(tags, 2048);
    wipe_front(words, 2048);
    wipe_front(heads, 256);
    wipe_front(accs, 256);
    wipe_front(images, 32768);
    write_shares(book, shares, shares.len() / 2);
    Ok(())
}
