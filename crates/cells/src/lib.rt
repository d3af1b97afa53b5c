// A seat's cells, as tags and words: looked at, and written after an effect. A seat's part of the lent buffers is all that is seen.
#![tactic(auto)]

ghost use Rattle.std.specs.Prelude.{◌≡◌, ◌-◌};
ghost use Rattle.value.specs.Coding.{word_of};
ghost use Rattle.cells.specs.Lent.{kind_bit, kind_in, tag_for, slot_at, look_in, fresh_on};
ghost use Rattle.rules.specs.declared.Kind.TheVariants.{Mcell};
ghost use Rattle.lent.specs.Runs.{filled_from};
ghost use Rattle.cells.specs.Written.{set_below};

use lent::{fill_from, get, put};
use rules::{Kind, Slot};
use value::{Value, coding};

// A seat's used cells as its threads see them: their tags and words, how many, and the location of the first.
#[derive(Clone, Copy)]
pub struct Cells<'a> {
    pub tags: &'a [u16],
    pub words: &'a [u64],
    pub used: u32,
    pub start: u32,
}

impl<'a> Cells<'a> {
    // The cell at a location, as the seat sees it.
    #[tactic(auto, unfolding(crate::specs::Lent::look_on))]
    pub fn look(self, l: usize) -> Slot
        ensures { result ≡ look_in self.entry l }
    {
        let first = self.start as usize;
        if l < first {
            return Slot::Missing;
        }
        let i = l - first;
        if self.used as usize <= i {
            return Slot::Missing;
        }
        slot_at(self.tags, self.words, i)
    }
}

#[tactic(auto, unfolding(crate::specs::Lent::kind_in))]
fn kind_in(tag: u16) -> Kind
    ensures { result ≡ kind_in tag }
{
    if tag / 8 % 2 == 0 {
        Kind::Icell
    } else {
        Kind::Mcell
    }
}

#[tactic(auto, unfolding(crate::specs::Lent::kind_bit))]
fn kind_bit(k: Kind) -> u16
    ensures { result ≡ kind_bit k }
{
    match k {
        Kind::Icell => 0,
        Kind::Mcell => 8,
    }
}

#[tactic(auto, unfolding(crate::specs::Lent::filled, crate::specs::Lent::slot_at))]
fn slot_at(tags: &[u16], words: &[u64], i: usize) -> Slot
    ensures { result ≡ slot_at tags.now words.now i }
{
    let tag = get(tags, i, 0);
    let kind = kind_in(tag);
    if tag % 8 == 0 {
        return Slot::Empty(kind);
    }
    match coding::held_at(tags, words, i) {
        Some(v) => Slot::Full(kind, v),
        None => Slot::Missing,
    }
}

// The location of the next cell made.
#[tactic(auto, unfolding(crate::specs::Lent::fresh_on))]
pub fn fresh(used: u32, start: u32) -> u16
    ensures { result ≡ fresh_on used start }
{
    u16::try_from(u64::from(start) + u64::from(used)).unwrap_or(0)
}

#[tactic(auto, unfolding(crate::specs::Written::set_below))]
fn put_below(n: u32, tags: &mut [u16], words: &mut [u64], i: usize, tag: u16, word: u64)
    ensures { (tags.new ≡ set_below n i tag tags.old) × (words.new ≡ set_below n i word words.old) }
{
    if n as usize <= i {
        return;
    }
    put(tags, i, tag);
    put(words, i, word);
}

// How far a location lies behind the region's start: one subtraction for two callers.
fn past(l: usize, start: u32) -> usize
    ensures { result ≡ l - start }
{
    l.saturating_sub(start as usize)
}

// The cell at a location takes a value.
#[tactic(auto, unfolding(crate::specs::Lent::tag_for, value::specs::Coding::encoded))]
pub fn fill(tags: &mut [u16], words: &mut [u64], used: u32, start: u32, k: Kind, l: usize, v: Value)
    ensures { (tags.new ≡ set_below used (l - start) (tag_for k v) tags.old) × (words.new ≡ set_below used (l - start) (word_of v) words.old) }
{
    let c = coding::encode(v);
    put_below(
        used,
        tags,
        words,
        past(l, start),
        c.tag + kind_bit(k),
        c.word,
    );
}

// The M-cell at a location gives its value away.
#[tactic(auto, unfolding(crate::specs::Lent::kind_bit))]
pub fn empty(tags: &mut [u16], words: &mut [u64], used: u32, start: u32, l: usize)
    ensures { (tags.new ≡ set_below used (l - start) (kind_bit Mcell) tags.old) × (words.new ≡ set_below used (l - start) 0 words.old) }
{
    put_below(used, tags, words, past(l, start), 8, 0);
}

// Empty cells, made behind the used ones: their words are 0 already.
pub fn make(tags: &mut [u16], used: u32, k: Kind, n: u16)
    ensures { tags.new ≡ filled_from used n (kind_bit k) tags.old }
{
    fill_from(tags, used, n, kind_bit(k));
}
