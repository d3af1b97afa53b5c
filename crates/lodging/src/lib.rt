// One seat's parts written whole: a claim loaded into them, and cleared away.
#![tactic(auto)]

ghost use Rattle.std.specs.Prelude.{◌≡◌, ◌%◌};
ghost use Rattle.image.specs.Records.{inputs};
ghost use Rattle.threads.specs.Row.{row};
ghost use Rattle.laying.specs.Laid.{parts};
ghost use Rattle.rules.specs.Refused.{answered, answered_at};
ghost use Rattle.lodging.specs.Lodged as Lodged;

use image::reader::Layout;
use image::{reader, records};
use kinds::Record;
use lent::{get, overlay, put, wipe};
use rules::{CallRefusal, Thread};
use value::{Value, coding};

#[tactic(auto, unfolding(crate::specs::Lodged::book_for))]
fn start_book(book: &mut [u32], long: u32, code: u32, used: u32, live: u32)
    ensures { book.new ≡ Lodged.book_for long code used live book.old }
{
    put(book, 2, long);
    put(book, 3, code);
    put(book, 4, used);
    put(book, 5, live);
    put(book, 6, 0);
    put(book, 7, 0);
    put(book, 8, 0);
}

// A cast that loses bits, which no From of the library does.
fn low32(x: usize) -> u32
    ensures { result ≡ x % 4294967296 }
{
    (x % 4294967296) as u32
}

// What is known of an image before anything is written.
#[tactic(auto, unfolding(crate::specs::Lodged::judged, crate::specs::Lodged::judged_by))]
fn judge(book: &[u32], image: &[u8]) -> Result<Layout, CallRefusal>
    ensures { result ≡ Lodged.judged book.now image.now }
{
    if get(book, 2, 0) != 0 {
        return Err(CallRefusal::NotVacant);
    }
    let layout = reader::read(image)?;
    if u32::from(layout.slots) <= get(book, 0, 0) {
        Ok(layout)
    } else {
        Err(CallRefusal::TooManySlots)
    }
}

// The inputs of an accepted image, as full I-cells from cell 1 on.
fn write_inputs(tags: &mut [u16], words: &mut [u64], image: &[u8], n: usize)
    ensures { Lodged.filled_with 1 (inputs n image.now) (Lodged.cells tags.old words.old) ≡ Lodged.cells tags.new words.new }
{
    let mut at: usize = 2;
    for i in 0..n {
        match records::whole_at(image, at) {
            Ok((Record::Input(v), behind)) => {
                let c = coding::encode(v);
                put(tags, i + 1, c.tag);
                put(words, i + 1, c.word);
                at = behind;
            }
            Ok((Record::Slots(_), _)) => return,
            Ok((Record::Code, _)) => return,
            Err(_) => return,
        }
    }
}

// The one ready thread of a claim just loaded.
#[tactic(auto, unfolding(crate::specs::Lodged::rooted))]
fn write_root(heads: &mut [u64], accs: &mut [u64], start: u32)
    ensures { Lodged.rooted start (row heads.old accs.old) ≡ row heads.new accs.new }
{
    let root = Thread {
        position: 0,
        frame: threads::low16(u64::from(start)),
        acc: Value::Nil,
    };
    threads::put_record(heads, accs, 0, 1, root);
}

pub fn load_seat(
    book: &mut [u32],
    tags: &mut [u16],
    words: &mut [u64],
    heads: &mut [u64],
    accs: &mut [u64],
    kept: &mut [u8],
    start: u32,
    image: &[u8],
) -> Result<(), CallRefusal>
    ensures { Lodged.load_on start image.now (parts book.old tags.old words.old heads.old accs.old kept.old) ≡ Lodged.loaded (answered result) (answered_at result) (parts book.new tags.new words.new heads.new accs.new kept.new) }
{
    let layout = judge(&book[..], image)?;
    let slots = u32::from(layout.slots);
    start_book(book, low32(image.len()), low32(layout.code), slots, 1);
    write_inputs(tags, words, image, layout.inputs);
    write_root(heads, accs, start);
    overlay(kept, image);
    Ok(())
}

pub fn clear_seat(
    book: &mut [u32],
    tags: &mut [u16],
    words: &mut [u64],
    heads: &mut [u64],
    accs: &mut [u64],
    kept: &mut [u8],
) -> Result<(), CallRefusal>
    ensures outcome { Lodged.clear_on (parts book.old tags.old words.old heads.old accs.old kept.old) ≡ Lodged.cleared (answered result) (parts book.new tags.new words.new heads.new accs.new kept.new) }
    ensures placeless { answered_at result ≡ 0 }
{
    if get(&book[..], 2, 0) == 0 {
        return Err(CallRefusal::Vacant);
    }
    start_book(book, 0, 0, 0, 0);
    wipe(tags);
    wipe(words);
    wipe(heads);
    wipe(accs);
    wipe(kept);
    Ok(())
}
