// The reader: the first fault of an image, or how a good one is laid out. Its walks are loops: they go on by the length of what
// stands at a place, which no iterator of the library does.
ghost use Rattle.std.specs.Prelude.{◌≡◌, suc, ◌≤◌, length, Some};
ghost use Rattle.image.specs.Reading.{ending, walk, read_code, read_inputs, read_image};

use crate::records::Stop;
use crate::{records, starts};
use kinds::{Flow, Record};

// A good image: the slots of the root frame, the inputs, and where the code starts.
#[derive(Clone, Copy, Debug, PartialEq, Eq)]
pub struct Layout {
    pub slots: u8,
    pub inputs: usize,
    pub code: usize,
}

// A bad one: over 4,096 bytes, or at fault at a place.
#[derive(Clone, Copy, Debug, PartialEq, Eq)]
pub enum Fault {
    TooLong,
    BadAt(usize),
}

#[tactic(auto, unfolding(crate::specs::Reading::ending, kinds::specs::Flows::closes))]
fn ending_at(f: Flow, at: usize) -> Option<usize>
    ensures { result ≡ ending f at }
{
    match f {
        Flow::Stops | Flow::Jumps(_, _) => None,
        Flow::On | Flow::Forks(_) => Some(at),
    }
}

// The place of the first instruction that is not whole, or of the last one, if it is of the wrong kind.
#[tactic(auto, using(crate::proofs::Strides::stride_by), unfolding(crate::specs::Reading::walk, crate::specs::Records::stride_at, crate::specs::Records::stride_of))]
fn walk_code(image: &[u8], code: usize) -> Option<usize>
    ensures { result ≡ walk (suc (length image.now)) image.now (Some (length image.now)) code }
{
    let mut end = Some(image.len());
    let mut at = code;
    loop {
        match records::stride_at(image, at) {
            Err(Stop::Ended) => return end,
            Err(Stop::Bad) => return Some(at),
            Ok(behind) => {
                end = ending_at(records::flow_at(image, at), at);
                at = behind;
            }
        }
    }
}

#[tactic(auto, unfolding(crate::specs::Reading::read_code, crate::specs::Reading::or_else, crate::specs::Reading::judged))]
fn read_code(image: &[u8], slots: u8, inputs: usize, code: usize) -> Result<Layout, Fault>
    requires { length image.now ≤ 4096 }
    ensures { result ≡ read_code image.now slots inputs code }
{
    if let Some(place) = walk_code(image, code) {
        return Err(Fault::BadAt(place));
    }
    if let Some(place) = starts::first_astray(image, code) {
        return Err(Fault::BadAt(place));
    }
    Ok(Layout {
        slots,
        inputs,
        code,
    })
}

#[tactic(auto, using(crate::proofs::Places::passed_by), unfolding(crate::specs::Reading::read_inputs))]
fn read_inputs(image: &[u8], slots: u8, first: usize) -> Result<Layout, Fault>
    requires { length image.now ≤ 4096 }
    ensures { result ≡ read_inputs (suc (length image.now)) image.now slots 0 first }
{
    let limit = slots as usize;
    let mut inputs: usize = 0;
    let mut at = first;
    loop {
        match records::whole_at(image, at) {
            Err(Stop::Ended) => return Err(Fault::BadAt(image.len())),
            Err(Stop::Bad) | Ok((Record::Slots(_), _)) => return Err(Fault::BadAt(at)),
            Ok((Record::Code, code)) => return read_code(image, slots, inputs, code),
            Ok((Record::Input(_), behind)) => {
                if limit <= inputs + 1 {
                    return Err(Fault::BadAt(at));
                }
                inputs += 1;
                at = behind;
            }
        }
    }
}

#[tactic(auto, unfolding(crate::specs::Reading::read_image, crate::specs::Reading::read_first))]
pub fn read(image: &[u8]) -> Result<Layout, Fault>
    ensures { result ≡ read_image image.now }
{
    if 4096 < image.len() {
        return Err(Fault::TooLong);
    }
    match records::whole_at(image, 0) {
        Ok((Record::Slots(slots), first)) => read_inputs(image, slots, first),
        _ => Err(Fault::BadAt(0)),
    }
}
