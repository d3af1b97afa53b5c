// One record of an image, at a place.
ghost use Rattle.std.specs.Prelude.{◌≡◌, ◌+◌};
ghost use Rattle.image.specs.Records.{whole_at, stride_at, flow_at, fetched_at};

use kinds::{Flow, Instruction, Tabled};

// Why nothing whole stands at a place: the image ends there, or a record is unknown, cut short or breaks a rule.
#[derive(Clone, Copy, Debug, PartialEq, Eq)]
pub enum Stop {
    Ended,
    Bad,
}

// What stands at a place, an instruction of the code or a record before it, with the place behind it.
#[tactic(auto, unfolding(crate::specs::Records::whole_at, crate::specs::Records::whole_by, crate::specs::Records::placed))]
pub fn whole_at<R: Tabled>(image: &[u8], at: usize) -> Result<(R, usize), Stop>
    ensures { result ≡ whole_at R.table image.now at }
{
    if image.len() <= at {
        return Err(Stop::Ended);
    }
    let kind = image[at];
    let size = R::size(kind);
    if image.len() - at <= size {
        return Err(Stop::Bad);
    }
    let body = at + 1;
    let behind = body + size;
    match R::meant(kind, &image[body..behind]) {
        Some(record) => Ok((record, behind)),
        None => Err(Stop::Bad),
    }
}

// The place behind an instruction, for walks that need no instruction: none is made.
#[tactic(auto, unfolding(crate::specs::Records::stride_at, crate::specs::Records::stride_of, crate::specs::Records::whole_at, crate::specs::Records::whole_by, crate::specs::Records::placed))]
pub fn stride_at(image: &[u8], at: usize) -> Result<usize, Stop>
    ensures { result ≡ stride_at image.now at }
{
    if image.len() <= at {
        return Err(Stop::Ended);
    }
    let kind = image[at];
    let bytes = kinds::instruction_size(kind);
    if image.len() - at <= bytes {
        return Err(Stop::Bad);
    }
    let body = at + 1;
    let behind = body + bytes;
    if kinds::is_meant(kind, &image[body..behind]) {
        return Ok(behind);
    }
    Err(Stop::Bad)
}

// Where a thread may go from the instruction at a place; on, where there is none. Only END, SWITCH, SPAWN and APPLY are made for it.
#[tactic(auto, unfolding(crate::specs::Records::flow_at, crate::specs::Records::flow_in, crate::specs::Records::whole_at))]
pub fn flow_at(image: &[u8], at: usize) -> Flow
    ensures { result ≡ flow_at image.now at }
{
    if image.len() <= at {
        return Flow::On;
    }
    match image[at] {
        0x00 | 0x17..=0x19 => match whole_at::<Instruction>(image, at) {
            Ok((i, _)) => kinds::flow_of(i),
            Err(_) => Flow::On,
        },
        _ => Flow::On,
    }
}

// The instruction at a position of the code, with the position behind it.
#[tactic(auto, using(crate::proofs::Places::passed_by), unfolding(crate::specs::Records::fetched_at, crate::specs::Records::fetched_by))]
pub fn fetch(image: &[u8], code: u32, position: u16) -> Option<(Instruction, usize)>
    ensures { result ≡ fetched_at image.now code position }
{
    let start = code as usize;
    let at = start + (position as usize);
    match whole_at::<Instruction>(image, at) {
        Ok((i, behind)) => Some((i, behind - start)),
        Err(_) => None,
    }
}
