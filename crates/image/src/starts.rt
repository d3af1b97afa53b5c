// The starts of instructions, and the first instruction that aims at anything else. Its walks are loops: they go on by the length
// of the instruction at a place, which no iterator of the library does.
ghost use Rattle.std.specs.Prelude.{◌≡◌, suc, ◌≤◌, length};
ghost use Rattle.kinds.specs.Flows.{targets};
ghost use Rattle.image.specs.Reading.{start, astray};
ghost use Rattle.image.specs.Marks.{marks, marked, all_marked};

use crate::records;
use kinds::Flow;

// Whether an instruction starts at a position of the code, found by walking it.
#[tactic(auto, using(crate::proofs::Strides::stride_by), unfolding(crate::specs::Reading::start, crate::specs::Reading::start_from, crate::specs::Records::stride_at, crate::specs::Records::stride_of))]
pub fn is_start(image: &[u8], code: u32, position: u16) -> bool
    ensures { result ≡ start image.now code position }
{
    let mut at = code as usize;
    let place = at + (position as usize);
    while let Ok(behind) = records::stride_at(image, at) {
        if at == place {
            return true;
        }
        at = behind;
    }
    false
}

// A row of marks: 1 at each place where an instruction starts.
#[tactic(auto, using(crate::proofs::Strides::stride_by), unfolding(crate::specs::Marks::marks, crate::specs::Marks::marks_from, crate::specs::Records::stride_at, crate::specs::Records::stride_of))]
fn marks_of(image: &[u8], code: usize) -> [u8; 4096]
    requires { length image.now ≤ 4096 }
    ensures { result ≡ marks image.now code }
{
    let mut row = [0u8; 4096];
    let mut at = code;
    while let Ok(behind) = records::stride_at(image, at) {
        row[at] = 1;
        at = behind;
    }
    row
}

#[tactic(auto, unfolding(crate::specs::Marks::marked))]
fn is_marked(row: &[u8], code: usize, position: u16) -> bool
    ensures { result ≡ marked row.now code position }
{
    if row.len() <= code {
        return false;
    }
    let p = position as usize;
    if row.len() - code <= p {
        return false;
    }
    row[code + p] == 1
}

#[tactic(auto, unfolding(crate::specs::Marks::all_marked, kinds::specs::Flows::targets))]
fn targets_marked(row: &[u8], code: usize, f: Flow) -> bool
    ensures { result ≡ all_marked row.now code (targets f) }
{
    match f {
        Flow::On | Flow::Stops => true,
        Flow::Jumps(a, b) => is_marked(row, code, a) && is_marked(row, code, b),
        Flow::Forks(a) => is_marked(row, code, a),
    }
}

// The place of the first instruction with a target that is no start. The marks are this function's own.
#[tactic(auto, using(crate::proofs::Strides::stride_by), unfolding(crate::specs::Reading::astray, crate::specs::Records::stride_at, crate::specs::Records::stride_of))]
pub fn first_astray(image: &[u8], code: usize) -> Option<usize>
    requires { length image.now ≤ 4096 }
    ensures { result ≡ astray (suc (length image.now)) image.now code code }
{
    let row = marks_of(image, code);
    let mut at = code;
    while let Ok(behind) = records::stride_at(image, at) {
        if !targets_marked(&row, code, records::flow_at(image, at)) {
            return Some(at);
        }
        at = behind;
    }
    None
}
