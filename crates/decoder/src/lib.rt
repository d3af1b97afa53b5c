// The instruction at a place of an image, by the table of kinds.
#![tactic(auto)]

ghost use Rattle.std.specs.Prelude.{◌≡◌};
ghost use Rattle.decoder.specs.Decoded.{instruction_at};

use image::records::whole_at;
use kinds::Instruction;

// The instruction at a place of the code; END where no whole one stands there.
#[tactic(auto, unfolding(crate::specs::Decoded::instruction_at, crate::specs::Decoded::instruction_in))]
pub fn instruction_at(image: &[u8], at: usize) -> Instruction
    ensures { result ≡ instruction_at image.now at }
{
    match whole_at::<Instruction>(image, at) {
        Ok((i, _)) => i,
        Err(_) => Instruction::End,
    }
}
