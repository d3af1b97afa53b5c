// What an instruction is refused by; specs/Refusals.antt has the number of each.
ghost use Rattle.std.specs.Prelude.{◌≡◌};
ghost use Rattle.value.specs.Refusals.{refusal_number};

#[derive(Clone, Copy, Debug, PartialEq, Eq)]
pub enum Refusal {
    NoSuchCell,
    WrongCell,
    SlotEmpty,
    WrongKind,
    CellFull,
    BadSize,
    NoCellsLeft,
    NoThreadsLeft,
    OutOfRange,
    ZeroDivisor,
}

impl From<Refusal> for u8 {
    ghost from_gives = { λ r n. n ≡ refusal_number r };

    fn from(refusal: Refusal) -> u8 {
        match refusal {
            Refusal::NoSuchCell => 1,
            Refusal::WrongCell => 2,
            Refusal::SlotEmpty => 3,
            Refusal::WrongKind => 4,
            Refusal::CellFull => 5,
            Refusal::BadSize => 6,
            Refusal::NoCellsLeft => 7,
            Refusal::NoThreadsLeft => 8,
            Refusal::OutOfRange | Refusal::ZeroDivisor => 9,
        }
    }
}
