// A table of readings: the head, which is passed by value, and what the calls test of a table's
// memory. What a table means stands in specs/, and the laws of that in proofs/.
#![tactic(auto)]

ghost use Rattle.std.specs.Prelude.{◌≡◌};
ghost use Rattle.table.specs.Heads.{with_counts};

pub mod reading;
pub mod settings;

use lattice::refusals::Refusal;

// The settings (d, S, C and the room B of the book) and the numbers of readings and of points.
#[derive(Clone, Copy)]
pub struct Head {
    pub d: usize,
    pub fineness: u32,
    pub capacity: usize,
    pub room: usize,
    pub readings: usize,
    pub points: usize,
}

// A refusal, with the head that is handed back beside it.
#[derive(Clone, Copy)]
pub struct Refused {
    pub refusal: Refusal,
    pub head: Head,
}

// The head of the same settings with these counts.
pub fn with_counts(head: Head, readings: usize, points: usize) -> Head
    ensures { result ≡ with_counts head readings points }
{
    Head {
        readings,
        points,
        ..head
    }
}
