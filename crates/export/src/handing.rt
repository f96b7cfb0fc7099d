// What a call hands back, done or refused, as C is told it.
ghost use Rattle.std.specs.Prelude.{◌≡◌};
ghost use Rattle.table.specs.Heads.{head_told, told_beside};

use table::{Head, Refused};

// The number that a call tells, and the head that it hands back beside it.
pub fn handed_back(outcome: Result<Head, Refused>) -> (u8, Head)
    ensures { (result.0 ≡ told_beside outcome) × (result.1 ≡ head_told outcome) }
{
    match outcome {
        Ok(head) => (0, head),
        Err(refused) => (refused.refusal.number(), refused.head),
    }
}
