// The opening of a log: its settings, judged before anything is loaded.
ghost use Rattle.std.specs.Prelude.{◌≡◌, IfOk};
ghost use Rattle.lattice.specs.Refusals.{told};
ghost use Rattle.report.specs.Report.{settings_refusal};
ghost use Rattle.report.specs.Inner.{Opens};

use crate::MOST_LOG_CAPACITY;
use lattice::refusals::Refusal;
use reader::read_at;
use reader::settings::settings_of;
use table::settings::in_range;

// What a log's settings ask for.
#[derive(Clone, Copy)]
pub struct Opening {
    pub d: usize,
    pub capacity: usize,
}

// The settings: 12, 13, 15, then 1, then 16 for a capacity that the program has no memory for.
pub fn opening_of(log: &[u8]) -> Result<Opening, Refusal>
    ensures { (told result ≡ settings_refusal log.now) × IfOk result (λ o. Opens log.now o) }
{
    read_at(log, 0).item?;
    let asked = settings_of(log);
    if !in_range(asked.d, asked.fineness, asked.capacity) {
        return Err(Refusal::SettingsOutOfRange);
    }
    if MOST_LOG_CAPACITY < asked.capacity {
        return Err(Refusal::ProgramLimit);
    }
    Ok(Opening {
        d: asked.d,
        capacity: asked.capacity,
    })
}
