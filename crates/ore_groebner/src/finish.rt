//! The parts of a complete run.

ghost use Rattle.std.specs.Prelude.{◌≡◌, ◌<◌, ◌^◌};
ghost use Rattle.ore_rows.specs.Stored.{HasColumns};

use crate::outcome::{Events, Finished, Origins};
use crate::progress::Progress;
use ore_rows::Matrix;

// A run that is complete, where the rows of `from` are those of its matrix as multiples of the basis rows.
pub(crate) fn finished(progress: Progress, from: Matrix) -> Finished
    requires wide { HasColumns progress.basis.width progress.syzygies.items }
    requires few { progress.basis.width < 2 ^ 63 }
    ensures basis { result.basis ≡ progress.basis }
    ensures from { result.from ≡ from }
    ensures events { result.events ≡ progress.events.items }
    ensures syzygies { result.syzygies ≡ record { cols = progress.basis.width; rows = progress.syzygies.items } }
    ensures origins { result.origins ≡ progress.origins.items }
{
    let Progress {
        first: _,
        basis,
        listed: _,
        events,
        syzygies,
        origins,
    } = progress;
    let width = basis.width();
    Finished {
        basis,
        from,
        events: Events::from_vec(events),
        syzygies: Matrix::from_rows(width, syzygies),
        origins: Origins::from_vec(origins),
    }
}
