//! Compares runs with the starts of the jobs that are out.

ghost use Rattle.std.specs.Prelude.{◌⊎◌, [], MatchResult};
ghost use Rattle.crew.specs.Runs.{IsDistinct, IsEachOnce};
ghost use Rattle.crew.specs.Ticks.{HasStranger, HasDouble, IsTicked};
ghost use Rattle.slice_store.specs.Fits.{IsMisfit};

use crate::done::{Done, Job};
use crate::misfit::Misfit;
use crate::start::Start;
use crew::{Begun, all_known, all_there, tick_off};

/// Why runs don't fit, where one is of no job that is out, or one comes twice.
fn misfit_of(out: &[Begun<Start>], runs: &[Done]) -> Misfit
    requires { HasStranger out.now runs.now ⊎ HasDouble runs.now }
    ensures { IsMisfit out.now runs.now result }
{
    if all_known::<Job, Start, Done>(out, runs) {
        return Misfit::Double;
    }
    Misfit::Stranger
}

/// Compares runs with the starts that are out. Every tick has to be off.
pub(crate) fn match_up(
    out: &[Begun<Start>],
    runs: &[Done],
    ticks: &mut [bool],
) -> Result<(), Misfit>
    requires clear { IsTicked out.now ticks.old [] }
    requires distinct { IsDistinct out.now }
    ensures { MatchResult result (λ _. IsEachOnce out.now runs.now) (λ e. IsMisfit out.now runs.now e) }
{
    if !tick_off::<Job, Start, Done>(out, runs, 0, 0, ticks) {
        return Err(misfit_of(out, runs));
    }
    if !all_there::<Job, Start, Done>(out, runs, ticks) {
        return Err(Misfit::Missing);
    }
    Ok(())
}
