//! How a settle went on, and what a step tells its caller.

ghost use Rattle.std.specs.Prelude.{◌≡◌, ◌<◌, length};
ghost use Rattle.vd_core.specs.Outcomes.{step_of, regions_after_end, regions_after_failure};

use vd_law::entry::Answer;
use vd_machine::Outcome;
use vd_regions::regions::Regions;

/// What a step of a pass tells its caller.
#[derive(Clone, Copy, PartialEq, Eq, Drop)]
pub enum Step {
    /// It was made, and the call goes on.
    Again,
    /// What is in flight hasn't ended yet; nothing changed.
    Late,
    /// This pass keeps the caller out; nothing changed.
    Busy { by: u32 },
    /// It was made and was the call's last.
    Ended(Answer),
}

/// Lets the region of a pass go, unless its settle was late.
pub(crate) fn release(regions: &mut Regions, pass: u32, outcome: Outcome) -> Step
    requires { pass < length regions.old }
    ensures step { result ≡ step_of outcome }
    ensures regions { regions.new ≡ regions_after_end outcome pass regions.old }
{
    match outcome {
        Outcome::Late => Step::Late,
        Outcome::Done | Outcome::Failed => {
            regions.free(pass);
            Step::Again
        }
    }
}

/// Lets it go where the settle has failed: else the pass goes on in its region.
pub(crate) fn release_failed(regions: &mut Regions, pass: u32, outcome: Outcome) -> Step
    requires { pass < length regions.old }
    ensures step { result ≡ step_of outcome }
    ensures regions { regions.new ≡ regions_after_failure outcome pass regions.old }
{
    match outcome {
        Outcome::Late => Step::Late,
        Outcome::Done => Step::Again,
        Outcome::Failed => {
            regions.free(pass);
            Step::Again
        }
    }
}
