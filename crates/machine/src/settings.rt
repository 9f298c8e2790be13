ghost use Rattle.std.specs.Prelude.{◌≡◌};
ghost use Rattle.machine.specs.Starting.{are_settings};

use posix_terms::{Limits, Settings};

/// Whether a run can have these settings: patience and door cost are each 1 to 1,000,000, and the
/// version of the log is 1 or 2.
pub fn are_in_range(settings: Settings) -> bool
    ensures { result ≡ are_settings settings }
{
    1 <= settings.patience
        && settings.patience <= Limits::PATIENCE
        && (1 <= settings.door_cost && settings.door_cost <= Limits::DOOR_COST)
        && (settings.version == 1 || settings.version == 2)
}
