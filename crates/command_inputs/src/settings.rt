ghost use Rattle.std.specs.Prelude.{◌≡◌, unwrap_or};

use posix_terms::Settings;
use run_views::View;

/// What is asked of a run, beside its settings.
#[derive(Clone, Copy, Debug, PartialEq, Eq)]
pub struct RunOptions {
    /// What of it is printed, and in which order.
    pub view: View,
    /// Whether it is printed in JSON, one object a line, whatever the view.
    pub json: bool,
    /// Whether it is said on standard error why it stopped.
    pub why: bool,
    /// Whether the replies are held to what the texts of the scripts expect.
    pub expect: bool,
}

/// What scripts run under where no option says otherwise.
pub const DEFAULTS: Settings = Settings {
    patience: 1_000,
    door_cost: 100,
    version: 2,
};

/// Patience, door cost and the version of the log as the options give them, and by default where
/// they do not.
pub fn settings_of(patience: Option<u32>, door_cost: Option<u32>, version: Option<u16>) -> Settings
    ensures { result ≡ record {
      patience = unwrap_or patience 1000;
      door_cost = unwrap_or door_cost 100;
      version = unwrap_or version 2;
    } }
{
    Settings {
        patience: patience.unwrap_or(DEFAULTS.patience),
        door_cost: door_cost.unwrap_or(DEFAULTS.door_cost),
        version: version.unwrap_or(DEFAULTS.version),
    }
}
