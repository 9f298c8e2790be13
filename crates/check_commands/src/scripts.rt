ghost use Rattle.std.specs.Prelude.{◌≡◌, ◌∷◌, ◌++◌, [], OnOk};

use script_checks::ActingLine;
use std::alloc::{AllocError, Global};
use thread_scripts::Script;

/// Where a script stands: its path, and its lines that do something.
#[derive(Debug, Drop)]
pub(crate) struct ScriptPlace<'a> {
    pub path: &'a str,
    pub lines: Vec<ActingLine<'a>>,
}

/// The texts that are scripts, and where each stands.
#[derive(Debug, Drop)]
pub(crate) struct Scripts<'a> {
    pub scripts: Vec<Script>,
    pub places: Vec<ScriptPlace<'a>>,
}

impl<'a> Scripts<'a> {
    pub(crate) fn new(alloc: Global) -> Scripts<'a>
        ensures { result.scripts.items ≡ [] }
    {
        Scripts {
            scripts: Vec::new(alloc),
            places: Vec::new(alloc),
        }
    }

    /// Adds a script.
    pub(crate) fn push(
        &mut self,
        script: Script,
        path: &'a str,
        lines: Vec<ActingLine<'a>>,
    ) -> Result<(), AllocError>
        ensures { OnOk result (self.new.scripts.items ≡ self.old.scripts.items ++ script ∷ []) }
    {
        self.scripts.push(script)?;
        self.places.push(ScriptPlace { path, lines })?;
        Ok(())
    }
}
