ghost use Rattle.script_checks.specs.Paths.{AreRefusedForTheirForm};

/// The law of paths: one without a zero byte, as scripts have them, is refused for its form exactly
/// where [`path_fault`](crate::path_fault) gives a reason, and with the error of that reason.
pub fn paths_are_refused()
    ensures { AreRefusedForTheirForm }
{}
