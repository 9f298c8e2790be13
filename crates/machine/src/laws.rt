ghost use Rattle.machine.specs.RecordLaws.{RecordLaws};

/// Laws of the records of a log. By thread, records are outcomes in order, and as many; kinds that are said to be one
/// are one; and an outcome that fits what was asked may be recorded after those that came before. The body is empty:
/// the contract is the law.
pub fn outcomes_are_recorded()
    ensures { RecordLaws }
{}
