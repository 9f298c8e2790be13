ghost use Rattle.std.specs.Prelude.{◌≡◌};
ghost use Rattle.detio_c.specs.Ends.{back_of, opened_of, run_end};

use c_words::{OutcomeWords, RunEnd};
use machine::Stop;
use posix_terms::{OutKind, Outcome};

/// The doors that come with the outcome of a call of this kind: the one that went out, unless it was closed, and the
/// one that was opened.
pub fn doors_of(
    kind: OutKind,
    outcome: &Outcome,
    words: &OutcomeWords,
) -> (Option<u64>, Option<u64>)
    ensures back { result.0 ≡ back_of kind words.now }
    ensures opened { result.1 ≡ opened_of kind outcome.now words.now }
{
    let back = match kind {
        OutKind::Read | OutKind::Write | OutKind::Seek | OutKind::Shutdown | OutKind::Accept => {
            Some(words.back)
        }
        _ => None,
    };
    let opens = matches!(
        kind,
        OutKind::Open | OutKind::Listen | OutKind::Connect | OutKind::Accept
    );
    let opened = match outcome {
        Outcome::Ok { .. } if opens => Some(words.opened),
        _ => None,
    };
    (back, opened)
}

/// How a run ended, whose threads have all ended or not, and whose log has these bytes.
pub fn run_end(stop: Option<Stop>, have_ended: bool, log: &[u8]) -> RunEnd
    ensures { result ≡ run_end stop have_ended log.now }
{
    let (how, thread) = match stop {
        None if have_ended => (0, 0),
        None => (1, 0),
        Some(Stop::Memory) => (2, 0),
        Some(Stop::Sink) => (3, 0),
        Some(Stop::ClockFull) => (4, 0),
        Some(Stop::EndOfLog(thread)) => (5, thread),
        Some(Stop::Diverged(thread, _)) => (6, thread),
        // No machine itself finds that threads strayed.
        Some(Stop::Strayed) => (1, 0),
    };
    RunEnd {
        how,
        thread,
        length: log.len(),
    }
}
