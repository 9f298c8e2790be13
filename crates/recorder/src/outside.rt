ghost use Rattle.std.specs.Prelude.{◌≡◌, ◌+◌, ◌≤◌, true, None, is_some, IfErr, IfOk, OnErr};
ghost use Rattle.host_doors.specs.Giving.{CanCount};
ghost use Rattle.host_doors.specs.Opening.{HasDoor};
ghost use Rattle.recorder.specs.Leaving.{BringsDoor, IsLeft, brings_back, left_for};

use crate::leave::Leave;
use host_doors::{DoorStop, Opened, Outside};
use posix_terms::{OutKind, Outcome, Request};

// What came of a request outside, with the door that went out, unless it was closed, and the one
// that was opened, if any.
#[derive(Drop)]
pub struct Reached<D> {
    pub outcome: Outcome,
    pub back: Option<D>,
    pub opened: Option<D>,
}

// Makes the request of thread i outside, which is to get the outcome of this number. EAGAIN makes
// the call wait, or is its reply.
pub fn reach<O: Outside>(
    outside: &mut O,
    i: usize,
    number: u32,
    request: &Request,
    door: Option<O::Door>,
    waits: bool,
) -> Result<Reached<O::Door>, Leave>
    requires count { CanCount (O.given outside.old) (O.failures outside.old) }
    ensures gives { IfOk result (λ r.
        O.gives outside.old number request.now r.outcome outside.new) }
    ensures given { O.given outside.new ≤ O.given outside.old + 1 }
    ensures failures { O.failures outside.new ≤ O.failures outside.old + 1 }
    ensures same { OnErr result (outside.new ≡ outside.old) }
    ensures why { IfErr result (IsLeft i number) }
    ensures opened { IfOk result (λ r. BringsDoor request.now.kind r.outcome r.opened) }
    ensures back { IfOk result (λ r. is_some r.back ≡ brings_back request.now.kind (is_some door)) }
{
    let reached = match door {
        None => open(outside, i, number, request)?,
        Some(door) => pass(outside, i, number, request, door, waits)?,
    };
    Ok(reached)
}

// Opens a file or a listener, or connects: what takes no door along.
fn open<O: Outside>(
    outside: &mut O,
    i: usize,
    number: u32,
    request: &Request,
) -> Result<Reached<O::Door>, Leave>
    requires count { CanCount (O.given outside.old) (O.failures outside.old) }
    ensures gives { IfOk result (λ r.
        O.gives outside.old number request.now r.outcome outside.new) }
    ensures given { O.given outside.new ≤ O.given outside.old + 1 }
    ensures failures { O.failures outside.new ≤ O.failures outside.old + 1 }
    ensures same { OnErr result (outside.new ≡ outside.old) }
    ensures why { IfErr result (IsLeft i number) }
    ensures opened { IfOk result (λ r. BringsDoor request.now.kind r.outcome r.opened) }
    ensures back { IfOk result (λ r. r.back ≡ None) }
{
    let opened = match request.kind {
        OutKind::Open => outside.open(i, number as u64, request),
        OutKind::Listen => outside.listen(i, number as u64, request),
        OutKind::Connect => outside.connect(i, number as u64, request),
        // A machine gives a door out with each other request. It is under the lock, so this is not
        // known here.
        _ => Err(DoorStop::Diverged),
    };
    match opened {
        Ok(Opened { outcome, door }) => Ok(Reached {
            outcome,
            back: None,
            opened: door,
        }),
        Err(why) => Err(left(i, number, why)),
    }
}

// Makes a request that takes a door along.
fn pass<O: Outside>(
    outside: &mut O,
    i: usize,
    number: u32,
    request: &Request,
    door: O::Door,
    waits: bool,
) -> Result<Reached<O::Door>, Leave>
    requires count { CanCount (O.given outside.old) (O.failures outside.old) }
    ensures gives { IfOk result (λ r.
        O.gives outside.old number request.now r.outcome outside.new) }
    ensures given { O.given outside.new ≤ O.given outside.old + 1 }
    ensures failures { O.failures outside.new ≤ O.failures outside.old + 1 }
    ensures same { OnErr result (outside.new ≡ outside.old) }
    ensures why { IfErr result (IsLeft i number) }
    ensures opened { IfOk result (λ r. BringsDoor request.now.kind r.outcome r.opened) }
    ensures back { IfOk result (λ r. is_some r.back ≡ brings_back request.now.kind true) }
{
    match request.kind {
        OutKind::Close => match outside.close(i, number as u64, request, door) {
            Ok(outcome) => Ok(Reached {
                outcome,
                back: None,
                opened: None,
            }),
            Err(why) => Err(left(i, number, why)),
        },
        OutKind::Accept => accept(outside, i, number, request, door, waits),
        _ => lend(outside, i, number, request, door, waits),
    }
}

// Takes a connection of a listener.
fn accept<O: Outside>(
    outside: &mut O,
    i: usize,
    number: u32,
    request: &Request,
    door: O::Door,
    waits: bool,
) -> Result<Reached<O::Door>, Leave>
    requires count { CanCount (O.given outside.old) (O.failures outside.old) }
    ensures gives { IfOk result (λ r.
        O.gives outside.old number request.now r.outcome outside.new) }
    ensures given { O.given outside.new ≤ O.given outside.old + 1 }
    ensures failures { O.failures outside.new ≤ O.failures outside.old + 1 }
    ensures same { OnErr result (outside.new ≡ outside.old) }
    ensures why { IfErr result (IsLeft i number) }
    ensures opened { IfOk result (λ r. HasDoor r.outcome r.opened) }
    ensures back { IfOk result (λ r. is_some r.back ≡ true) }
{
    let mut door = door;
    match outside.accept(i, number as u64, request, &mut door, waits) {
        Ok(accepted) => Ok(Reached {
            outcome: accepted.outcome,
            back: Some(door),
            opened: accepted.door,
        }),
        Err(why) => Err(left(i, number, why)),
    }
}

// Reads, writes, seeks or shuts down.
fn lend<O: Outside>(
    outside: &mut O,
    i: usize,
    number: u32,
    request: &Request,
    door: O::Door,
    waits: bool,
) -> Result<Reached<O::Door>, Leave>
    requires count { CanCount (O.given outside.old) (O.failures outside.old) }
    ensures gives { IfOk result (λ r.
        O.gives outside.old number request.now r.outcome outside.new) }
    ensures given { O.given outside.new ≤ O.given outside.old + 1 }
    ensures failures { O.failures outside.new ≤ O.failures outside.old + 1 }
    ensures same { OnErr result (outside.new ≡ outside.old) }
    ensures why { IfErr result (IsLeft i number) }
    ensures opened { IfOk result (λ r. BringsDoor request.now.kind r.outcome r.opened) }
    ensures back { IfOk result (λ r. is_some r.back ≡ true) }
{
    let mut door = door;
    let came = match request.kind {
        OutKind::Read => outside.read(i, number as u64, request, &mut door, waits),
        OutKind::Write => outside.write(i, number as u64, request, &mut door, waits),
        OutKind::Seek => outside.seek(i, number as u64, request, &mut door),
        OutKind::Shutdown => outside.shutdown(i, number as u64, request, &mut door),
        // No other request takes a door along.
        _ => Err(DoorStop::Diverged),
    };
    match came {
        Ok(outcome) => Ok(Reached {
            outcome,
            back: Some(door),
            opened: None,
        }),
        Err(why) => Err(left(i, number, why)),
    }
}

// Why thread i leaves whose outside gave no outcome of this number.
fn left(i: usize, number: u32, why: DoorStop) -> Leave
    ensures { result ≡ left_for i number why }
{
    match why {
        DoorStop::EndOfLog => Leave::EndOfLog(i),
        DoorStop::Diverged => Leave::Diverged(i, number),
        DoorStop::Memory => Leave::Memory,
    }
}
