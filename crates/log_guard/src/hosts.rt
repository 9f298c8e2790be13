ghost use Rattle.std.specs.Prelude.{◌≡◌, All, IfOk, length};
ghost use Rattle.log_guard.specs.Guarding.{IsUnusedHost};

use crate::doors::GuardedDoors;
use crate::finder::{HostLog, LogPlace};
use host_doors::HostDoors;
use std::alloc::{AllocError, Global};
use std::time::Duration;

/// An outside for each of so many threads: the host's files, but for the log of the run at this place,
/// and TCP on its loopback address. A read or a write of a stream and an accept wait at the host no
/// longer than `wait`, as in [`HostDoors::waiting`].
#[tactic(auto, using(crate::proofs::Counted::one_more))]
pub fn guarded_hosts<R: Copy + Drop>(
    rt: R,
    alloc: Global,
    threads: usize,
    wait: Duration,
    place: &LogPlace,
) -> Result<Vec<GuardedDoors<HostDoors<R>, HostLog<R>>>, AllocError>
    ensures one_each { IfOk result (λ hosts. length hosts.items ≡ threads) }
    ensures unused { IfOk result (λ hosts. All IsUnusedHost hosts.items) }
{
    let mut hosts = Vec::new(alloc);
    for _ in 0..threads {
        let finder = HostLog {
            rt,
            place: place.share()?,
        };
        hosts.push(GuardedDoors::new(HostDoors::waiting(rt, alloc, wait), finder))?;
    }
    Ok(hosts)
}
