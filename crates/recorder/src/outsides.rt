ghost use Rattle.std.specs.Prelude.{◌≡◌, All, IfOk, length, replicate};
ghost use Rattle.recorder.specs.Each.{IsUnused};

use host_doors::HostDoors;
use std::alloc::{AllocError, Global};
use std::time::Duration;

/// An outside for each of so many threads: the host's files, and TCP on its loopback address. Reads
/// and writes of a stream wait for as long as the peer likes; accepts never wait.
#[tactic(auto, using(crate::proofs::Alike::all_unused))]
pub fn hosts<R: Copy + Drop>(
    rt: R,
    alloc: Global,
    threads: usize,
) -> Result<Vec<HostDoors<R>>, AllocError>
    ensures one_each { IfOk result (λ hosts. length hosts.items ≡ threads) }
    ensures unused { IfOk result (λ hosts.
        All (IsUnused (λ h. h.given) (λ h. h.failures)) hosts.items) }
{
    unused_hosts(rt, alloc, threads, None)
}

/// The same, but a read or a write of a stream and an accept wait at the host no longer than
/// `wait`. After that the call is blocked, and made again at a later turn of its thread: so the
/// other threads go on, and the patience of the run counts.
#[tactic(auto, using(crate::proofs::Alike::all_unused))]
pub fn hosts_waiting<R: Copy + Drop>(
    rt: R,
    alloc: Global,
    threads: usize,
    wait: Duration,
) -> Result<Vec<HostDoors<R>>, AllocError>
    ensures one_each { IfOk result (λ hosts. length hosts.items ≡ threads) }
    ensures unused { IfOk result (λ hosts.
        All (IsUnused (λ h. h.given) (λ h. h.failures)) hosts.items) }
{
    unused_hosts(rt, alloc, threads, Some(wait))
}

// So many, none of which gave anything, and which wait no longer than this.
fn unused_hosts<R: Copy + Drop>(
    rt: R,
    alloc: Global,
    threads: usize,
    longest: Option<Duration>,
) -> Result<Vec<HostDoors<R>>, AllocError>
    ensures { IfOk result (λ hosts.
        hosts.items ≡ replicate threads (record { given = 0; failures = 0 })) }
{
    let mut hosts = Vec::new(alloc);
    for _ in 0..threads {
        hosts.push(unused_host(rt, alloc, longest))?;
    }
    Ok(hosts)
}

fn unused_host<R>(rt: R, alloc: Global, longest: Option<Duration>) -> HostDoors<R>
    ensures { result ≡ record { given = 0; failures = 0 } }
{
    match longest {
        Some(wait) => HostDoors::waiting(rt, alloc, wait),
        None => HostDoors::new(rt, alloc),
    }
}
