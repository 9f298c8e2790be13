ghost use Rattle.std.specs.Prelude.{◌≡◌, ◌≤◌, All, IfOk, IfErr, [], vec_len, vec_capacity};
ghost use Rattle.recorder.specs.Each.{AreTrue, IsUnused};
ghost use Rattle.recorder.specs.Seats.{IsTrueTo};

use crate::events::leave;
use crate::leave::Leave;
use crate::seat::{Returned, work};
use crate::shared::SharedRun;
use crate::watch::{Watch, keep_watch};
use host_doors::Outside;
use input_log::LogSink;
use std::alloc::Global;
use std::snapshot::Snapshot;
use std::sync::Wait;
use std::thread;
use std::thread::{JoinHandle, Promise, PromisedHandle, Scope, Threads};
use thread_scripts::Actor;
use worker_notes::Own;

// The actors of a run, each with its outside.
#[derive(Drop)]
pub struct Crew<A, O> {
    pub actors: Vec<A>,
    pub outsides: Vec<O>,
}

// What the workers brought back, by thread.
#[derive(Drop)]
pub struct Gathered<A, O> {
    pub actors: Vec<A>,
    pub outsides: Vec<O>,
    pub own: Vec<Own>,
}

// What a worker with this actor and this outside will bring back.
#[derive(Drop)]
pub struct Promised<A, O> {
    actor: Snapshot<A>,
    outside: Snapshot<O>,
}

impl<A: Actor, O: Outside> Promise<Returned<A, O>> for Promised<A, O> {
    ghost kept_by = { λ p r. IsTrueTo O O.gives (A.state p.actor.value) p.outside.value
        r.own (A.state r.actor) r.outside };
}

// Runs each actor in a thread of its own, to its end or until the machine is stopped, and beside
// them the watcher. Once there is room for the notes it takes no memory itself.
pub fn run_all<
    A: Actor + Send + Drop,
    O: Outside + Send + Drop,
    S: LogSink + Send + Drop,
    W: Watch + Send + Drop,
    R: Threads + Wait + Sync,
>(
    rt: &R,
    alloc: Global,
    shared: &SharedRun<S, O::Door>,
    crew: Crew<A, O>,
    own: Vec<Own>,
    watch: W,
) -> Gathered<A, O>
    requires one_each { vec_len crew.outsides ≡ vec_len crew.actors }
    requires unused { All (IsUnused O.given O.failures) crew.outsides.items }
    requires none { own.items ≡ [] }
    requires room { vec_len crew.actors ≤ vec_capacity own }
    ensures { AreTrue O.gives A.state crew.actors.items crew.outsides.items
        result.own.items result.actors.items result.outsides.items }
{
    thread::scope(
        thread::scope_env(),
        rt,
        move |scope| -> Gathered<A, O>
            requires one_each { vec_len crew.outsides ≡ vec_len crew.actors }
            requires unused { All (IsUnused O.given O.failures) crew.outsides.items }
            requires none { own.items ≡ [] }
            requires room { vec_len crew.actors ≤ vec_capacity own }
            ensures { AreTrue O.gives A.state crew.actors.items crew.outsides.items
                result.own.items result.actors.items result.outsides.items }
        { run_watched(scope, rt, alloc, shared, crew, own, watch) },
    )
}

// Runs the actors while the watcher looks, and ends it when all workers are back.
fn run_watched<
    's,
    E,
    A: Actor + Send + Drop + 's,
    O: Outside + Send + Drop + 's,
    S: LogSink + Send + Drop + 's,
    W: Watch + Send + Drop + 's,
    R: Threads + Wait + Sync + 's,
>(
    scope: &Scope<'s, E>,
    rt: &'s R,
    alloc: Global,
    shared: &'s SharedRun<S, O::Door>,
    crew: Crew<A, O>,
    own: Vec<Own>,
    watch: W,
) -> Gathered<A, O>
    requires one_each { vec_len crew.outsides ≡ vec_len crew.actors }
    requires unused { All (IsUnused O.given O.failures) crew.outsides.items }
    requires none { own.items ≡ [] }
    requires room { vec_len crew.actors ≤ vec_capacity own }
    ensures { AreTrue O.gives A.state crew.actors.items crew.outsides.items
        result.own.items result.actors.items result.outsides.items }
{
    let watcher = start_watcher(scope, rt, shared, watch);
    let gathered = run_in(scope, rt, alloc, shared, crew, own);
    shared.pulse.end();
    if let Some(watcher) = watcher {
        watcher.join(rt);
    }
    gathered
}

// Starts the thread of the watcher, if there is one. Where no thread can be made the run goes on
// unwatched.
fn start_watcher<
    's,
    E,
    S: LogSink + Send + Drop + 's,
    D: Send + Drop + 's,
    W: Watch + Send + Drop + 's,
    R: Wait + Sync + 's,
>(
    scope: &Scope<'s, E>,
    rt: &'s R,
    shared: &'s SharedRun<S, D>,
    watch: W,
) -> Option<JoinHandle<()>> {
    let pause = watch.pause()?;
    match scope.spawn(move || keep_watch(rt, shared, pause, watch)) {
        Ok(watcher) => Some(watcher),
        Err(_) => None,
    }
}

fn run_in<
    's,
    E,
    A: Actor + Send + Drop + 's,
    O: Outside + Send + Drop + 's,
    S: LogSink + Send + Drop + 's,
    R: Threads + Wait + Sync + 's,
>(
    scope: &Scope<'s, E>,
    rt: &'s R,
    alloc: Global,
    shared: &'s SharedRun<S, O::Door>,
    crew: Crew<A, O>,
    own: Vec<Own>,
) -> Gathered<A, O>
    requires one_each { vec_len crew.outsides ≡ vec_len crew.actors }
    requires unused { All (IsUnused O.given O.failures) crew.outsides.items }
    requires none { own.items ≡ [] }
    requires room { vec_len crew.actors ≤ vec_capacity own }
    ensures { AreTrue O.gives A.state crew.actors.items crew.outsides.items
        result.own.items result.actors.items result.outsides.items }
{
    let Crew { actors, outsides } = crew;
    let mut actors = actors;
    let mut outsides = outsides;
    let mut own = own;
    run_rest(
        scope,
        rt,
        alloc,
        shared,
        &mut actors,
        &mut outsides,
        &mut own,
    );
    Gathered {
        actors,
        outsides,
        own,
    }
}

// Starts the last worker, runs those before it, and joins it. What each brings back stands where it
// was.
#[tactic(auto, using(crate::proofs::Gathering::each_last))]
fn run_rest<
    's,
    E,
    A: Actor + Send + Drop + 's,
    O: Outside + Send + Drop + 's,
    S: LogSink + Send + Drop + 's,
    R: Threads + Wait + Sync + 's,
>(
    scope: &Scope<'s, E>,
    rt: &'s R,
    alloc: Global,
    shared: &'s SharedRun<S, O::Door>,
    actors: &mut Vec<A>,
    outsides: &mut Vec<O>,
    own: &mut Vec<Own>,
)
    requires one_each { vec_len outsides.old ≡ vec_len actors.old }
    requires unused { All (IsUnused O.given O.failures) outsides.old.items }
    requires none { own.old.items ≡ [] }
    requires room { vec_len actors.old ≤ vec_capacity own.old }
    ensures told { AreTrue O.gives A.state actors.old.items outsides.old.items
        own.new.items actors.new.items outsides.new.items }
    ensures actors_count { vec_len actors.new ≡ vec_len actors.old }
    ensures outsides_count { vec_len outsides.new ≡ vec_len outsides.old }
    ensures own_count { vec_len own.new ≡ vec_len actors.old }
    ensures actors_room { vec_capacity actors.old ≤ vec_capacity actors.new }
    ensures outsides_room { vec_capacity outsides.old ≤ vec_capacity outsides.new }
    ensures own_room { vec_capacity own.old ≤ vec_capacity own.new }
{
    let Some(actor) = actors.pop() else {
        return;
    };
    let Some(outside) = outsides.pop() else {
        unreachable!()
    };
    let i = actors.len();
    let started = start_one(scope, rt, alloc, shared, i, actor, outside);
    run_rest(scope, rt, alloc, shared, actors, outsides, own);
    let returned = match started {
        Ok(handle) => handle.join(rt),
        Err(returned) => returned,
    };
    let Ok(()) = actors.push(returned.actor) else {
        unreachable!()
    };
    let Ok(()) = outsides.push(returned.outside) else {
        unreachable!()
    };
    let Ok(()) = own.push(returned.own) else {
        unreachable!()
    };
}

// Starts the worker of thread i. Where no thread can be made the machine is stopped, and the worker
// runs here: it leaves at its first event.
fn start_one<
    's,
    E,
    A: Actor + Send + Drop + 's,
    O: Outside + Send + Drop + 's,
    S: LogSink + Send + Drop + 's,
    R: Wait + Sync + 's,
>(
    scope: &Scope<'s, E>,
    rt: &'s R,
    alloc: Global,
    shared: &'s SharedRun<S, O::Door>,
    i: usize,
    actor: A,
    outside: O,
) -> Result<PromisedHandle<Returned<A, O>, Promised<A, O>>, Returned<A, O>>
    requires unused { IsUnused O.given O.failures outside }
    ensures actor { IfOk result (λ h. h.promise.actor.value ≡ actor) }
    ensures outside { IfOk result (λ h. h.promise.outside.value ≡ outside) }
    ensures here { IfErr result (λ r.
        IsTrueTo O O.gives (A.state actor) outside r.own (A.state r.actor) r.outside) }
{
    let promise = Promised {
        actor: Snapshot::of(&actor),
        outside: Snapshot::of(&outside),
    };
    match scope.spawn_with(
        promise,
        move || -> Returned<A, O>
            requires unused { IsUnused O.given O.failures outside }
            ensures { IsTrueTo O O.gives (A.state actor) outside
                result.own (A.state result.actor) result.outside }
        { work(rt, alloc, shared, i, actor, outside) },
    ) {
        Ok(handle) => Ok(handle),
        Err(refused) => {
            leave(rt, shared, Leave::Memory);
            Err((refused.value)())
        }
    }
}
