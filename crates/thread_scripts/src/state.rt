ghost use Rattle.std.specs.Prelude.{◌≡◌, ◌+◌, ◌^◌, ◌<◌, [], IfOk, IfSome, option_copied};
ghost use Rattle.std.specs.Prelude.{replicate, slice_get};

use crate::actor::ScriptState;
use crate::line::{ByteRegister, CallLine, Data, Line, Number, NumberRegister};
use crate::script::Script;
use posix_terms::{Bytes, Call, Limits, Reply, SharedBytes, Step};
use std::alloc::{AllocError, Global};
use std::mem;

/// What a line does.
#[derive(Drop)]
pub(crate) enum Action {
    Step(Step),
    Set(NumberRegister, i64),
    SetBytes(ByteRegister, Bytes),
    Go(usize),
    Nothing,
}

/// What of a state changes while lines are executed, but for the byte registers.
#[derive(Clone, Copy)]
pub(crate) struct Saved {
    place: usize,
    numbers: [i64; 16],
    executed: usize,
}

/// What the byte registers held that were replaced while lines were executed, by register.
#[derive(Drop)]
pub(crate) struct Replaced {
    bytes: [Option<Bytes>; 4],
}

impl Replaced {
    ghost use Rattle.std.specs.Prelude.{length, None};
    ghost use Rattle.thread_scripts.specs.Saving.{also_replaced, registers_before};

    /// Of no register.
    pub(crate) fn none() -> Replaced
        ensures { result.bytes ≡ replicate 4 None }
    {
        Replaced {
            bytes: [None, None, None, None],
        }
    }

    /// Keeps what a byte register held, unless it was replaced before.
    fn keep(&mut self, register: ByteRegister, held: Bytes)
        ensures kept { self.new.bytes ≡ also_replaced register held self.old.bytes }
        ensures inside { register < length self.old.bytes }
    {
        let kept = &mut self.bytes[register.index()];
        if kept.is_none() {
            *kept = Some(held);
        }
    }

    /// The registers, those that were replaced with what they held before.
    #[tactic(auto, unfolding(crate::specs::Saving::registers_before))]
    fn put_back(self, registers: [Bytes; 4]) -> [Bytes; 4]
        ensures { result ≡ registers_before self.bytes registers }
    {
        let Replaced { bytes } = self;
        let [held0, held1, held2, held3] = bytes;
        let [now0, now1, now2, now3] = registers;
        [
            held0.unwrap_or(now0),
            held1.unwrap_or(now1),
            held2.unwrap_or(now2),
            held3.unwrap_or(now3),
        ]
    }
}

impl ScriptState {
    ghost use Rattle.thread_scripts.specs.Meaning.{action_of, call_of, data_value, lines_left};
    ghost use Rattle.thread_scripts.specs.Meaning.{next_of, next_within, number_value, performed};
    ghost use Rattle.thread_scripts.specs.Meaning.{start_of, step_given, stored};
    ghost use Rattle.std.specs.Prelude.{None, slice_set};
    ghost use Rattle.thread_scripts.specs.Saving.{registers_before, with_saved};

    /// The state before the script's first line. It takes no memory.
    pub fn new(script: Script) -> ScriptState
        ensures { result ≡ start_of script }
    {
        let alloc = script.allocator();
        ScriptState {
            script,
            place: 0,
            numbers: [0; 16],
            bytes: no_registers(alloc),
            executed: 0,
        }
    }

    fn number(&self, number: Number) -> i64
        ensures { result ≡ number_value self.now number }
    {
        match number {
            Number::Value(value) => value,
            Number::Register(register) => self.numbers[register.index()],
        }
    }

    fn slice<'a>(&'a self, given: &'a Data) -> &'a [u8]
        ensures { result.now ≡ data_value self.now given.now }
    {
        match given {
            Data::Text(bytes) => bytes.as_slice(),
            Data::Register(register) => self.bytes[register.index()].as_slice(),
        }
    }

    /// The bytes, for a register.
    fn bytes(&self, given: &Data) -> Result<Bytes, AllocError>
        ensures { IfOk result (λ bytes. bytes ≡ data_value self.now given.now) }
    {
        Bytes::from_slice(self.script.allocator(), self.slice(given))
    }

    /// The bytes, for a call: a text of the script is shared, a register is copied.
    fn shared(&self, given: &Data) -> Result<SharedBytes, AllocError>
        ensures { IfOk result (λ bytes. bytes ≡ data_value self.now given.now) }
    {
        match given {
            Data::Text(bytes) => bytes.try_clone(),
            Data::Register(register) => {
                let bytes = self.bytes[register.index()].as_slice();
                SharedBytes::from_slice(self.script.allocator(), bytes)
            }
        }
    }

    /// The call that a line makes.
    fn call(&self, line: &CallLine) -> Result<Call, AllocError>
        ensures { IfOk result (λ call. call ≡ call_of self.now line.now) }
    {
        Ok(match line {
            Call::Open {
                path,
                access,
                flags,
            } => Call::Open {
                path: path.try_clone()?,
                access: *access,
                flags: *flags,
            },
            Call::Close { descriptor } => Call::Close {
                descriptor: self.number(*descriptor),
            },
            Call::Read { descriptor, count } => Call::Read {
                descriptor: self.number(*descriptor),
                count: self.number(*count),
            },
            Call::Write { descriptor, bytes } => Call::Write {
                descriptor: self.number(*descriptor),
                bytes: self.shared(bytes)?,
            },
            Call::Pread {
                descriptor,
                count,
                position,
            } => Call::Pread {
                descriptor: self.number(*descriptor),
                count: self.number(*count),
                position: self.number(*position),
            },
            Call::Pwrite {
                descriptor,
                bytes,
                position,
            } => Call::Pwrite {
                descriptor: self.number(*descriptor),
                bytes: self.shared(bytes)?,
                position: self.number(*position),
            },
            Call::Lseek {
                descriptor,
                offset,
                whence,
            } => Call::Lseek {
                descriptor: self.number(*descriptor),
                offset: self.number(*offset),
                whence: *whence,
            },
            Call::Ftruncate { descriptor, size } => Call::Ftruncate {
                descriptor: self.number(*descriptor),
                size: self.number(*size),
            },
            Call::Fstat { descriptor } => Call::Fstat {
                descriptor: self.number(*descriptor),
            },
            Call::Dup { descriptor } => Call::Dup {
                descriptor: self.number(*descriptor),
            },
            Call::DupFrom { descriptor, least } => Call::DupFrom {
                descriptor: self.number(*descriptor),
                least: self.number(*least),
            },
            Call::Dup2 { descriptor, target } => Call::Dup2 {
                descriptor: self.number(*descriptor),
                target: self.number(*target),
            },
            Call::Getfl { descriptor } => Call::Getfl {
                descriptor: self.number(*descriptor),
            },
            Call::Setfl {
                descriptor,
                append,
                nonblock,
            } => Call::Setfl {
                descriptor: self.number(*descriptor),
                append: *append,
                nonblock: *nonblock,
            },
            Call::Link { old_path, new_path } => Call::Link {
                old_path: old_path.try_clone()?,
                new_path: new_path.try_clone()?,
            },
            Call::Unlink { path } => Call::Unlink {
                path: path.try_clone()?,
            },
            Call::Rename { old_path, new_path } => Call::Rename {
                old_path: old_path.try_clone()?,
                new_path: new_path.try_clone()?,
            },
            Call::Mkdir { path } => Call::Mkdir {
                path: path.try_clone()?,
            },
            Call::Rmdir { path } => Call::Rmdir {
                path: path.try_clone()?,
            },
            Call::Pipe => Call::Pipe,
            Call::Socketpair => Call::Socketpair,
            Call::Shutdown { descriptor, how } => Call::Shutdown {
                descriptor: self.number(*descriptor),
                how: *how,
            },
            Call::HostOpen {
                path,
                access,
                flags,
            } => Call::HostOpen {
                path: path.try_clone()?,
                access: *access,
                flags: *flags,
            },
            Call::TcpListen { port } => Call::TcpListen {
                port: self.number(*port),
            },
            Call::TcpConnect { port } => Call::TcpConnect {
                port: self.number(*port),
            },
            Call::TcpAccept { descriptor } => Call::TcpAccept {
                descriptor: self.number(*descriptor),
            },
        })
    }

    /// What a line does.
    #[tactic(auto, unfolding(crate::specs::Meaning::action_of))]
    fn action(&self, failed: bool, line: &Line) -> Result<Action, AllocError>
        ensures { IfOk result (λ action. action ≡ action_of failed self.now line.now) }
    {
        Ok(match line {
            Line::Call(line) => Action::Step(Step::Call(self.call(line)?)),
            Line::Work(amount) => Action::Step(Step::Work(*amount)),
            Line::End => Action::Go(self.script.lines().len()),
            Line::Set { register, value } => Action::Set(*register, self.number(*value)),
            Line::Add { register, value } => {
                let before = self.number(Number::Register(*register));
                Action::Set(*register, before.wrapping_add(self.number(*value)))
            }
            Line::SetBytes { register, value } => Action::SetBytes(*register, self.bytes(value)?),
            Line::Label => Action::Nothing,
            Line::Jump { place } => Action::Go(*place),
            Line::JumpIfZero { register, place } => {
                if self.number(Number::Register(*register)) == 0 {
                    Action::Go(*place)
                } else {
                    Action::Nothing
                }
            }
            Line::JumpIfFailed { place } => {
                if failed {
                    Action::Go(*place)
                } else {
                    Action::Nothing
                }
            }
        })
    }

    /// Replaces a byte register, and keeps what it held.
    fn replace(&mut self, register: ByteRegister, bytes: Bytes, replaced: &mut Replaced)
        ensures state { self.new ≡ record self.old {
          bytes =
              slice_set self.old.bytes register bytes;
        } }
        ensures replaced { registers_before replaced.new.bytes self.new.bytes
            ≡ registers_before replaced.old.bytes self.old.bytes }
    {
        let held = mem::replace(&mut self.bytes[register.index()], bytes);
        replaced.keep(register, held);
    }

    /// Does what a line does, and answers the step that it gives.
    fn perform(&mut self, action: Action, replaced: &mut Replaced) -> Option<Step>
        ensures step { result ≡ step_given action }
        ensures state { self.new ≡ performed action self.old }
        ensures replaced { registers_before replaced.new.bytes self.new.bytes
            ≡ registers_before replaced.old.bytes self.old.bytes }
    {
        match action {
            Action::Step(step) => return Some(step),
            Action::Set(register, value) => self.numbers[register.index()] = value,
            Action::SetBytes(register, bytes) => self.replace(register, bytes, replaced),
            Action::Go(place) => self.place = place,
            Action::Nothing => {}
        }
        None
    }

    /// The next line, if there is one.
    fn line(&self) -> Option<&Line>
        ensures line { option_copied result ≡ slice_get self.now.script self.now.place }
        ensures inside { IfSome result (λ _. self.now.place + 1 < 2 ^ 64) }
    {
        self.script.lines().get(self.place)
    }

    /// Executes lines up to one that gives a step. Without memory the state is some lines further.
    #[tactic(auto, using(crate::proofs::Executing::next_none, crate::proofs::Executing::next_step, crate::proofs::Executing::next_more, crate::proofs::Executing::within_end, crate::proofs::Executing::performed_script))]
    fn run(&mut self, failed: bool, replaced: &mut Replaced) -> Result<Step, AllocError>
        ensures ok { IfOk result (λ step. (step, self.new)
            ≡ next_within failed (lines_left self.old) self.old) }
        ensures replaced { registers_before replaced.new.bytes self.new.bytes
            ≡ registers_before replaced.old.bytes self.old.bytes }
        ensures script { self.new.script ≡ self.old.script }
    {
        while self.executed < Limits::EXECUTED_LINES {
            let Some(line) = self.line() else {
                return Ok(Step::End);
            };
            let action = self.action(failed, line)?;
            self.place += 1;
            self.executed += 1;
            if let Some(step) = self.perform(action, replaced) {
                return Ok(step);
            }
        }
        Ok(Step::End)
    }

    /// Stores a reply in the registers.
    fn store(&mut self, reply: Reply, replaced: &mut Replaced)
        ensures state { self.new ≡ stored (Some reply) self.old }
        ensures replaced { registers_before replaced.new.bytes self.new.bytes
            ≡ registers_before replaced.old.bytes self.old.bytes }
    {
        match reply {
            Reply::Count(count) => self.numbers[0] = count.cast_signed(),
            Reply::Data(bytes) => {
                self.numbers[0] = (bytes.as_slice().len() as u64).cast_signed();
                self.replace(ByteRegister::new(0), bytes, replaced);
            }
            Reply::Number(number) => self.numbers[0] = number,
            Reply::Pair(first, second) => {
                self.numbers[0] = first;
                self.numbers[1] = second;
            }
            Reply::Stat { number, links, .. } => {
                self.numbers[0] = number.cast_signed();
                self.numbers[1] = links.cast_signed();
            }
            Reply::Done => self.numbers[0] = 0,
            Reply::Fail(error) => self.numbers[0] = -(error.code() as i64),
        }
    }

    /// A copy of what changes while lines are executed, but for the byte registers.
    #[tactic(auto, using(crate::proofs::Replacing::none_is_replaced))]
    pub(crate) fn save(&self) -> Saved
        ensures { with_saved self.now result (replicate 4 None) ≡ self.now }
    {
        Saved {
            place: self.place,
            numbers: self.numbers,
            executed: self.executed,
        }
    }

    /// Takes back what was saved and replaced.
    pub(crate) fn restore(&mut self, saved: Saved, replaced: Replaced)
        ensures { self.new ≡ with_saved self.old saved replaced.bytes }
    {
        let Saved {
            place,
            numbers,
            executed,
        } = saved;
        self.place = place;
        self.numbers = numbers;
        self.executed = executed;
        let none = no_registers(self.script.allocator());
        let registers = mem::replace(&mut self.bytes, none);
        let registers = replaced.put_back(registers);
        self.bytes = registers;
    }

    /// The next step after the last reply. Without memory the state is some lines further.
    pub(crate) fn advance(
        &mut self,
        last: Option<Reply>,
        replaced: &mut Replaced,
    ) -> Result<Step, AllocError>
        ensures ok { IfOk result (λ step. (step, self.new) ≡ next_of last self.old) }
        ensures replaced { registers_before replaced.new.bytes self.new.bytes
            ≡ registers_before replaced.old.bytes self.old.bytes }
        ensures script { self.new.script ≡ self.old.script }
    {
        let mut failed = false;
        if let Some(reply) = last {
            failed = matches!(reply, Reply::Fail(_));
            self.store(reply, replaced);
        }
        self.run(failed, replaced)
    }
}

/// Byte registers that hold nothing, which take no memory.
fn no_registers(alloc: Global) -> [Bytes; 4]
    ensures { result ≡ replicate 4 [] }
{
    [
        Bytes::from_vec(Vec::new(alloc)),
        Bytes::from_vec(Vec::new(alloc)),
        Bytes::from_vec(Vec::new(alloc)),
        Bytes::from_vec(Vec::new(alloc)),
    ]
}
