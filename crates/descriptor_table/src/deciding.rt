ghost use Rattle.std.specs.Prelude.{◌≡◌, ◌<◌, not, Ok, pos, IfOk};
ghost use Rattle.sequential_object.specs.declared.decision.Change.TheVariants as change;
ghost use Rattle.sequential_object.specs.declared.decision.Decision.TheVariants as decision;
ghost use Rattle.sequential_object.specs.declared.decision.Deed.TheVariants as deed;
ghost use Rattle.posix_terms.specs.declared.reply.Reply.TheVariants as reply;
ghost use Rattle.sequential_object.specs.Decided.{decided};
ghost use Rattle.sequential_object.specs.Deciding.{acts_or_asks, is_file, leads_outside, locks};
ghost use Rattle.sequential_object.specs.Deciding.{must_be_file, tells};
ghost use Rattle.sequential_object.specs.Opening.{close_decided, closes, new_descriptor};
ghost use Rattle.sequential_object.specs.Opening.{open_decided};
ghost use Rattle.sequential_object.specs.Opening.{open_new, open_there, opened_with};
ghost use Rattle.sequential_object.specs.Doors.{host_open_decided, must_be_listener, opens};
ghost use Rattle.sequential_object.specs.Doors.{port_decided};
ghost use Rattle.sequential_object.specs.Doors.{tcp_accept_decided};
ghost use Rattle.sequential_object.specs.Duplicates.{dup2_decided, dup_decided, dup_from_decided};
ghost use Rattle.sequential_object.specs.Duplicates.{replaces};
ghost use Rattle.sequential_object.specs.Names.{addable, ends_by_name, file_named, link_decided};
ghost use Rattle.sequential_object.specs.Names.{loses_name, mkdir_decided, rename_decided, renames};
ghost use Rattle.sequential_object.specs.Names.{rmdir_decided, unlink_decided};
ghost use Rattle.sequential_object.specs.Sockets.{new_ends, pipe_decided, shutdown_decided, shuts};
ghost use Rattle.sequential_object.specs.Sockets.{socketpair_decided};
ghost use Rattle.sequential_object.specs.Status.{fstat_decided, getfl_decided, setfl_decided};
ghost use Rattle.sequential_object.specs.Status.{stat_by};
ghost use Rattle.sequential_object.specs.Status.{status_number};
ghost use Rattle.sequential_object.specs.Transfers.{first_write, ftruncate_decided, goes_on};
ghost use Rattle.sequential_object.specs.Transfers.{is_pipe};
ghost use Rattle.sequential_object.specs.Transfers.{lseek_decided, moves, not_listener};
ghost use Rattle.sequential_object.specs.Transfers.{pread_decided};
ghost use Rattle.sequential_object.specs.Transfers.{pwrite_decided, read_decided, seekable};
ghost use Rattle.sequential_object.specs.Transfers.{write_decided};
ghost use Rattle.sequential_object.specs.So.{IsSo};
ghost use Rattle.descriptor_table.specs.Agreement.{DecidesAsStep};
ghost use Rattle.descriptor_table.specs.Plans.{plan_of};
ghost use Rattle.descriptor_table.specs.View.{seen_at, view};
ghost use Rattle.directories.specs.Entries.{node_of};
ghost use Rattle.std.specs.Option.{option_map};

use crate::laws::table_follows_step;
use crate::numbers::{check_host_path, count_of, descriptor_number, port_of, position_of, size_of};
use crate::plan::{Plan, plan_of};
use crate::table::Table;
use directories::Node;
use posix_terms::{
    Access, Call, Door, End, Errno, Limits, Moved, ObjectKind, OpenFlags, Reply, ShutdownHow,
    Whence,
};
use sequential_object::{Act, Change, Decision, Deed, NewDescriptor, NewEnds, Seen};

impl Table {
    /// What the table makes of a call that moved so much before, as `decide` has it, and what it asks
    /// of the outside.
    pub fn plan(&self, call: &Call, so_far: Moved) -> Plan
        ensures { result ≡ plan_of call.now (decided (view self.now) call.now so_far) }
    {
        plan_of(call, self.decide(call, so_far))
    }

    /// What is decided of a call that moved so much before: its reply, exactly where the call takes
    /// no object's lock, or what it does with the object that it locks; and its change of the table.
    /// All that these need is looked up here (`so`), so that `carry_out` and `open_door` look nothing
    /// up again. In whatever state the table shows it is what the sequential object decides (`step`).
    pub fn decide(&self, call: &Call, so_far: Moved) -> Result<Decision, Errno>
        ensures decided { result ≡ decided (view self.now) call.now so_far }
        ensures so { IfOk result (IsSo (view self.now) call.now) }
        ensures step { DecidesAsStep self.now call.now so_far result }
    {
        self.known();
        table_follows_step();
        self.decide_call(call, so_far)
    }

    fn decide_call(&self, call: &Call, moved: Moved) -> Result<Decision, Errno>
        ensures { result ≡ decided (view self.now) call.now moved }
    {
        match call {
            Call::Open {
                path,
                access,
                flags,
            } => self.opening(path.as_slice(), *access, *flags),
            Call::Close { descriptor } => self.closing(*descriptor),
            Call::Read { descriptor, count } => self.reading(*descriptor, *count),
            Call::Write { descriptor, bytes } => {
                self.writing(*descriptor, bytes.as_slice().len(), moved)
            }
            Call::Pread {
                descriptor,
                count,
                position,
            } => self.reading_at(*descriptor, *count, *position),
            Call::Pwrite {
                descriptor,
                bytes,
                position,
            } => self.writing_at(*descriptor, bytes.as_slice().len(), *position),
            Call::Lseek {
                descriptor,
                offset,
                whence,
            } => self.seeking(*descriptor, *offset, *whence),
            Call::Ftruncate { descriptor, size } => self.cutting(*descriptor, *size),
            Call::Fstat { descriptor } => self.stat(*descriptor),
            Call::Dup { descriptor } => self.dup(*descriptor),
            Call::DupFrom { descriptor, least } => self.dup_from(*descriptor, *least),
            Call::Dup2 { descriptor, target } => self.dup2(*descriptor, *target),
            Call::Getfl { descriptor } => self.flags(*descriptor),
            Call::Setfl {
                descriptor,
                append,
                nonblock,
            } => self.setting_flags(*descriptor, *append, *nonblock),
            Call::Link { old_path, new_path } => {
                self.linking(old_path.as_slice(), new_path.as_slice())
            }
            Call::Unlink { path } => self.unlinking(path.as_slice()),
            Call::Rename { old_path, new_path } => {
                self.renaming(old_path.as_slice(), new_path.as_slice())
            }
            Call::Mkdir { path } => self.making_directory(path.as_slice()),
            Call::Rmdir { path } => self.removing_directory(path.as_slice()),
            Call::Pipe => self.pipe(),
            Call::Socketpair => self.socketpair(),
            Call::Shutdown { descriptor, how } => self.shutting(*descriptor, *how),
            Call::HostOpen {
                path,
                access,
                flags,
            } => self.host_opening(path.as_slice(), *access, *flags),
            Call::TcpListen { port } => self.at_port(0, *port),
            Call::TcpConnect { port } => self.at_port(1, *port),
            Call::TcpAccept { descriptor } => self.accepting(*descriptor),
        }
    }

    // What a descriptor refers to.
    fn seen(&self, descriptor: i64) -> Result<Seen, Errno>
        ensures { result ≡ seen_at self.now descriptor }
    {
        let (key, description) = self.described(descriptor)?;
        Ok(Seen {
            number: descriptor as usize,
            key,
            birth: description.birth,
            object: description.node,
            end: description.end,
            access: description.access,
            append: description.flags.append,
            nonblock: description.flags.nonblock,
            last: description.holders == 1,
        })
    }

    #[tactic(auto, unfolding(sequential_object::specs::Opening::open_decided))]
    fn opening(&self, path: &[u8], access: Access, flags: OpenFlags) -> Result<Decision, Errno>
        ensures { result ≡ open_decided (view self.now) path.now access flags }
    {
        if flags.truncate && !access.can_write() {
            return Err(Errno::EINVAL);
        }
        match self.names().resolve(path)? {
            Some(_) if flags.create && flags.exclusive => Err(Errno::EEXIST),
            Some(node) => self.opening_there(node, access, flags),
            None => self.opening_new(access, flags),
        }
    }

    fn opening_there(&self, node: Node, access: Access, flags: OpenFlags) -> Result<Decision, Errno>
        ensures { result ≡ open_there (view self.now) (node_of node) access flags }
    {
        let Node::File(object) = node else {
            return Err(Errno::EISDIR);
        };
        let number = self.free_number(0).ok_or(Errno::EMFILE)?;
        let act = Act::Open {
            number,
            cut: flags.truncate,
        };
        let change = Change::OpenFile(opened_with(number, object, access, flags));
        Ok(acts(object, act, change))
    }

    fn opening_new(&self, access: Access, flags: OpenFlags) -> Result<Decision, Errno>
        ensures { result ≡ open_new (view self.now) access flags }
    {
        if !flags.create {
            return Err(Errno::ENOENT);
        }
        if self.names().is_full() {
            return Err(Errno::ENOSPC);
        }
        let object = self.free_object().ok_or(Errno::ENOSPC)?;
        let number = self.free_number(0).ok_or(Errno::EMFILE)?;
        let change = Change::MakeFile(opened_with(number, object, access, flags));
        Ok(acts(object, Act::Create { number }, change))
    }

    #[tactic(auto, unfolding(sequential_object::specs::Opening::close_decided))]
    fn closing(&self, descriptor: i64) -> Result<Decision, Errno>
        ensures { result ≡ close_decided (view self.now) descriptor }
    {
        Ok(closes(self.seen(descriptor)?))
    }

    #[tactic(auto, unfolding(sequential_object::specs::Duplicates::dup_decided))]
    fn dup(&self, descriptor: i64) -> Result<Decision, Errno>
        ensures { result ≡ dup_decided (view self.now) descriptor }
    {
        let at = self.seen(descriptor)?;
        let number = self.free_number(0).ok_or(Errno::EMFILE)?;
        Ok(shares(number, at.key))
    }

    #[tactic(auto, unfolding(sequential_object::specs::Duplicates::dup_from_decided))]
    fn dup_from(&self, descriptor: i64, least: i64) -> Result<Decision, Errno>
        ensures { result ≡ dup_from_decided (view self.now) descriptor least }
    {
        let at = self.seen(descriptor)?;
        let first = descriptor_number(least, Errno::EINVAL)?;
        let number = self.free_number(first).ok_or(Errno::EMFILE)?;
        Ok(shares(number, at.key))
    }

    #[tactic(auto, unfolding(sequential_object::specs::Duplicates::dup2_decided))]
    fn dup2(&self, descriptor: i64, target: i64) -> Result<Decision, Errno>
        ensures { result ≡ dup2_decided (view self.now) descriptor target }
    {
        let at = self.seen(descriptor)?;
        let number = descriptor_number(target, Errno::EBADF)?;
        if descriptor == target {
            return Ok(tells(Reply::Number(target)));
        }
        let Ok(to) = self.seen(target) else {
            return Ok(shares(number, at.key));
        };
        if leads_outside(to.end) && to.last {
            return Err(Errno::EBUSY);
        }
        Ok(replaces(number, at.key, to))
    }

    #[tactic(auto, unfolding(sequential_object::specs::Transfers::read_decided))]
    fn reading(&self, descriptor: i64, count: i64) -> Result<Decision, Errno>
        ensures { result ≡ read_decided (view self.now) descriptor count }
    {
        let from = self.seen(descriptor)?;
        check_not_listener(from.end)?;
        if !from.access.can_read() {
            return Err(Errno::EBADF);
        }
        let count = count_of(count)?;
        let none = Reply::Data(self.no_bytes());
        Ok(moves(from, count, none, Act::Read { from, count }))
    }

    #[tactic(auto, unfolding(sequential_object::specs::Transfers::write_decided))]
    fn writing(&self, descriptor: i64, count: usize, moved: Moved) -> Result<Decision, Errno>
        ensures { result ≡ write_decided (view self.now) descriptor count moved }
    {
        if moved.bytes > 0 {
            return Ok(self.write_goes_on(descriptor, moved));
        }
        self.first_write(descriptor, count)
    }

    fn first_write(&self, descriptor: i64, count: usize) -> Result<Decision, Errno>
        ensures { result ≡ first_write (view self.now) descriptor count }
    {
        let to = self.seen(descriptor)?;
        check_not_listener(to.end)?;
        if !to.access.can_write() {
            return Err(Errno::EBADF);
        }
        if count > Limits::COUNT {
            return Err(Errno::EINVAL);
        }
        Ok(moves(to, count, Reply::Count(0), Act::Write { to, before: 0 }))
    }

    fn write_goes_on(&self, descriptor: i64, moved: Moved) -> Decision
        ensures { result ≡ goes_on moved (seen_at self.now descriptor) }
    {
        match self.seen(descriptor) {
            Ok(to) if moved.from == Some(to.birth) && is_pipe(to.end) => {
                let before = moved.bytes;
                locks(to, Act::Write { to, before })
            }
            _ => tells(Reply::Count(moved.bytes)),
        }
    }

    #[tactic(auto, unfolding(sequential_object::specs::Transfers::pread_decided))]
    fn reading_at(&self, descriptor: i64, count: i64, position: i64) -> Result<Decision, Errno>
        ensures { result ≡ pread_decided (view self.now) descriptor count position }
    {
        let from = self.seen(descriptor)?;
        check_file(from, Errno::ESPIPE)?;
        if !from.access.can_read() {
            return Err(Errno::EBADF);
        }
        let count = count_of(count)?;
        let position = position_of(position)?;
        Ok(locks(from, Act::Pread { count, position }))
    }

    #[tactic(auto, unfolding(sequential_object::specs::Transfers::pwrite_decided))]
    fn writing_at(&self, descriptor: i64, count: usize, position: i64) -> Result<Decision, Errno>
        ensures { result ≡ pwrite_decided (view self.now) descriptor count position }
    {
        let to = self.seen(descriptor)?;
        check_file(to, Errno::ESPIPE)?;
        if !to.access.can_write() {
            return Err(Errno::EBADF);
        }
        if count > Limits::COUNT {
            return Err(Errno::EINVAL);
        }
        let position = position_of(position)?;
        Ok(locks(to, Act::Pwrite { position }))
    }

    #[tactic(auto, unfolding(sequential_object::specs::Transfers::lseek_decided))]
    fn seeking(&self, descriptor: i64, offset: i64, whence: Whence) -> Result<Decision, Errno>
        ensures { result ≡ lseek_decided (view self.now) descriptor offset whence }
    {
        let at = self.seen(descriptor)?;
        check_seekable(at.end, offset, whence)?;
        Ok(acts_or_asks(at, false, Act::Lseek { at }))
    }

    #[tactic(auto, unfolding(sequential_object::specs::Transfers::ftruncate_decided))]
    fn cutting(&self, descriptor: i64, size: i64) -> Result<Decision, Errno>
        ensures { result ≡ ftruncate_decided (view self.now) descriptor size }
    {
        let at = self.seen(descriptor)?;
        if !at.access.can_write() {
            return Err(Errno::EINVAL);
        }
        check_file(at, Errno::EINVAL)?;
        let size = size_of(size)?;
        Ok(locks(at, Act::Ftruncate { size }))
    }

    #[tactic(auto, unfolding(sequential_object::specs::Status::fstat_decided))]
    fn stat(&self, descriptor: i64) -> Result<Decision, Errno>
        ensures { result ≡ fstat_decided (view self.now) descriptor }
    {
        let at = self.seen(descriptor)?;
        let Some((kind, number)) = stat_by(at.end) else {
            let links = self.names().links(at.object);
            return Ok(locks(at, Act::Fstat { links }));
        };
        Ok(tells(Reply::Stat {
            kind,
            number,
            links: 0,
        }))
    }

    #[tactic(auto, unfolding(sequential_object::specs::Status::getfl_decided))]
    fn flags(&self, descriptor: i64) -> Result<Decision, Errno>
        ensures { result ≡ getfl_decided (view self.now) descriptor }
    {
        let at = self.seen(descriptor)?;
        Ok(tells(Reply::Number(status_number(at))))
    }

    #[tactic(auto, unfolding(sequential_object::specs::Status::setfl_decided))]
    fn setting_flags(
        &self,
        descriptor: i64,
        append: bool,
        nonblock: bool,
    ) -> Result<Decision, Errno>
        ensures { result ≡ setfl_decided (view self.now) descriptor append nonblock }
    {
        let at = self.seen(descriptor)?;
        Ok(Decision::Replies {
            reply: Reply::Done,
            change: Change::SetFlags {
                key: at.key,
                append,
                nonblock,
            },
        })
    }

    #[tactic(auto, unfolding(sequential_object::specs::Names::link_decided))]
    fn linking(&self, old_path: &[u8], new_path: &[u8]) -> Result<Decision, Errno>
        ensures { result ≡ link_decided (view self.now) old_path.now new_path.now }
    {
        let object = self.file_at(old_path, Errno::EPERM)?;
        self.check_addable(new_path)?;
        Ok(Decision::Replies {
            reply: Reply::Done,
            change: Change::AddFile { object },
        })
    }

    #[tactic(auto, unfolding(sequential_object::specs::Names::unlink_decided))]
    fn unlinking(&self, path: &[u8]) -> Result<Decision, Errno>
        ensures { result ≡ unlink_decided (view self.now) path.now }
    {
        let object = self.file_at(path, Errno::EPERM)?;
        Ok(self.lost_name(object, Change::RemoveFile { object }))
    }

    #[tactic(auto, unfolding(sequential_object::specs::Names::rename_decided, directories::specs::Lookup::looked_up))]
    fn renaming(&self, old_path: &[u8], new_path: &[u8]) -> Result<Decision, Errno>
        ensures { result ≡ rename_decided (view self.now) old_path.now new_path.now }
    {
        let object = self.file_at(old_path, Errno::EINVAL)?;
        let node = self.names().resolve(new_path)?;
        self.renamed(object, node)
    }

    fn renamed(&self, object: usize, node: Option<Node>) -> Result<Decision, Errno>
        ensures { result ≡ renames (view self.now) object (option_map node_of node) }
    {
        match node {
            None => Ok(Decision::Replies {
                reply: Reply::Done,
                change: Change::Rename { object, lost: None },
            }),
            Some(Node::Directory) => Err(Errno::EISDIR),
            Some(Node::File(other)) if other == object => Ok(tells(Reply::Done)),
            Some(Node::File(other)) => {
                let lost = Some(other);
                Ok(self.lost_name(other, Change::Rename { object, lost }))
            }
        }
    }

    // A file loses a name, and is locked where it ends with that.
    #[tactic(auto, unfolding(sequential_object::specs::Names::ends_by_name))]
    fn lost_name(&self, object: usize, change: Change) -> Decision
        ensures { result ≡ loses_name (view self.now) object change }
    {
        if self.is_closed(object) && self.names().links(object) == 1 {
            return acts(object, Act::Release, change);
        }
        Decision::Replies {
            reply: Reply::Done,
            change,
        }
    }

    #[tactic(auto, unfolding(sequential_object::specs::Names::mkdir_decided))]
    fn making_directory(&self, path: &[u8]) -> Result<Decision, Errno>
        ensures { result ≡ mkdir_decided (view self.now) path.now }
    {
        self.check_addable(path)?;
        Ok(Decision::Replies {
            reply: Reply::Done,
            change: Change::AddDirectory,
        })
    }

    #[tactic(auto, unfolding(sequential_object::specs::Names::rmdir_decided))]
    fn removing_directory(&self, path: &[u8]) -> Result<Decision, Errno>
        ensures { result ≡ rmdir_decided (view self.now) path.now }
    {
        match self.names().check_remove_dir(path) {
            Ok(()) => Ok(Decision::Replies {
                reply: Reply::Done,
                change: Change::RemoveDirectory,
            }),
            Err(error) => Err(error),
        }
    }

    #[tactic(auto, unfolding(sequential_object::specs::Sockets::pipe_decided))]
    fn pipe(&self) -> Result<Decision, Errno>
        ensures { result ≡ pipe_decided (view self.now) }
    {
        let new = self.new_ends()?;
        let act = Act::Pipe {
            first: new.first,
            second: new.second,
        };
        Ok(acts(new.object, act, Change::MakePipe(new)))
    }

    #[tactic(auto, unfolding(sequential_object::specs::Sockets::socketpair_decided))]
    fn socketpair(&self) -> Result<Decision, Errno>
        ensures { result ≡ socketpair_decided (view self.now) }
    {
        let new = self.new_ends()?;
        let act = Act::Socketpair {
            first: new.first,
            second: new.second,
        };
        Ok(acts(new.object, act, Change::MakeSockets(new)))
    }

    fn new_ends(&self) -> Result<NewEnds, Errno>
        ensures { result ≡ new_ends (view self.now) }
    {
        let (first, second) = self.free_two()?;
        let object = self.free_object().ok_or(Errno::ENFILE)?;
        Ok(NewEnds {
            first,
            second,
            object,
        })
    }

    #[tactic(auto, unfolding(sequential_object::specs::Sockets::shutdown_decided))]
    fn shutting(&self, descriptor: i64, how: ShutdownHow) -> Result<Decision, Errno>
        ensures { result ≡ shutdown_decided (view self.now) descriptor how }
    {
        shuts(self.seen(descriptor)?, how)
    }

    #[tactic(auto, unfolding(sequential_object::specs::Doors::host_open_decided))]
    fn host_opening(&self, path: &[u8], access: Access, flags: OpenFlags) -> Result<Decision, Errno>
        ensures { result ≡ host_open_decided (view self.now) path.now access flags }
    {
        if flags.truncate && !access.can_write() {
            return Err(Errno::EINVAL);
        }
        check_host_path(path)?;
        self.opens(false, None, access, flags.append)
    }

    #[tactic(auto, unfolding(sequential_object::specs::Doors::port_decided))]
    fn at_port(&self, least: u64, port: i64) -> Result<Decision, Errno>
        ensures { result ≡ port_decided (view self.now) least port }
    {
        port_of(least, port)?;
        self.opens(false, None, Access::ReadWrite, false)
    }

    #[tactic(auto, unfolding(sequential_object::specs::Doors::tcp_accept_decided))]
    fn accepting(&self, descriptor: i64) -> Result<Decision, Errno>
        ensures { result ≡ tcp_accept_decided (view self.now) descriptor }
    {
        let at = self.seen(descriptor)?;
        check_listener(at.end)?;
        self.opens(!at.nonblock, Some(at.object), Access::ReadWrite, false)
    }

    fn opens(
        &self,
        blocks: bool,
        listener: Option<usize>,
        access: Access,
        append: bool,
    ) -> Result<Decision, Errno>
        ensures { result ≡ opens (view self.now) blocks listener access append }
    {
        let number = self.free_number(0).ok_or(Errno::EMFILE)?;
        let object = self.free_object().ok_or(Errno::ENFILE)?;
        let new = NewDescriptor {
            number,
            object,
            access,
            append,
            nonblock: false,
        };
        Ok(Decision::Locks {
            object,
            deed: Deed::Opens {
                blocks,
                listener,
                new,
            },
        })
    }

    // The file of a name; a directory is refused with this error.
    #[tactic(auto, unfolding(sequential_object::specs::Names::file_named, directories::specs::Lookup::looked_up))]
    fn file_at(&self, path: &[u8], error: Errno) -> Result<usize, Errno>
        ensures { result ≡ file_named (view self.now) path.now error }
    {
        match self.names().resolve(path)? {
            None => Err(Errno::ENOENT),
            Some(Node::Directory) => Err(error),
            Some(Node::File(object)) => Ok(object),
        }
    }

    #[tactic(auto, unfolding(sequential_object::specs::Names::addable, directories::specs::Lookup::looked_up))]
    fn check_addable(&self, path: &[u8]) -> Result<(), Errno>
        ensures { result ≡ addable (view self.now) path.now }
    {
        if self.names().resolve(path)?.is_some() {
            return Err(Errno::EEXIST);
        }
        if self.names().is_full() {
            return Err(Errno::ENOSPC);
        }
        Ok(())
    }
}

fn tells(reply: Reply) -> Decision
    ensures { result ≡ tells reply }
{
    Decision::Replies {
        reply,
        change: Change::Nothing,
    }
}

// An object is locked, for an act on it after a change.
fn acts(object: usize, act: Act, change: Change) -> Decision
    ensures { result ≡ decision.Locks object (deed.Acts act change) }
{
    Decision::Locks {
        object,
        deed: Deed::Acts { act, change },
    }
}

fn locks(at: Seen, act: Act) -> Decision
    ensures { result ≡ locks at act }
{
    acts(at.object, act, Change::Nothing)
}

fn asks(object: usize, blocks: bool) -> Decision
    ensures { result ≡ decision.Locks object (deed.Asks blocks) }
{
    Decision::Locks {
        object,
        deed: Deed::Asks { blocks },
    }
}

fn acts_or_asks(at: Seen, blocks: bool, act: Act) -> Decision
    ensures { result ≡ acts_or_asks at blocks act }
{
    if leads_outside(at.end) {
        return asks(at.object, blocks);
    }
    locks(at, act)
}

fn moves(at: Seen, count: usize, empty: Reply, act: Act) -> Decision
    ensures { result ≡ moves at count empty act }
{
    if count == 0 && at.end != End::Only {
        return tells(empty);
    }
    acts_or_asks(at, !at.nonblock, act)
}

fn leads_outside(end: End) -> bool
    ensures { result ≡ leads_outside end }
{
    matches!(end, End::Door(_))
}

fn is_pipe(end: End) -> bool
    ensures { result ≡ is_pipe end }
{
    matches!(end, End::Read | End::Write)
}

fn check_file(at: Seen, error: Errno) -> Result<(), Errno>
    ensures { result ≡ must_be_file at error }
{
    if at.end == End::Only {
        Ok(())
    } else {
        Err(error)
    }
}

fn check_not_listener(end: End) -> Result<(), Errno>
    ensures { result ≡ not_listener end }
{
    match end {
        End::Door(Door::Listener(_)) => Err(Errno::EINVAL),
        _ => Ok(()),
    }
}

fn check_listener(end: End) -> Result<(), Errno>
    ensures { result ≡ must_be_listener end }
{
    match end {
        End::Door(Door::Listener(_)) => Ok(()),
        End::Door(Door::Stream) | End::Socket(_) => Err(Errno::EINVAL),
        _ => Err(Errno::ENOTSOCK),
    }
}

fn check_seekable(end: End, offset: i64, whence: Whence) -> Result<(), Errno>
    ensures { result ≡ seekable end offset whence }
{
    match end {
        End::Only => Ok(()),
        End::Door(Door::HostFile) if offset < 0 && whence == Whence::Set => Err(Errno::EINVAL),
        End::Door(Door::HostFile) => Ok(()),
        _ => Err(Errno::ESPIPE),
    }
}

fn stat_by(end: End) -> Option<(ObjectKind, u64)>
    ensures { result ≡ stat_by end }
{
    match end {
        End::Only => None,
        End::Read | End::Write => Some((ObjectKind::Pipe, 0)),
        End::Socket(_) => Some((ObjectKind::SocketPair, 0)),
        End::Door(Door::HostFile) => Some((ObjectKind::HostFile, 0)),
        End::Door(Door::Listener(port)) => Some((ObjectKind::Listener, u64::from(port))),
        End::Door(Door::Stream) => Some((ObjectKind::Stream, 0)),
    }
}

fn status_number(at: Seen) -> i64
    ensures { result ≡ pos (status_number at) }
{
    let access = match at.access {
        Access::ReadOnly => 0,
        Access::WriteOnly => 1,
        Access::ReadWrite => 2,
    };
    let append = if at.append { 4 } else { 0 };
    let nonblock = if at.nonblock { 8 } else { 0 };
    access + append + nonblock
}

fn shuts(at: Seen, how: ShutdownHow) -> Result<Decision, Errno>
    ensures { result ≡ shuts at how at.«end» }
{
    match at.end {
        End::Socket(side) => Ok(locks(at, Act::Shutdown { side, how })),
        End::Door(Door::Stream) => Ok(asks(at.object, false)),
        End::Door(Door::Listener(_)) => Err(Errno::EINVAL),
        _ => Err(Errno::ENOTSOCK),
    }
}

fn closes(at: Seen) -> Decision
    ensures { result ≡ closes at }
{
    let change = Change::Close {
        number: at.number,
        key: at.key,
    };
    if !at.last {
        return Decision::Replies {
            reply: Reply::Done,
            change,
        };
    }
    if leads_outside(at.end) {
        return Decision::Locks {
            object: at.object,
            deed: Deed::Closes {
                number: at.number,
                key: at.key,
            },
        };
    }
    acts(at.object, Act::Release, change)
}

fn shares(number: usize, key: usize) -> Decision
    requires { number < Limits.DESCRIPTORS }
    ensures { result
        ≡ decision.Replies (reply.Number (pos number)) (change.Share number key) }
{
    Decision::Replies {
        reply: Reply::Number(number as i64),
        change: Change::Share { number, key },
    }
}

fn replaces(number: usize, key: usize, to: Seen) -> Decision
    requires { number < Limits.DESCRIPTORS }
    ensures { result ≡ replaces number key (Ok to) }
{
    let change = Change::Replace {
        number,
        old_key: to.key,
        key,
    };
    if to.last {
        return acts(to.object, Act::Release, change);
    }
    Decision::Replies {
        reply: Reply::Number(number as i64),
        change,
    }
}

fn opened_with(number: usize, object: usize, access: Access, flags: OpenFlags) -> NewDescriptor
    ensures { result ≡ opened_with number object access flags }
{
    NewDescriptor {
        number,
        object,
        access,
        append: flags.append,
        nonblock: flags.nonblock,
    }
}
