ghost use Rattle.std.specs.Prelude.{◌≡◌};
ghost use Rattle.host_doors.specs.Options.{options_of};

use posix_terms::{Access, OpenFlags};
use std::fs::{File, OpenOptions};

/// How a host file is opened.
#[derive(Drop)]
pub(crate) struct HostOptions {
    pub(crate) options: OpenOptions,
    /// Whether a file that is missing is made first, by itself.
    pub(crate) makes: bool,
    /// Whether the file is cut once it is open.
    pub(crate) cuts: bool,
}

impl HostOptions {
    /// How a call opens a host file that has this access and these flags.
    pub(crate) fn new(access: Access, flags: OpenFlags) -> HostOptions
        ensures { result ≡ options_of access flags }
    {
        // The standard library refuses to create a file that is not opened for writing, and to cut
        // one that is opened to append. So each of these is done by itself (`makes`, `cuts`).
        let writes = access.can_write();
        let mut options = File::options();
        options.read(access.can_read());
        options.write(writes);
        options.append(writes && flags.append);
        options.create(writes && flags.create);
        options.truncate(writes && flags.truncate && !flags.append);
        HostOptions {
            options,
            makes: flags.create && !writes,
            cuts: writes && flags.truncate && flags.append,
        }
    }
}
