// What help says of the program and of each subcommand.

// What the help of a subcommand says of it in one line, above its options and below them; and its usage, where that
// is not made of its options.
#[derive(Clone, Copy)]
pub(crate) struct Texts {
    pub about: &'static str,
    pub long_about: &'static str,
    pub after_help: &'static str,
    pub usage: Option<&'static str>,
}

pub(crate) const ABOUT: &str =
    "Deterministic record and replay of calls on one table of descriptors.

Scripts of calls run against files, pipes and pairs of sockets in memory. The order of the calls
comes from logical clocks alone, so a run prints the same each time, on every machine. What calls got
from outside, from host files and over TCP, stands in a log, and a run is replayed by its log with no
host file and no network. Two logs are compared by what the threads see when each is replayed. Many
schedules of one set of scripts are explored, by seeds or by lists of delays, and many failures by a
log; and scripts that fail are reduced to what the failure needs.

detio run records a program as it is, and detio rerun runs it again by that log.";

pub(crate) const AFTER_HELP: &str = "Example:
  printf 'open /a rw create\\nwrite 0 x6869\\nlseek 0 0 set\\nread 0 9\\n' > hi.script
  detio plain hi.script

prints
  0 0 open number 0
  0 1 write count 2
  0 2 lseek number 0
  0 3 read data 6869
  end

Exit statuses:
  0  the run came to its end, the logs gave the same, the log was printed, made or upgraded, all are
     scripts, or all explored runs are as expected; or what was asked for was written
  1  a difference, a divergence, the end of a log, or a reply that is not as expected
  2  wrong usage
  3  a bad script, expectation, log or text of a log; or it does not have what is asked for
  4  a file that cannot be read or written, no memory, a full clock, threads that strayed

The commands run scripts, but for run and rerun, which take programs and have statuses of their own.
Each command's --help has its limits, its statuses and an example.";

pub(crate) const CHECK: Texts = Texts {
    about: "Says which lines of scripts are bad, and why, without running them",
    long_about: "Says which lines of scripts are bad, and why, without running them.

The language is that of detio plain, whose --help has it. A line is printed for each bad line, up to
20 of a script: where it is, by the line and the column, each from 1, then what is expected there,
and what stands there. Columns count bytes.
  PATH:LINE:COLUMN: EXPECTED is expected, FOUND stands there
Where the line ends too early, it says so, and the column is the one after the line. A byte that
cannot be seen, such as a tab or a carriage return, has its number. A text of more than 1000 lines is
not looked at further.

Of a script without a bad line there may be warnings, and nothing else is printed:
  PATH:LINE:COLUMN: warning: no line jumps to the label NAME
  PATH:LINE:COLUMN: warning: this line is never reached
  PATH:LINE:COLUMN: warning: CALL refuses this path with ENAME: WHY
  PATH:LINE:COLUMN: warning: descriptor N is named by more than one script: PATH, PATH
A line is reached by the jumps alone, whatever registers hold. A path is refused for its form, whatever
the tree in memory holds: where it is empty, has more than 255 bytes or a slash at its end, or a name
that is . or .., or has more than 14 bytes. Paths of the host are not looked at. Descriptors are those
that calls name by a number: all scripts of a run share one table, so the same number in two scripts
means the same descriptor. That may be what is meant; else the script keeps the number that a call
returned, in r0, and names it by a register.

With --json each of these lines is an object instead, as
  {\"column\":7,\"expected\":\"a path\",\"found\":\"the line ends here\",\"kind\":\"error\",\"line\":2,\"path\":\"a\"}
on one line. Of a warning the kind is warning, and in place of what is expected and found it has a message.
So has an error of a whole script, whose line and column are null.

With --expect, where all are scripts, a line is printed too for the first bad expectation of each, a line
#= that detio plain --expect refuses:
  PATH:LINE:COLUMN: bad expectation: WHAT

Exit statuses:
  0  all are scripts; there may be warnings
  2  wrong usage
  3  a script has a bad line, or too many lines, or with --expect a bad expectation
  4  a script that cannot be read, output that cannot be written, no memory",
    after_help: "Example:
  printf 'open /a create rw\\nread 0\\n' > bad.script
  detio check bad.script

prints, with status 3
  bad.script:1:9: r, w or rw is expected, \"create\" stands there
  bad.script:2:7: a number or a register r0 to r15 is expected, the line ends here",
    usage: None,
};

pub(crate) const PLAIN: Texts = Texts {
    about: "Runs 1 to 16 scripts together and prints their transcripts",
    long_about: "Runs 1 to 16 scripts together and prints their transcripts.

Each script is a thread, from 0 in the order given. All share one table of descriptors and the files,
pipes and pairs of sockets in memory, and the thread whose logical clock is least has the turn; of two
with the same clock, the one that was given first. A line is printed for each reply: thread, number of
the row, with --turns the clock of the turn, call and reply. With --calls the call stands there with what
it was asked, in the order and the words of its line below, and = before the reply:
  0 2 write 0 \"hello\" = count 5
There numbers stand for registers. Bytes are text in double quotes where all are printable ASCII, but none
is \" or \\, and else hexadecimal digits, - for none; a path with such a byte is \\ and its digits. With
--by-turn the rows of all threads are printed in the order of their turns, and not thread by thread:
  1 0 open number 0
  0 0 open number 1
With --lanes they have that order too, and a column for each thread. Each goes with the others.

With --json each line is an object instead: for a call that was answered
  {\"arguments\":{\"count\":1,\"descriptor\":0},\"blocked\":5,\"call\":\"read\",\"clock\":28,\"line\":2,
   \"outcome\":null,\"reply\":{\"data\":\"7a\"},\"row\":0,\"thread\":1}
on one line, where line is that of the script's text, blocked is at how many turns the call was blocked, and
outcome the number of the record that came for it; and a last one, which says how the run ended.

The first fault goes to standard error, on one line.

A script is ASCII text, one of these a line. Lines that are empty or start with # do nothing.

  open PATH r|w|rw [create] [excl] [trunc] [append] [nonblock]
  close NUM
  read NUM NUM                  descriptor and count
  write NUM BYTES               descriptor and what to write
  pread NUM NUM NUM             descriptor, count and position
  pwrite NUM BYTES NUM          descriptor, what to write and position
  lseek NUM NUM set|cur|end     descriptor and offset
  ftruncate NUM NUM             descriptor and length
  fstat NUM                     its reply: kind, length or port, number of names
  dup NUM
  dup_from NUM NUM              descriptor and least number for the new one
  dup2 NUM NUM                  descriptor and number for the new one
  getfl NUM                     its reply: 0 r, 1 w or 2 rw, plus 4 append, 8 nonblock
  setfl NUM [append] [nonblock] sets both flags, each as it is named or not
  link PATH PATH                a file and its new name
  unlink PATH
  rename PATH PATH              a file's name and its new one
  mkdir PATH
  rmdir PATH
  pipe                          its reply: the end to read from and the end to write to
  socketpair                    its reply: both sockets
  shutdown NUM HOW              HOW is read, write or both
  host_open PATH r|w|rw [create] [trunc] [append]
  tcp_listen NUM                port, 0 for any
  tcp_connect NUM               port
  tcp_accept NUM                descriptor of a listener
  work N                        adds 0 to 1000000 to the clock
  set rA NUM                    puts a number in a register
  add rA NUM                    adds to it, modulo 2^64
  setb bA BYTES                 puts bytes in a register
  label NAME                    where jumps lead
  jump NAME
  jzero rA NAME                 jumps if the register is 0
  jfail NAME                    jumps if the last reply is a failure
  end                           ends the thread, as the last line does

NUM is a decimal number of 64 bits, as -1, or a register r0 to r15. BYTES are x and hexadecimal digits,
as x6869, or a register b0 to b3. PATH has no spaces. NAME has 1 to 14 lower-case letters or digits.
Registers start at 0, and b0 to b3 empty. A reply sets r0: the count, the length of the data, the
number, the first number of a pair, the length of a file or the port of a listener by fstat, 0 for
done, or minus the code of the error. The second number of a pair, which pipe and socketpair give, goes
to r1, and so does the number of names of fstat; data go to b0.

A thread also ends once it has executed 10000 lines. Nothing is printed of that, and the status is 0: the
last row of such a thread is not that of its script's last line.

Limits: 16 scripts of 1000 lines; 32 descriptors, 48 objects (files, pipes, pairs and doors), 64
names; 65536 bytes in a file, 4096 in a pipe, 32768 in each direction of a pair; 32767 bytes in a
call, 255 in a path. A write to a pipe of at most 512 bytes is made whole. A longer one moves what
fits, also at later turns, and its count may be less than its bytes.

The last line is end. host_open, the tcp calls and the calls on what they open go outside the run, where
nothing comes from under plain: the run stops once the thread that has the turn is at such a call, and
the last line is
  stop end of log THREAD
Under detio record they get what the host gives, and by its log detio replay runs the scripts again.

A line that begins with #= says what the call above it is to get, in the words of a printed reply. _
is any operand, not before the words is every other reply, and not fail every reply but a failure:
  open /a r
  #= fail ENOENT
  read 0 9
  #= not data -
With --expect the first reply that is not so, of the least thread, has a line after the last one,
with the number of the call's line in its script. The status is then 1 in place of 0:
  expected THREAD LINE WANTED GOT
A line #= that says nothing of the kind, or has no call above, is then a fault before anything runs.
Without --expect it is a comment. So it is with detio record and detio replay.

Threads that contend take turns by their clocks, and a thread that makes one call after another may be served
each time before one of a greater number. work before a call, or in a loop, lets others go first.

A SCRIPT that is - is read from standard input, and so is the log of a command that reads one. Only one
input of a command can be -.

Exit statuses:
  0  all threads came to their end
  1  end of log: a thread is at a call that goes outside; or a reply is not as expected
  2  wrong usage
  3  a bad script or expectation
  4  a script that cannot be read, output that cannot be written, no memory, a full clock",
    after_help: "Example:
  printf 'work 3\\nopen /a rw create\\n' > late.script
  printf 'open /a rw create\\n' > early.script
  detio plain --turns late.script early.script

prints
  0 0 4 open number 1
  1 0 1 open number 0
  end",
    usage: None,
};

pub(crate) const EXPLORE: Texts = Texts {
    about: "Runs scripts with many delays, to find a schedule that breaks them",
    long_about: "Runs scripts with many delays, to find a schedule that breaks them.

detio plain has one order of calls, and a failure that needs another order never shows. Here
(schedule fuzzing) the scripts also run once for each seed, with a line work N before each line of a
call. N is a hash of the seed, the thread and the number of the line, from 0 to --reach. So a seed
gives the same run each time, on every machine. The lines #= of the scripts say what is expected:
detio plain --help.

The first line says how the scripts end as they are, without delays:
  as they are END
END has the words of the last line of detio plain. Runs in which the threads saw the same calls and
replies, but for the numbers of descriptors, and that ended alike are one group. With --raw those
numbers count too. A line follows for each group, in the order of the first seeds; groups in which
the same expectation is not met stand together:
  seed FIRST runs COUNT END same
  seed FIRST runs COUNT END ends otherwise
  seed FIRST runs COUNT END differs THREAD ROW BEFORE -> NOW
same is what was seen without delays, ends otherwise the same with another END. Else the least
thread whose rows differ is given, and its first such row, from 0: its call and reply before and
in the first run of the group, - for no row. Where a reply is not as expected, these lines, and the
first one too, go on with
  expected THREAD LINE WANTED GOT
for the least thread, LINE that of the script that was given. The last line is
  runs COUNT groups COUNT failed COUNT stopped COUNT blocked COUNT
and each run is counted once there, or passed. It failed if a reply was not as expected. Else it is
blocked if at some turn all threads waited for each other in memory, so that only their patience
brought them on: then END goes on with
  blocked for good THREAD LINE,THREAD LINE
for the threads that waited and their lines. It is not counted as blocked where fail EINTR is expected
of one of these calls and came. Else it is stopped if it did not come to its end, so that what is
expected after that was not looked at; the reasons follow that COUNT, each with a count of its own.
The status is 1 where a run failed, or was blocked, unless there is --allow-blocked, or stopped, unless
there is --allow-stops. --failed leaves out the lines of groups that are no reason for that.

A thread ends once it has executed 10000 lines, and with its delays a long loop does so earlier.
Threads that ended so, before their scripts did, are named after END: cut off THREAD,THREAD. With its
delays a script has at most 1000 lines.

Without --log nothing comes from outside, as under detio plain. Where the run without delays goes
there, that is wrong usage. With --log the calls that go outside take the outcomes of that log, in
their order and whatever their clocks, and the patience and the door cost are the log's. A run stops
where a thread asks what the log does not answer.

--delays D runs lists of delays in place of seeds (delay bounding): every list of at most D delays,
1 or 2, each of 1 to --reach units at one line of a call, up to --most. D is 1 where it is not given;
then another option, or --, comes before the scripts. List 0 is empty, then come those of one delay,
by thread, line and units. The lines of groups, and the sums, have
  list FIRST delay THREAD LINE UNITS runs COUNT ..
  runs COUNT groups COUNT failed COUNT stopped COUNT blocked COUNT left out COUNT
with the delays of the first list of the group, and how many lists were not run.

--jobs N makes the runs in N threads. What is printed is the same.

--only CASE runs one seed, or the list with this number. With --write its scripts are written, with
their delays, to new files: their paths are printed, and detio plain, record and replay take them.
With --log too, the log of that run goes to DIR/run.log, and detio replay takes it. detio minimise
reduces them. All files are written or none; with --force they replace those that are there.

Exit statuses:
  0  all runs passed, or the scripts were written
  1  a run failed, stopped, or was blocked for good
  2  wrong usage, scripts that go outside without --log among it
  3  a bad script, expectation or log, or a script that has no room for its delays
  4  a file that cannot be read or written, no memory",
    after_help: "Example: both threads look whether a file is there before they make it.
  printf 'open /a r\\njfail make\\nend\\nlabel make\\n' > a.script
  printf 'open /a w create excl\\n#= not fail\\n' >> a.script
  detio explore --seeds 0..100 a.script a.script

prints
  as they are end
  seed 0 runs 13 end differs 0 0 open fail ENOENT -> open number 1
  seed 1 runs 16 end same
  seed 2 runs 32 end differs 0 1 open number 0 -> open fail EEXIST expected 0 5 not fail fail EEXIST
  seed 4 runs 39 end differs 1 0 open number 1 -> open fail ENOENT expected 1 5 not fail fail EEXIST
  runs 100 groups 4 failed 71 stopped 0 blocked 0
and
  detio explore --only 2 --write race a.script a.script
  detio plain --expect race/0.script race/1.script
shows that run.",
    usage: None,
};

pub(crate) const FAULTS: Texts = Texts {
    about: "Runs scripts by a log with one outcome replaced at a time",
    long_about: "Runs scripts by a log with one outcome replaced at a time, to find a failure that breaks them.

The scripts run as under detio plain, and the calls that go outside take the outcomes of the log, in
their order and whatever their clocks; the patience and the door cost are the log's. They run once
as they are, and once for each call that took a record and each error that it can meet at a host
(fault injection), or each of --errors, in place of the record's outcome. A read or a write meets
other errors at a stream than at a file. Of a call that took several records, since it waited, only
the last is replaced. With --short the reads and writes of the log also bring fewer bytes: none, one,
half, all but one. The lines #= of the scripts say what is expected: detio plain --help.

The outcomes after the replaced one come while they answer what is asked. Where a thread asks what
the log does not answer, --then says what comes: well (what comes of a call that goes well: all bytes
written, nothing more to read, a seek to 0), fail (EIO), 100 times at most, or stop (the run stops
there). The run by the log as it is always stops there.

The first line says how the scripts end by the log as it is:
  as they are END
END has the words of the last line of detio plain. A line follows for each case, by thread, record
and error:
  THREAD NUMBER KIND fail ERROR END same
  THREAD NUMBER KIND short COUNT END differs THREAD ROW BEFORE -> NOW
The ends of these lines are those of detio explore. The last line is
  cases COUNT failed COUNT stopped COUNT blocked COUNT
with the counts of detio explore, and its status: a case that stopped was not looked at to its end, and
is a fault unless there is --allow-stops; one in which calls are blocked for good is, unless there is
--allow-blocked. --failed leaves out the lines of cases that are no fault.

--jobs N makes the runs in N threads. What is printed is the same.

--only THREAD NUMBER ERROR, or a count in place of ERROR, is one case. The log of its run is written
to the new file --out, whose path is printed, and detio replay takes it; with --force it replaces a
file that is there. A count is that of a read or a write which brought more. --then applies here too.
Where that run stops, the log has no end, and its replay stops with end of log.

Exit statuses:
  0  all cases passed, or the log was written
  1  a case failed, stopped, or was blocked for good
  2  wrong usage
  3  a bad script, expectation or log, or a log that has no such record,
     or one that cannot be replaced so
  4  a file that cannot be read or written, no memory",
    after_help: "Example: a short read is not made up for
  printf hi > in.txt
  printf 'host_open in.txt r\\njfail end\\nread 0 9\\njfail end\\n' > copy.script
  printf 'open /copy w create\\nwrite 1 b0\\n#= count 2\\nlabel end\\n' >> copy.script
  detio record --log copy.log copy.script
  detio faults --log copy.log --errors EIO --short copy.script

prints at last
  as they are end
  0 0 open fail EIO end differs 0 0 host_open number 0 -> host_open fail EIO
  0 1 read fail EIO end differs 0 1 read data 6869 -> read fail EIO
  0 1 read short 0 end differs 0 1 read data 6869 -> read data - expected 0 6 count 2 count 0
  0 1 read short 1 end differs 0 1 read data 6869 -> read data 68 expected 0 6 count 2 count 1
  cases 4 failed 2 stopped 0 blocked 0",
    usage: None,
};

pub(crate) const MINIMISE: Texts = Texts {
    about: "Reduces failing scripts to what the failure needs",
    long_about: "Reduces failing scripts to what the failure needs.

The scripts run as under detio plain, and some reply must not be as a line #= below its call expects
(detio plain --help). The first such reply of the least thread is the failure. Threads and lines are
taken away (delta debugging), always in the same order: threads, then the lines of work, then all lines,
half of them together, then quarters, and so on; what is left of the lines of work is made shorter; and
one at a time the lines of each thread, from the last to the first, the threads and half of each line of
work, again and again until nothing more goes. What is taken away stays away if the run still fails so:
the first reply that is not as expected is that of the same call, held to the same line #=, and if it
was an error it is the same error. With --same it is the same reply. In the end each line and each
thread that is left is needed: without any one of them the run does not fail so, nor with half of a
line of work.

With --schedule the lines of work alone are taken away and made shorter: all else stands. A race that
gives a wrong number, as a lost update does, needs --schedule or --same: else one thread may be left,
which gets another wrong number.

What is left is written to new files, one for each thread that is left: their paths are printed, and
detio plain, record and replay take them. All are written or none; with --force they replace those that
are there, but none of the scripts. The last line says how much was taken away, and of how much: threads,
lines, the lines of work among these, and the units of work:
  taken away threads N of N lines N of N delays N of N units N of N

Without --log nothing comes from outside, as under detio plain. With --log the calls that go outside
take the outcomes of that log, in their order and whatever their clocks, and the patience and the
door cost are the log's. The log of the run of what is left goes to DIR/run.log then, and detio
replay takes it.

Exit statuses:
  0  what is left was written
  2  wrong usage
  3  a bad script, expectation or log, or no reply that is not as expected
  4  a file that cannot be read or written, no memory",
    after_help: "Example: the second thread is late to make a file, and what else both do does not matter.
  printf 'open /a w create excl\\nwrite 0 x6869\\n' > first.script
  printf 'mkdir /b\\nwork 9\\nopen /a w create excl\\n#= not fail\\n' > late.script
  detio minimise --write less first.script late.script

prints
  less/0.script
  less/1.script
  taken away threads 0 of 2 lines 3 of 6 delays 1 of 1 units 9 of 9
and
  cat less/1.script
prints
  open /a w create excl
  #= not fail",
    usage: None,
};

pub(crate) const RECORD: Texts = Texts {
    about: "Runs 1 to 16 scripts as threads, with host files and loopback TCP, and records what comes from them",
    long_about: "Runs 1 to 16 scripts as threads, with host files and loopback TCP, and records what comes from them.

Each script is a thread of its own, from 0 in the order given. They share one table of descriptors, and take
turns by their logical clocks, as under plain: so whatever the machine does, each turn comes at the same
clock. host_open opens a file of the host by its path. tcp_listen, tcp_connect and tcp_accept work on
127.0.0.1. Calls to the outside are made while other threads go on. What came of each of them, bytes and
failures too, goes into the log before the thread hears its reply.

detio replay runs the scripts by that log and prints the same lines, with no host file and no network. A log
of a run that was cut off is good up to its last whole record.

A read or a write of a stream and an accept wait at the host for a peer, at most as long as --wait says. Then
EAGAIN goes into the log, and the call is made again at a later turn of its thread, so its peer gets the turn;
after as many turns as --patience says it fails with EINTR. With the defaults that takes 10 to 18 seconds, since
a wait of 10 milliseconds takes up to 18. With nonblock on the descriptor nothing waits, and EAGAIN is the
reply. A thread that accepts again and again takes the table before threads of greater numbers: give a server's
script last.

Replies and turns are the same in each run in which the outcomes are. When a call reaches the host is not: without
--in-turn calls of several threads reach it in any order. With it each waits until those granted before it
have their records.

Where no thread has come to a new step for two seconds, standard error says which threads are outside, in which
call and line, and who waits for whom. It is said once, until a thread goes on.

The log is a new file, which is made once all scripts have been read. A file there that is not empty stays, a log or
not, unless --force is given, and a log that is one of the scripts is wrong usage. A host_open of the log fails with
EBUSY, by whatever name. Two recorders must not share a log. It has room for 16777216 bytes; a script has 1000 lines,
of which a thread executes 10000.

A log of version 2, the default, also has in each record the clock of the turn that its outcome belongs to. So a
replay notices a changed script earlier, and also where its calls only come at other turns. Version 1 has no clocks,
and is for tools that read that version alone. detio upgrade makes a log of version 2 of one of version 1.

The last line is end where all threads came to their end, or one of
  stop memory
  stop sink                     the log could not be written: no room, or the device is full
  stop clock full
  stop strayed                  what the threads noted is not what the history says: a fault of this program
after which the lines before are what each thread saw until then.

With --expect replies are held to the lines #= of the scripts, and --turns, --calls, --by-turn, --lanes and
--json say what is printed of the rows, as detio plain --help says:
  0 1 write 0 \"hi\" = count 2
The log is the same. With --follow each row is printed on standard error too, with its clock and what was
asked, once its call has a reply.

Exit statuses:
  0  all threads came to their end
  1  a reply is not as expected
  2  wrong usage
  3  a bad script or expectation
  4  a file that cannot be read or written, no memory, a full clock, threads that strayed",
    after_help: "Example:
  printf 'host_open out.txt w create\\nwrite 0 x6869\\nclose 0\\n' > hi.script
  detio record --log hi.log hi.script

prints
  0 0 host_open number 0
  0 1 write count 2
  0 2 close done
  end

and then
  rm out.txt
  detio replay --log hi.log hi.script
prints the same, and makes no file.",
    usage: None,
};

pub(crate) const REPLAY: Texts = Texts {
    about: "Runs scripts by the log of what came from outside and prints their transcripts",
    long_about: "Runs scripts by the log of what came from outside and prints their transcripts.

The scripts run as under plain, with the patience and the door cost of the log's header. No host file is
opened and nothing is sent: each call that goes outside takes the next record of its thread from the log.
There is one script for each thread of the log, in the same order. Of a log that is torn after its header
the records before the tear count, as detio show prints them. A log has at most 16777216 bytes.

The last line is end where all threads came to their end and every record was used, or one of
  stop end of log THREAD
  stop diverged THREAD NUMBER
  stop clock full

At the end of the log, the thread that has the turn needs a record that is not there; all others went on
as far as they could. The replay diverged where the record of this thread and number is of another kind
than the call asks, or does not fit what it asks, or has a clock that is not that of the call's turn, or
where no call asked for it. Then a script is not the one that was run, or the log is not of that run. The
lines before are what each thread saw until then.

With --threads each script runs in a thread of its own, as under detio record. A replay that comes to its
end prints the same lines. One that stops does so at once, wherever the other threads are: so how much each
saw, and which stop is printed where there are several, can change from run to run. The last line may then also
be stop memory or stop strayed, as under detio record.

What is not a log, and a log of another number of threads, has one line on standard error:
  log: bad magic
  log: bad version
  log: bad record at PLACE
  log: torn at 0 after 0 records
  log has COUNT threads, COUNT scripts given

With --expect replies are held to the lines #= of the scripts, and --turns, --calls, --by-turn, --lanes and
--json say what is printed of the rows, as detio plain --help says. With --turns and --calls a row is
  0 1 105 open /b rw create = number 0
With --why two lines follow on standard error where a replay stops: what was asked, and what the log has:
  line 2 of script 0 asked at 105: lseek 0 0 set
  the log has: 0 1 write ok 3 -

Exit statuses:
  0  all threads came to their end, and every record was used
  1  the end of the log, a divergence, or a reply that is not as expected
  2  wrong usage
  3  a bad script, expectation or log
  4  a file that cannot be read, output that cannot be written, no memory, a full clock, threads that strayed",
    after_help: "Example:
  printf 'host_open nofile r\\nopen /b rw create\\n' > missing.script
  printf 'DIOL\\0\\1\\0\\1\\0\\0\\3\\350\\0\\0\\0\\144' > missing.log
  printf 'R\\0\\0\\0\\0\\0\\0\\1\\12\\0\\0\\0\\0\\0\\0\\0\\0\\0\\0' >> missing.log
  detio replay --log missing.log --turns missing.script

prints
  0 0 1 host_open fail ENOENT
  0 1 105 open number 0
  end",
    usage: None,
};

pub(crate) const RUN: Texts = Texts {
    about: "Runs a program as it is, and records what comes to it from outside",
    long_about: "Runs a program as it is, and records what comes to it from outside.

PROGRAM is any program that is linked dynamically, with its threads by pthreads. It gets ARGS, and runs
as it would without detio, but that its threads make their calls in the order of turns. What comes from
outside goes into the log: files of the host, TCP on 127.0.0.1, the time, chance, and names. detio rerun
runs the program again by that log.

The log is the file of --log, or NAME.detio-log in the working directory, where NAME is the last part of
PROGRAM. A file at its path is never written over, unless --force is given.

At most as many threads live at once as --threads says. Paths below that of --mem live in the run, in
memory; without --mem there are none. Paths below one of --pass go to the host and are not recorded, and
one line on standard error says so. --pass and --env may be given again and again. With --env the program
has the environment variables of these names alone, and the log keeps no others.

--seed S works before calls and locks, for times that the seed says. So another seed gives another order
of turns, and the same seed the same. With --fault K the K-th outcome from outside that can fail is EIO.

With --overlap calls outside overlap: their effects on the host may come in another order than the turns.
With --parallel threads compute at the same time: races on memory without calls are not repeated.

What is refused, or goes past the run, is said in one line for each kind, with the place that called it. With
--strict the run ends there. With --wait-forever a deadlock is said, and the run stays as it is.

The status is that of the program, or one of these.

Exit statuses:
  121  deadlock: each thread waits for another
  122  with --strict, something is refused or not recorded
  125  wrong usage, or a file of detio's own that cannot be read or written
  126  the program cannot be run
  127  the program is not found",
    after_help: "Example: the second line comes from the log
  detio run --log now.log -- date
  detio rerun --log now.log

prints the same time twice.",
    usage: Some("detio run [OPTIONS] -- <PROGRAM> [ARGS]..."),
};

pub(crate) const RERUN: Texts = Texts {
    about: "Runs a program again by its log",
    long_about: "Runs a program again by its log.

The program runs as under detio run, in the same order of turns, and reaches nothing outside: what came
from there comes from the log. Without PROGRAM the log says which program it is, and with which words.

Where the program, its libraries or its words are not those of the log, nothing runs, and one line on
standard error says what differs. With --force the rerun goes on, and may diverge: then a thread asks for
something else than the log has there.

With --stop-at the process stops, by SIGSTOP, before a thread makes this call of its own, each from 0 as
lines say them. A debugger that is attached then finds it there; SIGCONT has it go on.

The status is that of the program, or one of these.

Exit statuses:
  120  the rerun diverges
  121  deadlock: each thread waits for another
  122  what was recorded with --strict ended so
  123  the log ends before the program does
  124  what is not a log, or a program that is not that of the log
  125  wrong usage, or a file of detio's own that cannot be read or written
  126  the program cannot be run
  127  the program is not found",
    after_help: "Example: the input is not needed any more
  printf 'b\\na\\n' > in.txt
  detio run --log sort.log -- sort in.txt
  rm in.txt
  detio rerun --log sort.log

prints twice
  a
  b",
    usage: Some("detio rerun [OPTIONS] --log <FILE> [-- <PROGRAM> [ARGS]...]"),
};

pub(crate) const COMPARE: Texts = Texts {
    about: "Says whether two logs give the threads of the same scripts the same replies",
    long_about: "Says whether two logs give the threads of the same scripts the same replies.

The scripts are replayed by each of the two logs, as detio replay does, and what each thread saw is compared row
by row: the call, the turn with its clock, and the reply. One line is printed:
  same                  each thread saw the same
  differs THREAD ROW    the first thread that differs, and the first of its rows that does

Both are counted from 0. Where one log gave a thread fewer rows, it is the row after the last of these. A
replay that stops, at the end of its log or where it diverges, is compared as far as it came, and why it
stopped is not: --rows says that. So a log that was cut off is compared with the whole one. A log has at
most 16777216 bytes.

With --rows more lines follow. After differs come up to three rows of the thread before the one that
differs, which are the same by both logs; then that row by the log of --log, after <, and by that of
--with, after >. A row has its clock and what its call was asked, as by detio replay --turns --calls. Where
a log gave none, - stands after the number of the row. The last two lines, after < and >, are the last lines
of the two replays: end, or stop and why.

With --no-turns the call and the reply are compared alone, and --rows prints no clocks. So runs in which
clocks alone moved are the same, as those recorded with another --door-cost. Where one thread had another
reply and so kept others waiting, it finds that reply, and not the first turn that came later.

With --json each line is an object instead. The first has the verdict:
  {\"row\":2,\"status\":1,\"thread\":0,\"verdict\":\"differs\"}
With --rows an object follows for each row, and for how each replay ended. In these by is log, with or both:
the log that gave it. Of a row that is not there the call is null.

What cannot be replayed has one line on standard error, as by detio replay: first for the log of --log, then
for that of --with.

Exit statuses:
  0  same
  1  differs
  2  wrong usage
  3  a bad script or log
  4  a file that cannot be read, output that cannot be written, no memory",
    after_help: "Example:
  printf 'host_open notes r\\nopen /b rw create\\n' > open.script
  printf 'DIOL\\0\\1\\0\\1\\0\\0\\3\\350\\0\\0\\0\\144R\\0\\0\\0\\0\\0\\0\\1' > there.log
  cp there.log missing.log
  printf '\\0\\0\\0\\0\\0\\0\\0\\0\\0\\0\\0' >> there.log
  printf '\\12\\0\\0\\0\\0\\0\\0\\0\\0\\0\\0' >> missing.log
  detio compare --log there.log --with missing.log --rows open.script

prints
  differs 0 0
  < 0 0 1 host_open notes r = number 0
  > 0 0 1 host_open notes r = fail ENOENT
  < end
  > end
since the file was there in one run, and not in the other.",
    usage: None,
};

pub(crate) const DRAW: Texts = Texts {
    about: "Draws a run, or two under each other, as a page for a browser",
    long_about: "Draws a run, or two under each other, as a page for a browser.

The scripts are run as by detio plain or, with --log, as by detio replay. With --with they are replayed by a
second log too, and the second run is drawn under the first. How a run came to its end changes no status: a
replay that stopped is drawn as far as it came.

With --out the page is written to a new file. It is whole in itself: a browser opens it from the disk, in light
and dark, and nothing is loaded from elsewhere. Each thread is a lane, and the logical clock goes from left to
right, at the same place in both runs. It is cut where nothing begins or ends for more than 8 clocks. Each call
that was answered is a box:
  where it begins   the first turn that the call was granted
  where it ends     the clock at which it was answered
  its colour        blue in memory, green with an outcome from outside, red where it failed
  hatched           the time for which it waited: it was blocked, or attempts at its object's lock failed
  hatched before    the time since its thread asked for it, in which attempts at the table's lock failed
  a triangle        the last outcome of the call from outside came: the number of its record in its thread
  a thick edge      the first row that differs, of two runs: the same one as by detio compare
  a line            work of the thread between two calls
The pointer on a box shows its call, its reply, its row, its line and its clocks. Below are the same rows as
tables.

With --trace a trace of the first run is written to a new file, in the trace event format, which is JSON.
Perfetto and other viewers of traces read it. A clock counts as a microsecond.

One of --out and --trace is to be given, or both. Both are written or none; with --force they replace files that
are there. The path of each file that was written is printed.

Exit statuses:
  0  the files were written
  2  wrong usage
  3  a bad script or log
  4  a file that cannot be read or written, no memory",
    after_help: "Example: a read of a pipe that waits for another thread to write
  printf 'pipe\\nwork 20\\nwrite 1 x7a\\n' > writer.script
  printf 'work 2\\nread 0 1\\n' > reader.script
  detio draw --out run.html --trace run.json writer.script reader.script

prints
  run.html
  run.json",
    usage: None,
};

pub(crate) const SHOW: Texts = Texts {
    about: "Prints a log",
    long_about: "Prints a log.

The first line says which version the log has, and what it was written under. A line for each record
follows, in order: thread, number among the records of that thread, in a log of version 2 the clock of the
turn that it belongs to, kind of the request and outcome. The outcome is ok, a value and the bytes that
were read in hexadecimal, - for none, or fail and the name of the error. The last line is end and the
number of records, or open and that number where the log is not closed.

What is not a log has one line on standard error, for its first fault:
  log: bad magic
  log: bad version
  log: bad record at PLACE
  log: torn at PLACE after COUNT records

With --json each line is an object instead: the header, one for each record, and one that says how the log
ends.

A place is counted in bytes from 0. Where a log is torn after its header, the first line and the lines of
the records before the tear are printed on standard output. A file of more than 16777216 bytes cannot be
read.

Exit statuses:
  0  the log was printed
  2  wrong usage
  3  a bad log
  4  a file that cannot be read, output that cannot be written, no memory",
    after_help: "Example:
  printf 'DIOL\\0\\1\\0\\1\\0\\0\\3\\350\\0\\0\\0\\144E\\0\\0\\0\\0' > empty.log
  detio show --log empty.log

prints
  version 1 threads 1 patience 1000 door cost 100
  end 0",
    usage: None,
};

pub(crate) const MAKE: Texts = Texts {
    about: "Makes a log of the text that detio show prints of it",
    long_about: "Makes a log of the text that detio show prints of it.

The text is what detio show prints, which detio show --help describes. So any log can be printed,
changed in an editor, and made again: another outcome, a failure in place of a success, a record
more or less. Of what detio show printed of a log, and nothing changed, exactly the bytes of that
log are made. Nothing is printed where the log was made.

Each line is to be just as detio show prints it: one space between words, no leading zeros,
hexadecimal digits in lower case. The line feed at the end may be left out. The log is to be a good
one: the numbers of a thread's records count from 0, each record of a log of version 2 has a clock,
and those of a thread rise, and an outcome is one that its kind can have. The last line has the
number of the records, after end where the log is closed, or after open where it is not. The first
line that no log has there has one line on standard error; where the text ends too early it is the
line after the last:
  log text: bad line LINE

The log is a new file. It is made only once all of it is known, so a bad text changes no file. A file
there that is not empty stays, a log or not, unless --force is given. The text has at most 16777216
bytes.

Exit statuses:
  0  the log was written
  2  wrong usage
  3  a text that is not that of a log
  4  a file that cannot be read or written, no memory",
    after_help: "Example: a read that fails in place of one that brings two bytes
  printf hi > in.txt
  printf 'host_open in.txt r\\nread 0 9\\n' > look.script
  detio record --log look.log look.script
  detio show --log look.log | sed 's/read ok 2 6869/read fail EIO/' | detio make --out fails.log
  detio replay --log fails.log look.script

prints at last
  0 0 host_open number 0
  0 1 read fail EIO
  end",
    usage: None,
};

pub(crate) const UPGRADE: Texts = Texts {
    about: "Writes a log of version 1 in version 2, with the clocks that its scripts give it",
    long_about: "Writes a log of version 1 in version 2, with the clocks that its scripts give it.

A record of version 1 does not say at which turn its outcome came. The scripts that were recorded tell it: they are
replayed by the log, as detio replay does, and each record gets the clock of the turn that took it. The new log has
the same header, but for its version, and the same records in the same order; and its end, where the old one has it. A
replay by it prints the same, and notices more changes of a script. Nothing is printed where the log was made.

There is one script for each thread of the log, in the same order. Of a log that is torn after its header the
records before the tear are upgraded, and the torn part is left out. A log that ends before its scripts do is upgraded
too. But each record must be used: where a thread waits for a record that is not there while another thread has some
left, or where the replay diverges, there is no new log, and the last line of that replay is printed alone:
  stop end of log THREAD
  stop diverged THREAD NUMBER
  stop clock full

The new log is a new file, or takes the place of the log of --log, which was read before. It is made only once all of
it is known, so no fault of the log or of a script changes a file. Any other file there that is not empty stays, a log
or not, unless --force is given, and one that is one of the scripts is wrong usage. The old log has at most 16777216
bytes; a new one of more cannot be read.

What is not a log of version 1, and a log of another number of threads, has one line on standard error:
  log: bad magic
  log: bad version
  log: bad record at PLACE
  log: torn at 0 after 0 records
  log has COUNT threads, COUNT scripts given

Exit statuses:
  0  the new log was written
  1  records were left at the end of the log, or the replay diverged
  2  wrong usage
  3  a bad script or log
  4  a file that cannot be read or written, no memory, a full clock",
    after_help: "Example:
  printf 'host_open nofile r\\nhost_open nofile r\\n' > missing.script
  detio record --log old.log --log-version 1 missing.script
  detio upgrade --log old.log --out new.log missing.script
  detio show --log new.log

prints at last
  version 2 threads 1 patience 1000 door cost 100
  0 0 1 open fail ENOENT
  0 1 105 open fail ENOENT
  end 2",
    usage: None,
};
