ghost use Rattle.sequential_object.specs.DoorExamples.{TurnsAnswer, Visits, appended_host_file};
ghost use Rattle.sequential_object.specs.DoorExamples.{impatient_door, missing_host_file};
ghost use Rattle.sequential_object.specs.DoorExamples.{no_bytes_of_a_door, over_loopback};
ghost use Rattle.sequential_object.specs.DoorExamples.{patient_door, shared_door, short_host_write};
ghost use Rattle.sequential_object.specs.DoorExamples.{would_block};
ghost use Rattle.sequential_object.specs.Examples.{Leaves, Replies, appended_at_the_end};
ghost use Rattle.sequential_object.specs.Examples.{gap_reads_zero, dup2_from_nothing};
ghost use Rattle.sequential_object.specs.Examples.{shared_offset, unlinked_but_open};
ghost use Rattle.sequential_object.specs.Examples.{directory_refusals, renamed_files};
ghost use Rattle.sequential_object.specs.Examples.{positioned_write_and_truncate, shared_flags};
ghost use Rattle.sequential_object.specs.Examples.{pipe_and_its_ends, half_closed_pair};
ghost use Rattle.sequential_object.specs.Examples.{AnswersAfter, closed_last, unlinked_last};
ghost use Rattle.sequential_object.specs.Examples.{replaced_last, renamed_last, linked_still};
ghost use Rattle.sequential_object.specs.Examples.{shared_still, closed_pipe, half_closed_pipe};
ghost use Rattle.posix_terms.specs.declared.errno.Errno.TheVariants.{EINTR};
ghost use Rattle.posix_terms.specs.declared.reply.Answer.TheVariants.{Again, Reply};
ghost use Rattle.posix_terms.specs.declared.reply.Reply.TheVariants.{Fail};

/// Examples worked out by hand from the rules: the sequential object answers these calls by these
/// replies. A file ends where it has neither a name nor a description, and not before, and
/// a pipe with its last description; a read of a pipe with nothing in it is blocked until its patience is at its end.
pub fn worked_examples()
    ensures gap { Replies gap_reads_zero }
    ensures dup2 { Replies dup2_from_nothing }
    ensures shared { Replies shared_offset }
    ensures unlinked { Replies unlinked_but_open }
    ensures directories { Replies directory_refusals }
    ensures renamed { Replies renamed_files }
    ensures appended { Replies appended_at_the_end }
    ensures positioned { Replies positioned_write_and_truncate }
    ensures flags { Replies shared_flags }
    ensures pipe { Replies pipe_and_its_ends }
    ensures pair { Replies half_closed_pair }
    ensures patient { AnswersAfter 3 0 Again × AnswersAfter 3 1 Again
        × AnswersAfter 3 2 (Reply (Fail EINTR)) }
    ensures closing { Leaves 0 closed_last }
    ensures unlinking { Leaves 0 unlinked_last }
    ensures replacing { Leaves 1 replaced_last }
    ensures renaming { Leaves 1 renamed_last }
    ensures linking { Leaves 1 linked_still }
    ensures sharing { Leaves 1 shared_still }
    ensures pipe_ends { Leaves 0 closed_pipe }
    ensures pipe_stays { Leaves 1 half_closed_pipe }
{}

/// Examples of calls that go outside, each with its outcome. A success of an opening gives the lowest number, and a
/// failure leaves it free; a write is answered with the count that the host took; a door's last descriptor is closed
/// by `close` alone, and is free then whatever the outcome is. A transfer of no bytes asks for nothing; a transfer
/// that would block fails with `EAGAIN` where it may not wait, and else when its patience is at its end.
pub fn worked_door_examples()
    ensures short { Visits short_host_write }
    ensures missing { Visits missing_host_file }
    ensures loopback { Visits over_loopback }
    ensures sharing { Visits shared_door }
    ensures no_bytes { Visits no_bytes_of_a_door }
    ensures appending { Visits appended_host_file }
    ensures nonblocking { Visits would_block }
    ensures patient { TurnsAnswer 2 patient_door }
    ensures impatient { TurnsAnswer 1 impatient_door }
{}
