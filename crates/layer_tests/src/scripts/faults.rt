use std::alloc::{AllocError, Global};
use std::process::Abort;
use std::test::Fail;
use thread_scripts::{Memory, ScriptFault, parse};

/// Texts with the number of their first bad line.
const BAD_TEXTS: &[(&[u8], usize)] = &[
    (b"close 0\n# x\n\nclose\nopen", 4),
    (b"close 0\nclose \xc8\nclose 0\n", 2),
    (b"label a b\njump a", 1),
    (b"jump a b\nlabel a", 1),
    (b"label a\n# label a\nlabel a", 3),
    (b"label b\nlabel a\njump b\nlabel a\njump c", 4),
    (b"jump a\nfly\nlabel a", 2),
    (b"jump a\nlabel a x", 1),
    (b"jump a\nlabel A", 1),
    (b"jzero r0 b\nlabel a", 1),
    (b"jzero r16 a\nlabel a", 1),
    (b"label a\njzero a", 2),
    (b"label a\njfail a a", 2),
];

/// Lines that are bad: of no script, or that misuse registers, jumps and labels.
const BAD_LINES: &[u8] = b"fly 1\n\
    Close 1\n\
    close\n\
    close 1 2\n\
    close +1\n\
    close -\n\
    close --1\n\
    close 1-\n\
    close 1_000\n\
    close 0x1\n\
    close 9223372036854775808\n\
    close -9223372036854775809\n\
    close 340282366920938463463374607431768211456\n\
    close\t1\n\
    close 1\r\n\
    \x20# x\n\
    close 1 # x\n\
    # \x80\n\
    read 0\n\
    read 0 1 2\n\
    write 0\n\
    write 0 61\n\
    write 0 X61\n\
    write 0 x6\n\
    write 0 x6g\n\
    write 0 r0\n\
    lseek 0 0\n\
    lseek 0 0 SET\n\
    open /a\n\
    open /a wr\n\
    open /a rw create create\n\
    open /a rw creat\n\
    open /\x01 rw\n\
    open /\x7f rw\n\
    write 0 x0\n\
    read 0 99999999999999999999\n\
    read 0 1 1\n\
    close r16\n\
    close r01\n\
    close R\x31\n\
    close r\n\
    close b0\n\
    write 0 b4\n\
    write 0 b00\n\
    work\n\
    work -0\n\
    work +1\n\
    work r0\n\
    work 1000001\n\
    work 1 1\n\
    end 0\n\
    set r16 0\n\
    set b0 0\n\
    set r0\n\
    set r0 x61\n\
    set r0 b0\n\
    set 0 0\n\
    add r0\n\
    add r0 9223372036854775808\n\
    setb b4 x\n\
    setb r0 x\n\
    setb b0 r0\n\
    setb b0\n\
    label\n\
    label A\n\
    label a-b\n\
    label abcdefghijklmno\n\
    jump\n\
    jump a";

/// Lines with an operand too few, too many or of another form.
const BAD_CALLS: &[u8] = b"pread 0 1\n\
    pread 0 1 2 3\n\
    pread 0 x 2\n\
    pwrite 0 x61\n\
    pwrite 0 1 x61\n\
    pwrite 0 x61 0 0\n\
    pwrite 0 r0 0\n\
    ftruncate 0\n\
    ftruncate 0 1 2\n\
    ftruncate 0 x\n\
    fstat\n\
    fstat 0 1\n\
    fstat /a\n\
    dup\n\
    dup 0 1\n\
    dup x\n\
    dup_from 0\n\
    dup_from 0 1 2\n\
    dup_from 0 x\n\
    dupfrom 0 1\n\
    dup2 0\n\
    dup2 0 1 2\n\
    dup2 x 1\n\
    getfl\n\
    getfl 0 append\n\
    getfl x\n\
    setfl\n\
    setfl append\n\
    setfl 0 append append\n\
    setfl 0 nonblock append nonblock\n\
    setfl 0 create\n\
    setfl 0 append excl\n\
    setfl 0 trunc nonblock\n\
    setfl 0 APPEND\n\
    link /a\n\
    link /a /b /c\n\
    link /a /\x7f\n\
    unlink\n\
    unlink /a /b\n\
    unlink /\x01\n\
    rename /a\n\
    rename /a /b /c\n\
    rename /a /\x7f\n\
    mkdir\n\
    mkdir /a /b\n\
    Mkdir /a\n\
    rmdir\n\
    rmdir /a /b\n\
    rmdir\t/a\n\
    pipe 1\n\
    pipe r0\n\
    pipe nonblock\n\
    Pipe\n\
    pipes\n\
    socketpair 0\n\
    socketpair 0 1\n\
    socket\n\
    shutdown\n\
    shutdown 0\n\
    shutdown both\n\
    shutdown 0 all\n\
    shutdown 0 Both\n\
    shutdown 0 read write\n\
    shutdown x both\n\
    shutdown 0 1\n\
    host_open\n\
    host_open x\n\
    host_open x r excl\n\
    host_open x r nonblock\n\
    host_open x rw append append\n\
    host_open x create\n\
    tcp_listen\n\
    tcp_listen 0 1\n\
    tcp_listen x\n\
    tcp_connect\n\
    tcp_connect 1 2\n\
    tcp_accept\n\
    tcp_accept 0 0\n\
    tcp_shutdown 0";

/// Asserts that the first bad line of a text is this one.
fn assert_fault(rt: &impl Abort, alloc: Global, text: &[u8], line: usize) {
    assert_eq!(rt;
        parse(alloc, text).err(),
        Some(ScriptFault::BadLine(line)),
        "in {}",
        text.escape_ascii()
    );
}

#[test]
fn tells_the_first_bad_line(rt: HostRuntime) {
    for (text, line) in BAD_TEXTS {
        assert_fault(&rt, rt.alloc(), text, *line);
    }
}

#[test]
fn tells_each_bad_line(rt: HostRuntime) {
    for line in BAD_LINES.split(|byte| *byte == b'\n') {
        assert_fault(&rt, rt.alloc(), line, 1);
    }
}

#[test]
fn tells_each_bad_call(rt: HostRuntime) {
    for line in BAD_CALLS.split(|byte| *byte == b'\n') {
        assert_fault(&rt, rt.alloc(), line, 1);
    }
}

/// Faults, and the texts that they are printed as.
const PRINTED: &[(ScriptFault, &str)] = &[
    (ScriptFault::BadLine(7), "bad line 7"),
    (ScriptFault::TooLong, "too long"),
    (ScriptFault::Memory, "no memory"),
];

fn is_printed(alloc: Global, fault: ScriptFault, wanted: &str) -> Result<bool, AllocError> {
    Ok(format!(in alloc; "{fault}")?.as_str() == wanted)
}

#[test]
fn prints_faults(rt: HostRuntime) -> Result<(), Fail> {
    for (fault, wanted) in PRINTED {
        assert!(rt; is_printed(rt.alloc(), *fault, wanted)?, "{wanted}");
    }
    Ok(())
}

#[test]
fn prints_the_want_of_memory(rt: HostRuntime) -> Result<(), Fail> {
    assert!(rt; format!(in rt.alloc(); "{Memory}")?.as_str() == "no memory");
    Ok(())
}
