//! Raw logs up to the texts that are written, by the public call: a shell that starts a program in its place, its
//! child, results of clone(2) in each form, and the first thread of a log that was written without `-o`.
use raw_logs::{LogFault, read_log};
use std::test::Fail;

/// A shell with a child, which then starts another program in its own place.
const SHELL: &[u8] = b"7 execve(\"/bin/sh\", ..) = 0\n\
    7 brk(NULL) = 0x1000\n\
    7 fork() = 8\n\
    8 munmap(0x3000, 4096) = 0\n\
    7 execve(\"/bin/ls\", ..) = 0\n\
    7 brk(NULL) = 0x2000\n";

#[test]
fn a_program_in_a_shells_place_has_its_own_space(rt: HostRuntime) -> Result<(), Fail> {
    let found = read_log(rt.alloc(), SHELL, None).expect(&rt, "texts");
    assert_eq!(rt; found.lines.len(), 2);
    assert_eq!(rt; found.counts.earlier, 3);
    assert_eq!(rt; found.counts.elsewhere, 1);
    Ok(())
}

#[test]
fn a_child_begins_with_its_makers_lines(rt: HostRuntime) -> Result<(), Fail> {
    let found = read_log(rt.alloc(), SHELL, Some(8)).expect(&rt, "texts");
    assert_eq!(rt; found.lines.len(), 3);
    let mut room = Vec::new(rt.alloc());
    let (_, text) = found.lines.at(2, &mut room).expect(&rt, "text");
    assert_eq!(rt; text, b"8 munmap(0x3000, 4096) = 0".as_slice());
    assert_eq!(rt; found.counts.elsewhere, 3);
    Ok(())
}

#[test]
fn a_process_without_lines_is_refused(rt: HostRuntime) -> Result<(), Fail> {
    assert_eq!(rt;
        read_log(rt.alloc(), SHELL, Some(9)).err(),
        Some(LogFault::NoProcess)
    );
    Ok(())
}

/// A process that makes children, the result in another form each time, and a thread; each has a line.
const MADE: &[u8] = b"7 clone(flags=SIGCHLD) = 8 (DELAYED)\n\
    7 clone(flags=SIGCHLD) = 9 (INJECTED)\n\
    7 clone(0x1200011, 0, 0, 0x7f0, 0 <unfinished ...>\n\
    7 <... clone resumed>) = 0xa\n\
    7 clone(flags=SIGCHLD) = 2 /* 11 in strace's PID NS */\n\
    7 clone(0x3d0f00, 0, 0, 0x7f0, 0) = 0xc\n\
    7 clone3(0x7ffdef43add0, 0x58) = 13\n\
    8 munmap(0x1000, 4096) = 0\n\
    9 munmap(0x2000, 4096) = 0\n\
    10 munmap(0x3000, 4096) = 0\n\
    11 munmap(0x4000, 4096) = 0\n\
    12 munmap(0x5000, 4096) = 0\n\
    13 munmap(0x6000, 4096) = 0\n";

#[test]
fn results_of_clone_are_read_in_each_form(rt: HostRuntime) -> Result<(), Fail> {
    let found = read_log(rt.alloc(), MADE, None).expect(&rt, "texts");
    assert_eq!(rt; found.counts.elsewhere, 4);
    assert_eq!(rt; found.counts.untold, 1);
    assert_eq!(rt; found.lines.len(), 9);
    Ok(())
}

/// A log without `-o` and with `-q`: the child's number is in brackets, the program's lines have none.
const QUIET: &[u8] = b"brk(NULL) = 0x1000\n\
    clone(flags=SIGCHLD) = 8\n\
    [pid 8] munmap(0x1000, 4096) = 0\n\
    [pid 7] brk(NULL) = 0x1000\n\
    munmap(0x2000, 4096) = 0\n";

#[test]
fn a_number_that_a_call_made_is_not_the_first_thread(rt: HostRuntime) -> Result<(), Fail> {
    let found = read_log(rt.alloc(), QUIET, None).expect(&rt, "texts");
    assert_eq!(rt; found.lines.len(), 4);
    let mut room = Vec::new(rt.alloc());
    let (_, text) = found.lines.at(3, &mut room).expect(&rt, "text");
    assert_eq!(rt; text, b"7 munmap(0x2000, 4096) = 0".as_slice());
    Ok(())
}

/// A log that was begun with `-p`, and a line of a form that no option known here prints.
const ATTACHED: &[u8] = b"strace: Process 7 attached\n\
    munmap(0x1000, 4096) = 0\n\
    7<a.out> munmap(0x2000, 4096) = 0\n";

#[test]
fn lines_without_a_number_are_of_the_process_that_strace_was_let_to(
    rt: HostRuntime,
) -> Result<(), Fail> {
    let found = read_log(rt.alloc(), ATTACHED, Some(7)).expect(&rt, "texts");
    assert_eq!(rt; found.lines.len(), 1);
    let mut room = Vec::new(rt.alloc());
    let (_, text) = found.lines.at(0, &mut room).expect(&rt, "text");
    assert_eq!(rt; text, b"7 munmap(0x1000, 4096) = 0".as_slice());
    assert_eq!(rt; found.counts.unknown, 1);
    assert_eq!(rt; found.unknown, Some(3));
    Ok(())
}
