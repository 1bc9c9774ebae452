//! What no clause says of the ports: that their calls succeed with concrete bytes, each once through its bound, and the
//! message of a failure. Each test is a table of calls; one small loop makes them and compares.
use byte_ports::{
    CleanSink, CleanSource, DripSink, DripSource, Failed, FillSource, MemorySink, MemorySource,
    Sink, Source, StdSink, StdSource, Unread, read_all, write_all,
};
use std::process::Abort;
use std::test::Fail;

/// A read into a buffer of three bytes `-`, or into none: what it answers, and what the buffer has then.
fn expect_read<S: Source>(
    rt: &impl Abort,
    input: &mut S,
    has_room: bool,
    wanted: Result<usize, Failed>,
    bytes: &[u8],
) {
    let mut buf = [b'-'; 3];
    let found = if has_room {
        input.read(&mut buf)
    } else {
        input.read(&mut [])
    };
    assert_eq!(rt; found, wanted);
    assert_eq!(rt; buf.as_slice(), bytes);
}

/// Reads one after another.
fn expect_reads<S: Source>(
    rt: &impl Abort,
    input: &mut S,
    reads: &[(bool, Result<usize, Failed>, &[u8])],
) {
    for (has_room, wanted, bytes) in reads {
        expect_read(rt, input, *has_room, *wanted, bytes);
    }
}

/// Single writes of these bytes, and what each answers.
fn expect_writes<K: Sink>(rt: &impl Abort, out: &mut K, writes: &[(&[u8], Result<usize, Failed>)]) {
    for (bytes, wanted) in writes {
        assert_eq!(rt; out.write(bytes), *wanted);
    }
}

/// Writes of all of these bytes, and what each answers.
fn expect_all<K: Sink>(rt: &impl Abort, out: &mut K, writes: &[(&[u8], Result<(), Failed>)]) {
    for (bytes, wanted) in writes {
        assert_eq!(rt; write_all(out, bytes), *wanted);
    }
}

/// Reads of five bytes from a source whose second call fails.
const FAILING: [(bool, Result<usize, Failed>, &[u8]); 5] = [
    (true, Ok(3), b"abc"),
    (true, Err(Failed), b"---"),
    (false, Ok(0), b"---"),
    (true, Ok(2), b"de-"),
    (true, Ok(0), b"---"),
];

#[test]
fn a_source_fails_at_its_listed_call_and_loses_nothing(rt: HostRuntime) -> Result<(), Fail> {
    let alloc = rt.alloc();
    let mut source = MemorySource::new(b"abcde".to_vec(alloc)?, [2].to_vec(alloc)?);
    expect_reads(&rt, &mut source, &FAILING);
    assert_eq!(rt; (source.faults, source.calls), (1, 4));
    Ok(())
}

#[test]
fn a_failure_has_a_message(rt: HostRuntime) -> Result<(), Fail> {
    let text = format!(in rt.alloc(); "{}", Failed)?;
    assert_eq!(rt; text.as_str(), "a read or a write failed");
    Ok(())
}

/// Writes into four bytes of a sink.
const WHOLE: [(&[u8], Result<(), Failed>); 3] = [
    (b"ab", Ok(())),
    (b"cdef", Err(Failed)),
    (b"", Ok(())),
];

#[test]
fn a_sink_takes_what_fits_and_then_fails(rt: HostRuntime) -> Result<(), Fail> {
    let alloc = rt.alloc();
    let mut sink = MemorySink::new(b"....".to_vec(alloc)?, [1].to_vec(alloc)?);
    expect_writes(&rt, &mut sink, &[(b"ab", Err(Failed))]);
    expect_all(&rt, &mut sink, &WHOLE);
    assert_eq!(rt; sink.written(), b"abcd".as_slice());
    assert_eq!(rt; sink.faults, 2);
    Ok(())
}

/// Reads of five bytes from a source that never fails.
const CLEAN: [(bool, Result<usize, Failed>, &[u8]); 4] = [
    (true, Ok(3), b"abc"),
    (false, Ok(0), b"---"),
    (true, Ok(2), b"de-"),
    (true, Ok(0), b"---"),
];

#[test]
fn a_clean_source_gives_all_that_has_room(rt: HostRuntime) -> Result<(), Fail> {
    let mut source = CleanSource::new(b"abcde".to_vec(rt.alloc())?);
    expect_reads(&rt, &mut source, &CLEAN);
    Ok(())
}

/// Writes into the last byte of a sink.
const LAST: [(&[u8], Result<usize, Failed>); 3] = [
    (b"de", Ok(1)),
    (b"", Ok(0)),
    (b"e", Err(Failed)),
];

#[test]
fn a_clean_sink_fails_where_it_is_full(rt: HostRuntime) -> Result<(), Fail> {
    let mut sink = CleanSink::new(b"....".to_vec(rt.alloc())?);
    expect_all(&rt, &mut sink, &[(b"abc", Ok(()))]);
    assert_eq!(rt; sink.faults, 0);
    expect_writes(&rt, &mut sink, &LAST);
    assert_eq!(rt; sink.written(), b"abcd".as_slice());
    assert_eq!(rt; sink.faults, 1);
    Ok(())
}

/// Limits of a whole input of five bytes, calls of the source that fail, and what reading all gives.
const INPUTS: [(usize, u32, Result<&[u8], Unread>); 6] = [
    (5, 0, Ok(b"abcde")),
    (9, 0, Ok(b"abcde")),
    (4, 0, Err(Unread::Long)),
    (0, 0, Err(Unread::Long)),
    (5, 1, Err(Unread::Failed)),
    (5, 2, Err(Unread::Failed)),
];

#[test]
fn an_input_is_read_whole_up_to_a_limit(rt: HostRuntime) -> Result<(), Fail> {
    let alloc = rt.alloc();
    for (limit, fails, wanted) in INPUTS {
        let mut source = MemorySource::new(b"abcde".to_vec(alloc)?, [fails].to_vec(alloc)?);
        let found = read_all(alloc, &mut source, limit);
        assert_eq!(rt;
            found.as_deref(),
            wanted.as_ref().map(|bytes| *bytes),
            "{limit}"
        );
    }
    Ok(())
}

/// Reads of two bytes from a source whose second call fails, one byte a call.
const DRIPS: [(bool, Result<usize, Failed>, &[u8]); 5] = [
    (true, Ok(1), b"a--"),
    (true, Err(Failed), b"---"),
    (false, Ok(0), b"---"),
    (true, Ok(1), b"b--"),
    (true, Ok(0), b"---"),
];

#[test]
fn a_drip_reads_one_byte_a_call(rt: HostRuntime) -> Result<(), Fail> {
    let alloc = rt.alloc();
    let mut source = DripSource {
        inner: MemorySource::new(b"ab".to_vec(alloc)?, [2].to_vec(alloc)?),
    };
    expect_reads(&rt, &mut source, &DRIPS);
    Ok(())
}

#[test]
fn a_drip_writes_one_byte_a_call(rt: HostRuntime) -> Result<(), Fail> {
    let mut sink = DripSink {
        inner: CleanSink::new(b"...".to_vec(rt.alloc())?),
    };
    expect_writes(&rt, &mut sink, &[(b"ab", Ok(1)), (b"", Ok(0))]);
    expect_all(&rt, &mut sink, &[(b"bcd", Err(Failed))]);
    assert_eq!(rt; sink.inner.written(), b"abc".as_slice());
    Ok(())
}

/// Reads of four times one byte.
const FILLS: [(bool, Result<usize, Failed>, &[u8]); 4] = [
    (true, Ok(3), b"xxx"),
    (false, Ok(0), b"---"),
    (true, Ok(1), b"x--"),
    (true, Ok(0), b"---"),
];

#[test]
fn a_fill_gives_one_byte_so_many_times(rt: HostRuntime) {
    let mut source = FillSource {
        left: 4,
        byte: b'x',
    };
    expect_reads(&rt, &mut source, &FILLS);
}

#[test]
fn the_standard_streams_are_ports(rt: HostRuntime) {
    let mut source = StdSource::new(rt.stdin());
    expect_read(&rt, &mut source, false, Ok(0), b"---");
    let mut output = StdSink::output(rt.stdout());
    expect_all(&rt, &mut output, &[(b"to the output\n", Ok(()))]);
    let mut error = StdSink::error(rt.stderr());
    expect_all(&rt, &mut error, &[(b"to the error\n", Ok(()))]);
}
