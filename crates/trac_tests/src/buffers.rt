//! Reading and writing through the buffers of the program's devices.
ghost use Rattle.std.specs.Prelude.{◌≡◌, ◌≤◌, length};

use crate::fakes::{FakeReader, FakeWriter};
use crate::taking::takes;
use std::alloc::Global;
use std::io::{Read, Write};
use std::process::Abort;
use std::test::Fail;
use trac_core::{
    BufferedReader, BufferedWriter, Cell, Characters, Input, Next, Output, Sink, Source, Work,
};

// The bytes 0, 1, .., 250, 0, 1, ..
fn pattern(alloc: Global, len: usize) -> Result<Vec<u8>, Fail> {
    let mut text = Vec::new(alloc);
    for i in 0..len {
        text.push((i % 251) as u8)?;
    }
    Ok(text)
}

// Reads by `size` bytes to the end. A failure must come once, where the reader fails, and lose and
// double nothing.
fn reads_all(
    rt: &impl Abort,
    alloc: Global,
    text: &[u8],
    reader: FakeReader<'_>,
    size: usize,
) -> Result<(), Fail> {
    let fails = u32::from(reader.bad_read > 0);
    let mut failures = 0u32;
    let mut buffered = BufferedReader::new(reader);
    let mut buf = vec![in alloc; 0u8; size]?;
    let mut seen = Vec::new(alloc);
    for _ in 0..30_000 {
        match buffered.read(&mut buf) {
            Ok(0) => break,
            Ok(n) => seen.extend_from_slice(&buf[..n])?,
            Err(_) => failures = failures.saturating_add(1),
        }
    }
    assert!(rt; seen.as_slice() == text);
    assert_eq!(rt; failures, fails);
    Ok(())
}

#[test]
fn reads_through_the_buffer(rt: HostRuntime) -> Result<(), Fail> {
    let rows = [
        (20_000, usize::MAX, 0, 1),
        (20_000, usize::MAX, 2, 1),
        (20_000, 5_000, 0, 3_000),
        (20_000, 8_192, 3, 10_000),
        (10, 3, 1, 1),
        (10, 3, 3, 1),
        (10, 3, 3, 2),
        (10, 1, 11, 4),
        (0, 1, 0, 1),
    ];
    for (len, most, fails_at, size) in rows {
        let text = pattern(rt.alloc(), len)?;
        let reader = FakeReader::new(&text, most, fails_at);
        reads_all(&rt, rt.alloc(), &text, reader, size)?;
    }
    Ok(())
}

// Writes a text by `size` bytes, and flushes. A failure must come once, where the writer fails,
// and after it all that was given must be written once and in order.
fn writes_all(
    rt: &impl Abort,
    alloc: Global,
    text: &[u8],
    size: usize,
    most: usize,
    fails_at: u32,
) -> Result<(), Fail> {
    let mut taken = Vec::new(alloc);
    let mut failures = 0u32;
    let mut buffered = BufferedWriter::new(FakeWriter::new(&mut taken, most, fails_at));
    let mut rest = text;
    for _ in 0..30_000 {
        let part = &rest[..size.min(rest.len())];
        match buffered.write(part) {
            Ok(n) => rest = &rest[n..],
            Err(_) => failures = failures.saturating_add(1),
        }
    }
    if buffered.flush().is_err() {
        failures = failures.saturating_add(1);
        buffered.flush()?;
    }
    assert!(rt; rest.is_empty());
    assert!(rt; taken.as_slice() == text);
    assert_eq!(rt; failures, u32::from(fails_at > 0));
    Ok(())
}

#[test]
fn writes_through_the_buffer(rt: HostRuntime) -> Result<(), Fail> {
    let rows = [
        (20_000, 1, usize::MAX, 0),
        (20_000, 1, usize::MAX, 1),
        (20_000, 1, usize::MAX, 3),
        (20_000, 1, 5_000, 2),
        (20_000, 3_000, 5_000, 4),
        (20_000, 10_000, 8_192, 2),
        (10, 1, 3, 1),
        (10, 1, 3, 2),
        (10, 4, 1, 10),
        (0, 1, 1, 0),
    ];
    for (len, size, most, fails_at) in rows {
        let text = pattern(rt.alloc(), len)?;
        writes_all(&rt, rt.alloc(), &text, size, most, fails_at)?;
    }
    Ok(())
}

#[test]
fn a_write_of_no_byte_is_a_failure(rt: HostRuntime) -> Result<(), Fail> {
    let mut taken = Vec::new(rt.alloc());
    let mut buffered = BufferedWriter::new(FakeWriter::new(&mut taken, 0, 0));
    assert!(rt; buffered.write(b"a").is_ok());
    assert!(rt; buffered.flush().is_err());
    assert!(rt; buffered.flush().is_err());
    assert!(rt; taken.is_empty());
    Ok(())
}

// The characters of cells, behind bytes.
fn put_held(bytes: &mut Vec<u8>, cells: &[Cell]) -> Result<(), Fail> {
    for cell in cells {
        if let Cell::Byte(byte) = cell {
            bytes.push(*byte)?;
        }
    }
    Ok(())
}

#[test]
fn reads_in_runs(rt: HostRuntime) -> Result<(), Fail> {
    let rows = [
        (20_000, usize::MAX, 0),
        (20_000, 5_000, 3),
        (10, 3, 1),
        (0, 1, 0),
    ];
    for (len, most, fails_at) in rows {
        let text = pattern(rt.alloc(), len)?;
        let mut source = Input::new(FakeReader::new(&text, most, fails_at));
        let mut seen = Vec::new(rt.alloc());
        let mut block = [Cell::Comma; 100];
        takes(&rt, &mut source, &mut block, "");
        for _ in 0..30_000 {
            let mut work = Work::over(&mut block);
            source.take_held(b'\'', &mut work);
            put_held(&mut seen, work.neutral_part(0, work.neutral_len()))?;
            assert!(rt; source.failures() <= 1);
            match source.next() {
                Next::Byte(byte) => seen.push(byte)?,
                Next::End => break,
                Next::Failed => {}
            }
        }
        assert!(rt; seen == text);
        assert_eq!(rt; source.failures(), u64::from(fails_at > 0));
        takes(&rt, &mut source, &mut block, "");
    }
    Ok(())
}

#[test]
fn takes_what_is_held(rt: HostRuntime) {
    let mut source = Input::new(FakeReader::new(b"xabcde'fg", usize::MAX, 2));
    let mut block = [Cell::Comma; 8];
    takes(&rt, &mut source, &mut block, "");
    assert_eq!(rt; source.next(), Next::Byte(b'x'));
    takes(&rt, &mut source, &mut block[..3], "abc");
    takes(&rt, &mut source, &mut block, "de");
    takes(&rt, &mut source, &mut block, "");
    assert_eq!(rt; source.next(), Next::Byte(b'\''));
    takes(&rt, &mut source, &mut block, "fg");
    assert_eq!(rt; source.next(), Next::Failed);
    takes(&rt, &mut source, &mut block, "");
    assert_eq!(rt; source.next(), Next::End);
    assert_eq!(rt; source.failures(), 1);
}

#[test]
fn writes_in_runs(rt: HostRuntime) -> Result<(), Fail> {
    let text = pattern(rt.alloc(), 20_000)?;
    let mut cells = Vec::new(rt.alloc());
    for byte in &text {
        cells.push(Cell::Byte(*byte))?;
    }
    for (most, fails_at, kept) in [(5_000, 0, 20_000), (5_000, 2, 8_192)] {
        let mut taken = Vec::new(rt.alloc());
        let mut sink = Output::new(FakeWriter::new(&mut taken, most, fails_at));
        assert_eq!(rt;
            sink.put_all(&Characters::new(&cells)).is_ok(),
            fails_at == 0
        );
        assert_eq!(rt; sink.failures(), u64::from(fails_at > 0));
        assert!(rt; sink.flush().is_ok());
        assert!(rt; taken.as_slice() == &text[..kept.min(text.len())]);
    }
    Ok(())
}
