//! Runs over sources, sinks, readers and writers of the tests' own, of which some fail.
ghost use Rattle.std.specs.Prelude.{◌≡◌, ◌+◌, ◌-◌, ◌<◌, [], false, ⊤};

use crate::fakes::{FakeReader, FakeWriter};
use crate::taking::takes;
use std::io;
use std::io::Write;
use std::process::Abort;
use std::test::Fail;
use trac_core::{
    Cell, Characters, Fate, Machine, Next, ReadSource, Report, Sink, SinkFailed, SliceSource,
    Source, Work, WriteSink, write_characters,
};

const AMPLE: usize = 1000;

const MANY: u64 = 1_000_000;

const HELLO: &str = "#(ps,hello)'";

const SHOWN: &str = "#(ds,F,a-b)#(ss,F,-)#(pf,F)'";

const LETTERS: &str = "#(ps,abcdefghijklmnopqrst)'";

/// A source of a text and then a number of letters, after which it fails or ends. It counts its calls.
#[derive(Drop)]
struct FakeSource<'a> {
    text: &'a [u8],
    letters: u32,
    fails: bool,
    calls: u32,
    failures: u64,
}

impl<'a> FakeSource<'a> {
    fn new(text: &'a [u8], letters: u32, fails: bool) -> FakeSource<'a>
        ensures { result.failures ≡ 0 }
    {
        FakeSource {
            text,
            letters,
            fails,
            calls: 0,
            failures: 0,
        }
    }
}

impl Source for FakeSource<'_> {
    ghost tells = { λ _. ⊥ };

    ghost stream = { λ _. record { bytes = []; ended = false } };

    ghost failure_count = { λ s. s.failures };

    fn next(&mut self) -> Next {
        self.calls = self.calls.saturating_add(1);
        if let [first, rest @ ..] = self.text {
            self.text = rest;
            return Next::Byte(*first);
        }
        if self.letters > 0 {
            self.letters -= 1;
            return Next::Byte(b'a');
        }
        if self.fails {
            self.failures += 1;
            return Next::Failed;
        }
        Next::End
    }

    fn failures(&self) -> u64 {
        self.failures
    }
}

/// A sink that fails at the put and at the flush of these
/// numbers, counted from 1. It counts its calls.
#[derive(Drop)]
struct FakeSink {
    bad_put: u32,
    bad_flush: u32,
    puts: u32,
    flushes: u32,
    failures: u64,
}

impl FakeSink {
    fn new(bad_put: u32, bad_flush: u32) -> FakeSink
        ensures { result.failures ≡ 0 }
    {
        FakeSink {
            bad_put,
            bad_flush,
            puts: 0,
            flushes: 0,
            failures: 0,
        }
    }
}

impl Sink for FakeSink {
    ghost tells = { λ _. ⊥ };

    ghost written = { λ _. [] };

    ghost flushed = { λ _. ⊤ };

    ghost failure_count = { λ s. s.failures };

    ghost lent = { λ _. 0 };

    fn put(&mut self, _byte: u8) -> Result<(), SinkFailed> {
        self.puts = self.puts.saturating_add(1);
        if self.puts == self.bad_put {
            self.failures += 1;
            return Err(SinkFailed);
        }
        Ok(())
    }

    fn flush(&mut self) -> Result<(), SinkFailed> {
        self.flushes = self.flushes.saturating_add(1);
        if self.flushes == self.bad_flush {
            self.failures += 1;
            return Err(SinkFailed);
        }
        Ok(())
    }

    fn failures(&self) -> u64 {
        self.failures
    }
}

/// A writer that counts its flushes, of which the one of this number, counted from 1, fails.
#[derive(Drop)]
struct FlushedWriter<'a> {
    flushes: &'a mut u32,
    bad_flush: u32,
}

impl Write for FlushedWriter<'_> {
    fn write(&mut self, buf: &[u8]) -> io::Result<usize> {
        Ok(buf.len())
    }

    fn flush(&mut self) -> io::Result<()> {
        *self.flushes = self.flushes.saturating_add(1);
        if *self.flushes == self.bad_flush {
            return Err(io::Error::from(io::ErrorKind::Other));
        }
        Ok(())
    }
}

#[test]
fn bytes_that_are_held(rt: HostRuntime) {
    let mut block = [Cell::Comma; 8];
    let mut source = SliceSource::new(b"abcde'fg", None);
    takes(&rt, &mut source, &mut block[..0], "");
    takes(&rt, &mut source, &mut block[..3], "abc");
    takes(&rt, &mut source, &mut block, "de");
    takes(&rt, &mut source, &mut block, "");
    assert_eq!(rt; source.next(), Next::Byte(b'\''));
    takes(&rt, &mut source, &mut block, "fg");
    takes(&rt, &mut source, &mut block, "");
    assert_eq!(rt; source.next(), Next::End);
    takes(&rt, &mut source, &mut block, "");
    assert_eq!(rt; source.next(), Next::End);
    let mut failing = SliceSource::new(b"abcde'fg", Some(4));
    takes(&rt, &mut failing, &mut block, "abcd");
    assert_eq!(rt; failing.next(), Next::Failed);
    takes(&rt, &mut failing, &mut block, "");
    assert_eq!(rt; failing.failures(), 1);
}

#[test]
fn bytes_that_are_not_held(rt: HostRuntime) {
    let mut block = [Cell::Comma; 8];
    let mut source = FakeSource::new(b"abc", 0, false);
    takes(&rt, &mut source, &mut block, "");
    assert_eq!(rt; source.calls, 0);
    assert_eq!(rt; source.next(), Next::Byte(b'a'));
    let mut reader = ReadSource::new(FakeReader::new(b"abc", usize::MAX, 0));
    takes(&rt, &mut reader, &mut block, "");
    assert_eq!(rt; reader.next(), Next::Byte(b'a'));
}

#[test]
fn characters_of_cells(rt: HostRuntime) {
    let mut bytes = [b'x'; 3];
    write_characters(&[Cell::Byte(b'a'), Cell::Comma], &mut bytes[..2]);
    assert!(rt; &bytes[..] == b"a\0x".as_slice());
}

#[test]
fn characters_of_a_text(rt: HostRuntime) {
    let cells = [Cell::Byte(b'a'), Cell::Byte(b'\xff'), Cell::Byte(b'\0')];
    let text = Characters::new(&cells);
    assert_eq!(rt; text.len(), 3);
    assert_eq!(rt; text.at(1), b'\xff');
    let mut bytes = [b'x'; 3];
    text.write(&mut bytes);
    assert!(rt; &bytes[..] == b"a\xff\0".as_slice());
    text.part(1, 2).write(&mut bytes[..1]);
    assert!(rt; &bytes[..] == b"\xff\xff\0".as_slice());
}

/// Runs over devices that count, and compares the puts, the
/// flushes and the bytes that were asked for.
fn calls(rt: &impl Abort, script: &str, puts: u32, flushes: u32, asked: u32) {
    let mut block = [Cell::Byte(0); AMPLE];
    let mut source = FakeSource::new(script.as_bytes(), 0, false);
    let mut sink = FakeSink::new(0, 0);
    let report = Machine::over(&mut block, MANY).run(&mut source, &mut sink);
    let counted = (sink.puts, sink.flushes, source.calls) == (puts, flushes, asked);
    let is_well = source.failures() == 0 && sink.failures() == 0;
    assert!(rt;
        report.fate == Fate::InputEnded && is_well && counted,
        "{script}"
    );
}

#[test]
fn calls_of_devices(rt: HostRuntime) {
    calls(&rt, "", 0, 0, 1);
    calls(&rt, HELLO, 5, 1, 13);
    calls(&rt, "#(ps,hello)'\n", 5, 1, 15);
    calls(&rt, LETTERS, 20, 1, 28);
    calls(&rt, "#(ps,a)#(ps,b)#(ps,c)'", 3, 3, 23);
    calls(&rt, "#(ps)#(ds,A,b)'", 0, 0, 16);
    calls(&rt, "##(eq,,,a)'", 1, 1, 12);
}

#[test]
fn calls_of_displays(rt: HostRuntime) {
    calls(&rt, SHOWN, 8, 1, 29);
    calls(&rt, "#(pf,none)'", 0, 0, 12);
}

#[test]
fn endless_line(rt: HostRuntime) {
    let mut block = [Cell::Byte(0); 100];
    let mut source = FakeSource::new(b"", 1_000_000, false);
    let mut sink = FakeSink::new(0, 0);
    let report = Machine::over(&mut block, MANY).run(&mut source, &mut sink);
    let want = Report {
        fate: Fate::Workspace,
        steps: 8,
        peak: 11,
    };
    assert_eq!(rt; report, want);
    assert_eq!(rt; source.calls, 93);
    assert_eq!(rt; (sink.puts, sink.flushes), (0, 0));
}

/// Steps a machine to its end and three times more, when it
/// has to answer the same and to call no device.
fn stays_over(
    rt: &impl Abort,
    mut source: FakeSource<'_>,
    mut sink: FakeSink,
    cells: usize,
    steps: u64,
    fate: Fate,
)
    requires source_counts { source.failures ≡ 0 }
    requires sink_counts { sink.failures ≡ 0 }
{
    let mut block = [Cell::Byte(0); AMPLE];
    let mut machine = Machine::over(&mut block[..cells.min(AMPLE)], steps);
    let mut ended = None;
    for _ in 0..100 {
        assert!(rt; source.failures() == 0 && sink.failures() == 0);
        ended = machine.step(&mut source, &mut sink);
        if ended.is_some() {
            break;
        }
    }
    assert_eq!(rt; ended, Some(fate));
    let calls = (source.calls, sink.puts, sink.flushes);
    let counted = (machine.steps(), machine.peak());
    for _ in 0..3 {
        assert!(rt; source.failures() <= 1 && sink.failures() <= 1);
        assert_eq!(rt; machine.step(&mut source, &mut sink), Some(fate));
        assert_eq!(rt; (source.calls, sink.puts, sink.flushes), calls);
        assert_eq!(rt; (machine.steps(), machine.peak()), counted);
    }
}

#[test]
fn runs_whose_input_failed_stay_ended(rt: HostRuntime) {
    let text = HELLO.as_bytes();
    for n in 0..=text.len() {
        let source = FakeSource::new(&text[..n], 0, true);
        let sink = FakeSink::new(0, 0);
        stays_over(&rt, source, sink, AMPLE, MANY, Fate::InputFailed);
    }
}

#[test]
fn runs_whose_output_failed_stay_ended(rt: HostRuntime) {
    for (bad_put, bad_flush) in &[(1, 0), (2, 0), (3, 0), (4, 0), (5, 0), (0, 1)] {
        let source = FakeSource::new(HELLO.as_bytes(), 0, false);
        let sink = FakeSink::new(*bad_put, *bad_flush);
        stays_over(&rt, source, sink, AMPLE, MANY, Fate::OutputFailed);
    }
}

const ENDED: [(&str, usize, u64, Fate); 6] = [
    (HELLO, AMPLE, MANY, Fate::InputEnded),
    ("#(hl)'", AMPLE, MANY, Fate::Halted),
    (HELLO, 18, MANY, Fate::Workspace),
    (HELLO, 0, MANY, Fate::Workspace),
    (HELLO, AMPLE, 20, Fate::Steps),
    (HELLO, 0, 0, Fate::Steps),
];

#[test]
fn ended_runs_stay_ended(rt: HostRuntime) {
    for (script, cells, steps, fate) in &ENDED {
        let source = FakeSource::new(script.as_bytes(), 0, false);
        stays_over(&rt, source, FakeSink::new(0, 0), *cells, *steps, *fate);
    }
}

/// Runs over a reader and a writer, of which one may fail.
fn piped(rt: &impl Abort, taken: &mut Vec<u8>, bad_read: u32, bad_write: u32) -> Report {
    let mut block = [Cell::Byte(0); AMPLE];
    let mut source = ReadSource::new(FakeReader::new(HELLO.as_bytes(), usize::MAX, bad_read));
    let mut sink = WriteSink::new(FakeWriter::new(taken, usize::MAX, bad_write));
    let report = Machine::over(&mut block, MANY).run(&mut source, &mut sink);
    assert_eq!(rt;
        source.failures(),
        u64::from(report.fate == Fate::InputFailed)
    );
    assert_eq!(rt;
        sink.failures(),
        u64::from(report.fate == Fate::OutputFailed)
    );
    report
}

fn reported(fate: Fate, steps: u64, peak: u32) -> Report {
    Report { fate, steps, peak }
}

#[test]
fn readers_at_their_ends(rt: HostRuntime) -> Result<(), Fail> {
    let rows = &[
        (0, Fate::InputEnded, 29, 19),
        (13, Fate::InputFailed, 28, 19),
    ];
    for (bad_read, fate, steps, peak) in rows {
        let mut taken = Vec::new(rt.alloc());
        let report = piped(&rt, &mut taken, *bad_read, 0);
        assert!(rt; report == reported(*fate, *steps, *peak));
        assert!(rt; taken.as_slice() == b"hello".as_slice());
    }
    Ok(())
}

#[test]
fn readers_that_fail(rt: HostRuntime) -> Result<(), Fail> {
    for k in 1..=12u32 {
        let mut taken = Vec::new(rt.alloc());
        let report = piped(&rt, &mut taken, k, 0);
        let want = reported(Fate::InputFailed, 8, (7 + k).max(11));
        assert!(rt; report == want && taken.is_empty(), "{k}");
    }
    Ok(())
}

#[test]
fn writers_that_fail(rt: HostRuntime) -> Result<(), Fail> {
    for k in 1..=5u32 {
        let mut taken = Vec::new(rt.alloc());
        let report = piped(&rt, &mut taken, 0, k);
        assert!(rt; report == reported(Fate::OutputFailed, 18, 19), "{k}");
        assert!(rt; taken.as_slice() == &b"hello"[..(k as usize - 1).min(5)]);
    }
    Ok(())
}

#[test]
fn flushes_of_a_writer(rt: HostRuntime) {
    let mut flushes = 0;
    let mut sink = WriteSink::new(FlushedWriter {
        flushes: &mut flushes,
        bad_flush: 2,
    });
    assert_eq!(rt; sink.put(b'a'), Ok(()));
    assert_eq!(rt; sink.flush(), Ok(()));
    assert_eq!(rt; sink.put(b'b'), Ok(()));
    assert_eq!(rt; sink.flush(), Err(SinkFailed));
    assert_eq!(rt; sink.failures(), 1);
    assert_eq!(rt; sink.flush(), Ok(()));
    drop(sink);
    assert_eq!(rt; flushes, 3);
}

#[test]
fn text_of_a_sink_failed(rt: HostRuntime) -> Result<(), Fail> {
    let text = format!(in rt.alloc(); "{SinkFailed}")?;
    assert!(rt; text.as_str() == "sink failed");
    Ok(())
}
