//! What no clause says: the answers to scripts that were worked by hand, and runs in every room,
//! with every allowance and over devices that fail.
ghost use Rattle.std.specs.Prelude.{◌≤◌, length};

mod failing;
mod lines;
mod rows;

use rows::{DISPLAYED, FORMS, HALTING, PARTS, READ, REPORTS, SCANNED, VALUES};
use std::process::Abort;
use std::test::Fail;
use trac_core::{Cell, Fate, Machine, Report, SliceSink, SliceSource};
use trac_space::make_block;

const AMPLE: usize = 1000;

const MANY: u64 = 1_000_000;

const DEFAULT: u32 = 65_536;

const OUTPUT: usize = 100;

const HELLO: &str = "#(ps,hello)'";

const LOOP: &str = "#(ds,L,(#(cl,L)))#(cl,L)'";

const LETTERS: &str = "#(ps,abcdefghijklmnopqrst)'";

const DEFINING: &[u8] = b"#(ds,A,b)'";

const SHOWN: &str = "#(ds,F,a-b)#(ss,F,-)#(pf,F)'";

/// What a run came to, and what it wrote; the bytes past that are 0.
#[derive(Clone, Copy, Debug, PartialEq, Eq)]
struct Ended {
    report: Report,
    room: [u8; OUTPUT],
    len: usize,
}

impl Ended {
    fn output(&self) -> &[u8] {
        &self.room[..self.len.min(OUTPUT)]
    }
}

/// Where the source fails, how many bytes the sink takes, and which flush fails.
#[derive(Clone, Copy)]
struct Faults {
    source: Option<u64>,
    taken: usize,
    flush: Option<u64>,
}

const NO_FAULTS: Faults = Faults {
    source: None,
    taken: OUTPUT,
    flush: None,
};

fn run(script: &[u8], faults: Faults, block: &mut [Cell], steps: u64) -> Ended
    requires { length block.old ≤ 16777216 }
{
    let mut room = [0; OUTPUT];
    let mut source = SliceSource::new(script, faults.source);
    let mut sink = SliceSink::new(&mut room[..faults.taken.min(OUTPUT)], faults.flush);
    let report = Machine::over(block, steps).run(&mut source, &mut sink);
    let len = sink.written().len();
    Ended { report, room, len }
}

fn outcome(script: &[u8], cells: usize, steps: u64) -> Ended {
    let mut block = [Cell::Byte(0); AMPLE];
    run(script, NO_FAULTS, &mut block[..cells.min(AMPLE)], steps)
}

fn faulty(script: &[u8], faults: Faults, cells: usize) -> Ended {
    let mut block = [Cell::Byte(0); AMPLE];
    run(script, faults, &mut block[..cells.min(AMPLE)], MANY)
}

fn came_to(rt: &impl Abort, got: &Ended, output: &str, fate: Fate, steps: u64, peak: u32) {
    assert!(rt; got.output() == output.as_bytes(), "{output}");
    assert_eq!(rt; got.report, Report { fate, steps, peak });
}

/// Runs each script in ample room; then in each room up to its peak and past it, and with each
/// allowance up to its steps and past them.
fn answer(rt: &impl Abort, rows: &[(&str, &str)], fate: Fate) {
    for (script, output) in rows {
        let whole = outcome(script.as_bytes(), AMPLE, MANY);
        assert!(rt; whole.output() == output.as_bytes(), "{script}");
        assert_eq!(rt; whole.report.fate, fate, "{script}");
        sweep(rt, script.as_bytes(), MANY);
    }
}

fn sweep(rt: &impl Abort, script: &[u8], allowance: u64) {
    let whole = outcome(script, AMPLE, allowance);
    sweep_rooms(rt, script, allowance, &whole);
    sweep_allowances(rt, script, allowance, &whole);
}

fn sweep_rooms(rt: &impl Abort, script: &[u8], allowance: u64, whole: &Ended) {
    for cells in 0..whole.report.peak.saturating_add(3) {
        let got = outcome(script, cells as usize, allowance);
        if cells < whole.report.peak {
            assert_eq!(rt; got.report.fate, Fate::Workspace, "{script:?} {cells}");
            assert!(rt; is_begun(whole, &got), "{script:?} {cells}");
        } else {
            assert!(rt; got == *whole, "{script:?} {cells}");
        }
    }
}

fn sweep_allowances(rt: &impl Abort, script: &[u8], allowance: u64, whole: &Ended) {
    for allowed in 0..whole.report.steps.saturating_add(2) {
        let got = outcome(script, AMPLE, allowed);
        if allowed < whole.report.steps {
            let report = (got.report.fate, got.report.steps);
            assert!(rt; report == (Fate::Steps, allowed), "{script:?} {allowed}");
            assert!(rt; is_begun(whole, &got), "{script:?} {allowed}");
        } else if allowed <= allowance {
            assert!(rt; got == *whole, "{script:?} {allowed}");
        }
    }
}

/// Whether what a run wrote is a first part of what another did.
fn is_begun(whole: &Ended, got: &Ended) -> bool {
    whole.output().starts_with(got.output())
}

#[test]
fn scanning(rt: HostRuntime) {
    answer(&rt, &SCANNED, Fate::InputEnded);
}

#[test]
fn reading_and_halting(rt: HostRuntime) {
    answer(&rt, &READ, Fate::InputEnded);
    answer(&rt, &HALTING, Fate::Halted);
}

#[test]
fn whole_forms(rt: HostRuntime) {
    answer(&rt, &FORMS, Fate::InputEnded);
}

#[test]
fn parts_of_forms(rt: HostRuntime) {
    answer(&rt, &PARTS, Fate::InputEnded);
}

#[test]
fn numbers_and_bit_strings(rt: HostRuntime) {
    answer(&rt, &VALUES, Fate::InputEnded);
}

#[test]
fn displays(rt: HostRuntime) {
    answer(&rt, &DISPLAYED, Fate::InputEnded);
    let whole = outcome(SHOWN.as_bytes(), AMPLE, MANY);
    came_to(&rt, &whole, "<^>a<1>b", Fate::InputEnded, 43, 37);
    let small = outcome(SHOWN.as_bytes(), 36, MANY);
    assert!(rt; small.output().is_empty());
    assert_eq!(rt;
        (small.report.fate, small.report.steps),
        (Fate::Workspace, 18)
    );
    let four = Faults {
        taken: 4,
        ..NO_FAULTS
    };
    let got = faulty(SHOWN.as_bytes(), four, AMPLE);
    came_to(&rt, &got, "<^>a", Fate::OutputFailed, 32, 37);
    let flush = Faults {
        flush: Some(1),
        ..NO_FAULTS
    };
    let got = faulty(SHOWN.as_bytes(), flush, AMPLE);
    came_to(&rt, &got, "<^>a<1>b", Fate::OutputFailed, 32, 37);
}

#[test]
fn reports(rt: HostRuntime) {
    for (script, cells, allowance, output, fate, steps, peak) in &REPORTS {
        let got = outcome(script.as_bytes(), *cells, *allowance);
        came_to(&rt, &got, output, *fate, *steps, *peak);
    }
}

#[test]
fn endless_loop(rt: HostRuntime) {
    sweep(&rt, LOOP.as_bytes(), 300);
}

#[test]
fn each_byte(rt: HostRuntime) {
    for byte in 0..=255u8 {
        let got = outcome(&[byte, b'\''], AMPLE, MANY);
        if matches!(byte, b'\t' | b'\n' | b'\r' | b'(' | b')' | b',' | b'\'') {
            assert!(rt; got.output().is_empty(), "{byte}");
        } else {
            assert!(rt; got.output() == [byte].as_slice(), "{byte}");
        }
        assert_eq!(rt; got.report.fate, Fate::InputEnded, "{byte}");
    }
}

#[test]
fn bytes_that_are_no_text(rt: HostRuntime) {
    let script = b"\xff\0'";
    let got = outcome(script, AMPLE, MANY);
    assert!(rt; got.output() == b"\xff\0".as_slice());
    let report = Report {
        fate: Fate::InputEnded,
        steps: 21,
        peak: 11,
    };
    assert_eq!(rt; got.report, report);
    sweep(&rt, script, MANY);
}

// The rows again, over a block of the size that the program takes by default.
fn answer_in(rt: &impl Abort, rows: &[(&str, &str)], block: &mut [Cell])
    requires { length block.old ≤ 16777216 }
{
    for (script, output) in rows {
        let got = run(script.as_bytes(), NO_FAULTS, block, MANY);
        assert!(rt; got.output() == output.as_bytes(), "{script}");
        assert!(rt; got == outcome(script.as_bytes(), AMPLE, MANY), "{script}");
    }
}

fn answer_each_in(rt: &impl Abort, tables: &[&[(&str, &str)]], block: &mut [Cell])
    requires { length block.old ≤ 16777216 }
{
    for rows in tables {
        answer_in(rt, rows, block);
    }
}

fn report_in(rt: &impl Abort, block: &mut [Cell])
    requires { length block.old ≤ 16777216 }
{
    for (script, cells, allowance, output, fate, steps, peak) in &REPORTS {
        if *cells == AMPLE {
            let got = run(script.as_bytes(), NO_FAULTS, block, *allowance);
            came_to(rt, &got, output, *fate, *steps, *peak);
        }
    }
}

#[test]
fn rows_in_a_block_of_the_default_size(rt: HostRuntime) -> Result<(), Fail> {
    let mut block = make_block(rt.alloc(), DEFAULT)?;
    let tables: [&[(&str, &str)]; 7] = [
        &SCANNED, &READ, &HALTING, &FORMS, &PARTS, &VALUES, &DISPLAYED,
    ];
    answer_each_in(&rt, &tables, &mut block);
    Ok(())
}

#[test]
fn reports_in_a_block_of_the_default_size(rt: HostRuntime) -> Result<(), Fail> {
    let mut block = make_block(rt.alloc(), DEFAULT)?;
    report_in(&rt, &mut block);
    Ok(())
}

#[test]
fn input_that_stops(rt: HostRuntime) {
    let text = HELLO.as_bytes();
    for (n, output) in ["", "#", "", "", "", "", "h", "he", "hel", "hell", "hello"]
        .iter()
        .enumerate()
    {
        let got = outcome(&text[..n.min(text.len())], AMPLE, MANY);
        assert!(rt; got.output() == output.as_bytes(), "{n}");
        assert_eq!(rt; got.report.fate, Fate::InputEnded, "{n}");
    }
}

#[test]
fn rooms_of_a_refusal(rt: HostRuntime) {
    for (script, least) in &[(HELLO, 19), ("#(ds,A,b)'", 17)] {
        for cells in 0..*least {
            let got = outcome(script.as_bytes(), cells, MANY);
            let (steps, peak) = if cells < 11 { (0, 0) } else { (8, 11) };
            came_to(&rt, &got, "", Fate::Workspace, steps, peak);
        }
        assert_eq!(rt;
            outcome(script.as_bytes(), *least, MANY).report.fate,
            Fate::InputEnded
        );
    }
}

#[test]
fn block_of_other_cells(rt: HostRuntime) {
    let mut block = [Cell::Gap(7); 19];
    for _ in 0..2 {
        let got = run(HELLO.as_bytes(), NO_FAULTS, &mut block, MANY);
        came_to(&rt, &got, "hello", Fate::InputEnded, 29, 19);
    }
}

#[test]
fn block_after_a_run(rt: HostRuntime) {
    let mut block = [Cell::Byte(0); 17];
    let got = run(DEFINING, NO_FAULTS, &mut block, MANY);
    came_to(&rt, &got, "", Fate::InputEnded, 27, 17);
    let form = matches!(
        &block[..5],
        [
            Cell::Head(1),
            Cell::Head(1),
            Cell::Head(0),
            Cell::Byte(b'A'),
            Cell::Byte(b'b')
        ]
    );
    assert!(rt; form);
}

// The forms of the run before are gone, however it ended.
#[test]
fn block_after_runs(rt: HostRuntime) {
    let mut block = [Cell::Byte(0); 17];
    for (script, output) in &[
        ("#(ln,/)'", ""),
        ("#(cl,A)'", ""),
        ("(unclosed'", ""),
        ("a'", "a"),
    ] {
        run(DEFINING, NO_FAULTS, &mut block, MANY);
        let got = run(script.as_bytes(), NO_FAULTS, &mut block, MANY);
        assert!(rt; got == outcome(script.as_bytes(), 17, MANY), "{script}");
        assert!(rt; got.output() == output.as_bytes(), "{script}");
    }
}
