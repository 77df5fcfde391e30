//! The program without its devices: its words, a run in a block of its own, its lines and statuses.
//! If memory is refused, as `rt try --test --fail-alloc N` does, each test asks for the answer to that, and
//! says that it came.
use crate::serve::{NoMemory, serve};
use crate::words::settings_from;
use clap::error::ErrorKind;
use std::alloc::{AllocError, Global};
use std::process::Abort;
use std::test::Fail;
use trac_command::{Settings, error_status, fault_line, memory_line, report_line, status};
use trac_core::{Next, Report, SliceSink, SliceSource, Source};
use trac_space::make_block;

const HELLO: &[u8] = b"#(ps,hello)'";

fn words_of(alloc: Global, words: &[&str]) -> Result<Vec<String>, AllocError> {
    let mut owned = Vec::new(alloc);
    for word in words {
        owned.push(String::from_str(alloc, word)?)?;
    }
    Ok(owned)
}

fn given(settings: &Settings) -> (u32, u64, bool) {
    (settings.cells, settings.steps, settings.report)
}

#[test]
fn words_that_are_taken(rt: HostRuntime) -> Result<(), Fail> {
    let most = [
        "trac",
        "--cells",
        "16777216",
        "--steps",
        "1000000000000",
        "--report",
    ];
    let alone = settings_from(rt.alloc(), words_of(rt.alloc(), &["trac"])?)?;
    assert_eq!(rt; given(&alone), (65_536, 1_000_000, false));
    let all = settings_from(rt.alloc(), words_of(rt.alloc(), &most)?)?;
    assert_eq!(rt; given(&all), (16_777_216, 1_000_000_000_000, true));
    Ok(())
}

#[test]
fn words_that_are_refused(rt: HostRuntime) -> Result<(), Fail> {
    let rows = [
        ["trac", "--cells", "0"],
        ["trac", "--cells", "16777217"],
        ["trac", "--steps", "0"],
        ["trac", "--steps", "x"],
        ["trac", "--report", "extra"],
    ];
    for words in rows {
        let error = settings_from(rt.alloc(), words_of(rt.alloc(), &words)?).err();
        let code = error.map(|error| error_status(error.kind()));
        assert_eq!(rt; code, Some(2), "{words:?}");
    }
    for word in ["--help", "-h"] {
        let error = settings_from(rt.alloc(), words_of(rt.alloc(), &["trac", word])?).err();
        assert_eq!(rt;
            error.map(|error| error.kind()),
            Some(ErrorKind::DisplayHelp)
        );
    }
    Ok(())
}

#[test]
fn statuses_of_errors(rt: HostRuntime) {
    assert_eq!(rt; error_status(ErrorKind::DisplayHelp), 0);
    assert_eq!(rt; error_status(ErrorKind::OutOfMemory), 6);
    for kind in [
        ErrorKind::UnknownArgument,
        ErrorKind::InvalidValue,
        ErrorKind::ValueValidation,
        ErrorKind::DisplayVersion,
    ] {
        assert_eq!(rt; error_status(kind), 2, "{kind:?}");
    }
}

#[test]
fn text_of_no_memory(rt: HostRuntime) -> Result<(), Fail> {
    let text = format!(in rt.alloc(); "{NoMemory}")?;
    assert!(rt; text.as_str() == "no memory for the block");
    Ok(())
}

// Row by row: the words, what is printed, the line of the report, the line of the fault, the status.
const ENDS: [(&[&str], &str, &str, &str, u8); 2] = [
    (
        &["trac", "--report"],
        "hello",
        "trac: 29 steps, peak 19 cells",
        "",
        0,
    ),
    (
        &["trac", "--cells", "18", "--report"],
        "",
        "trac: 8 steps, peak 11 cells",
        "trac: workspace of 18 cells full at step 9",
        1,
    ),
];

fn says(rt: &impl Abort, report: &Report, settings: &Settings, told: &str, fault: &str) {
    assert!(rt; settings.report);
    assert!(rt; report_line(report).as_bytes() == told.as_bytes(), "{told}");
    match fault_line(report, settings) {
        Some(line) => assert!(rt; line.as_bytes() == fault.as_bytes(), "{fault}"),
        None => assert!(rt; fault.is_empty(), "{fault}"),
    }
}

#[test]
fn from_the_words_to_the_status(rt: HostRuntime) -> Result<(), Fail> {
    for (words, output, told, fault, code) in ENDS {
        let settings = settings_from(rt.alloc(), words_of(rt.alloc(), words)?)?;
        let mut room = [0; 10];
        let mut source = SliceSource::new(HELLO, None);
        let mut sink = SliceSink::new(&mut room, None);
        let report = match serve(rt.alloc(), &settings, &mut source, &mut sink) {
            Ok(report) => report,
            Err(NoMemory) => return Err(Fail::new("no memory")),
        };
        assert!(rt; sink.written() == output.as_bytes(), "{output}");
        says(&rt, &report, &settings, told, fault);
        assert_eq!(rt; status(&report), code);
    }
    Ok(())
}

#[test]
fn a_block_that_may_be_refused(rt: HostRuntime) -> Result<(), Fail> {
    match make_block(rt.alloc(), 19) {
        Ok(block) => assert_eq!(rt; block.len(), 19),
        Err(AllocError) => rt.println("a block was refused")?,
    }
    Ok(())
}

#[test]
fn a_run_that_may_be_refused(rt: HostRuntime) -> Result<(), Fail> {
    let Some(settings) = Settings::new(19, 29, false) else {
        return Err(Fail::new("out of range"));
    };
    let mut room = [0; 10];
    let mut source = SliceSource::new(HELLO, None);
    let mut sink = SliceSink::new(&mut room, None);
    match serve(rt.alloc(), &settings, &mut source, &mut sink) {
        Ok(report) => {
            assert_eq!(rt; status(&report), 0);
            assert!(rt; sink.written() == b"hello".as_slice());
        }
        Err(NoMemory) => {
            assert_eq!(rt; source.next(), Next::Byte(b'#'));
            assert!(rt; sink.written().is_empty());
            let line = memory_line(&settings);
            assert!(rt; line.as_bytes() == b"trac: no memory for 19 cells".as_slice());
            rt.println("a run was refused")?;
        }
    }
    Ok(())
}

#[test]
fn words_that_may_be_refused(rt: HostRuntime) -> Result<(), Fail> {
    let words = words_of(rt.alloc(), &["trac", "--cells", "18", "--report"])?;
    match settings_from(rt.alloc(), words) {
        Ok(settings) => assert_eq!(rt; given(&settings), (18, 1_000_000, true)),
        Err(error) => {
            assert_eq!(rt; error.kind(), ErrorKind::OutOfMemory);
            assert_eq!(rt; error_status(error.kind()), 6);
            rt.println("words were refused")?;
        }
    }
    Ok(())
}
