//! The line and the status of runs that were worked by hand.
use super::{AMPLE, Ended, Faults, HELLO, LOOP, MANY, NO_FAULTS, OUTPUT, SHOWN, faulty, outcome};
use std::process::Abort;
use trac_command::{Settings, fault_line, memory_line, status};
use trac_core::{Fate, Report};

/// The settings of a run that may make this number of steps.
fn settings(cells: usize, steps: u64) -> Option<Settings> {
    Settings::new(u32::try_from(cells).ok()?, steps, false)
}

/// A run in this number of cells ends with this line and this status.
fn told(rt: &impl Abort, got: &Ended, cells: usize, steps: u64, line: &str, code: u8) {
    let Some(settings) = settings(cells, steps) else {
        assert!(rt; false, "{line}");
        return;
    };
    match fault_line(&got.report, &settings) {
        Some(fault) => assert!(rt; fault.as_bytes() == line.as_bytes(), "{line}"),
        None => assert!(rt; line.is_empty(), "{line}"),
    }
    assert_eq!(rt; status(&got.report), code, "{line}");
}

#[test]
fn lines_of_runs(rt: HostRuntime) {
    let rows = [
        (HELLO, 19, MANY, "", 0),
        ("#(hl)'", AMPLE, MANY, "", 0),
        (
            "",
            10,
            MANY,
            "trac: workspace of 10 cells full at step 1",
            1,
        ),
        (
            HELLO,
            18,
            MANY,
            "trac: workspace of 18 cells full at step 9",
            1,
        ),
        (
            "#(ds,A,b)'",
            16,
            MANY,
            "trac: workspace of 16 cells full at step 9",
            1,
        ),
        (
            SHOWN,
            36,
            MANY,
            "trac: workspace of 36 cells full at step 19",
            1,
        ),
        (HELLO, AMPLE, 18, "trac: allowance of 18 steps used up", 3),
        (
            LOOP,
            AMPLE,
            1000,
            "trac: allowance of 1000 steps used up",
            3,
        ),
    ];
    for (script, cells, steps, line, code) in rows {
        let got = outcome(script.as_bytes(), cells, steps);
        told(&rt, &got, cells, steps, line, code);
    }
}

#[test]
fn lines_of_an_input_that_failed(rt: HostRuntime) {
    let rows = [
        ("#(p", 3, AMPLE, "trac: input failed at step 9", 4),
        ("#(p", 3, 11, "trac: input failed at step 9", 4),
        (
            "#(ps",
            4,
            11,
            "trac: workspace of 11 cells full at step 9",
            1,
        ),
        (HELLO, 12, AMPLE, "trac: input failed at step 29", 4),
    ];
    for (script, place, cells, line, code) in rows {
        let faults = Faults {
            source: Some(place),
            ..NO_FAULTS
        };
        told(
            &rt,
            &faulty(script.as_bytes(), faults, cells),
            cells,
            MANY,
            line,
            code,
        );
    }
}

#[test]
fn lines_of_an_output_that_failed(rt: HostRuntime) {
    let rows = [
        (HELLO, 2, None, "trac: output failed at step 19"),
        (HELLO, 5, Some(1), "trac: output failed at step 19"),
        (SHOWN, 4, None, "trac: output failed at step 33"),
        (SHOWN, 8, Some(1), "trac: output failed at step 33"),
    ];
    for (script, taken, flush, line) in rows {
        let faults = Faults {
            source: None,
            taken,
            flush,
        };
        told(
            &rt,
            &faulty(script.as_bytes(), faults, AMPLE),
            AMPLE,
            MANY,
            line,
            5,
        );
    }
}

#[test]
fn lines_at_the_ends_of_their_numbers(rt: HostRuntime) {
    let Some(settings) = settings(65_536, MANY) else {
        assert!(rt; false);
        return;
    };
    let line = memory_line(&settings);
    assert!(rt; line.as_bytes() == b"trac: no memory for 65536 cells".as_slice());
    let last = Ended {
        report: Report {
            fate: Fate::InputFailed,
            steps: u64::MAX,
            peak: 0,
        },
        room: [0; OUTPUT],
        len: 0,
    };
    let line = "trac: input failed at step 18446744073709551616";
    told(&rt, &last, 65_536, MANY, line, 4);
}
