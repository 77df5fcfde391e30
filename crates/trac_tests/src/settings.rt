//! Settings at the ends of their ranges and past them.
use trac_command::Settings;

#[test]
fn settings_out_of_range(rt: HostRuntime) {
    for (cells, steps) in [(0, 1), (16_777_217, 1), (1, 0), (1, 1_000_000_000_001)] {
        assert!(rt;
            Settings::new(cells, steps, false).is_none(),
            "{cells} {steps}"
        );
    }
}

#[test]
fn settings_in_range(rt: HostRuntime) {
    for (cells, steps, report) in [(1, 1, false), (16_777_216, 1_000_000_000_000, true)] {
        let given = Settings::new(cells, steps, report).map(|settings| (
            settings.cells,
            settings.steps,
            settings.report,
        ));
        assert_eq!(rt; given, Some((cells, steps, report)));
    }
}
