//! Forms from outside: machines whose forms are defined and removed without a step.
use std::process::Abort;
use trac_core::{Cell, Fate, Item, Machine, Refused, SliceSink, SliceSource};

/// Runs a machine over these bytes, from where it stands, and wants this printed.
fn prints(rt: &impl Abort, machine: &mut Machine, script: &[u8], printed: &[u8]) {
    let mut room = [0; 20];
    let mut source = SliceSource::new(script, None);
    let mut sink = SliceSink::new(&mut room, None);
    let report = machine.resume(&mut source, &mut sink);
    assert_eq!(rt; report.fate, Fate::InputEnded);
    assert!(rt; sink.written() == printed);
}

#[test]
fn a_form_of_codes_is_called(rt: HostRuntime) {
    let mut block = [Cell::Byte(0); 60];
    let mut machine = Machine::over(&mut block, 1000);
    assert_eq!(rt; machine.define(b"F", &[97, 256, 98, 257], 2), Ok(()));
    assert_eq!(rt; machine.size(), 8);
    assert_eq!(rt; machine.peak(), 0);
    assert_eq!(rt; machine.find(b"F"), Some(0));
    let Some(form) = machine.form(0) else {
        panic!(rt; "no form")
    };
    assert_eq!(rt; form.pointer(), 2);
    assert!(rt; matches!(form.item(1), Some(Item::Gap(1))));
    assert!(rt; matches!(form.item(2), Some(Item::Byte(b'b'))));
    assert!(rt; matches!(form.item(3), Some(Item::Gap(2))));
    prints(&rt, &mut machine, b"#(ps,#(cl,F,x,y))'", b"by");
}

#[test]
fn a_full_block_is_cleared_from_outside(rt: HostRuntime) {
    let mut block = [Cell::Byte(0); 11];
    let mut machine = Machine::over(&mut block, 1000);
    assert_eq!(rt; machine.define_text(b"A", b"1234567"), Ok(()));
    assert_eq!(rt; machine.size(), 11);
    assert_eq!(rt; machine.define_text(b"B", b""), Err(Refused));
    assert_eq!(rt; machine.define_text(b"A", b""), Err(Refused));
    assert_eq!(rt; machine.size(), 11);
    assert!(rt; !machine.delete(b"B"));
    assert!(rt; machine.delete(b"A"));
    assert_eq!(rt; machine.size(), 0);
    assert_eq!(rt; machine.define_text(b"B", b"12345678"), Err(Refused));
    assert_eq!(rt; machine.define_text(b"", b"12345678"), Ok(()));
    assert_eq!(rt; machine.find(b""), Some(0));
    machine.delete_all();
    assert_eq!(rt; machine.size(), 0);
}

#[test]
fn the_older_form_must_fit_beside_the_new_one(rt: HostRuntime) {
    let mut block = [Cell::Byte(0); 15];
    let mut machine = Machine::over(&mut block, 1000);
    assert_eq!(rt; machine.define_text(b"A", b"12345678"), Ok(()));
    assert_eq!(rt; machine.define_text(b"A", b""), Err(Refused));
    assert_eq!(rt; machine.define_text(b"", b""), Ok(()));
    assert_eq!(rt; machine.find(b"A"), Some(0));
    assert!(rt; machine.delete(b"A"));
    assert_eq!(rt; machine.find(b""), Some(0));
    assert_eq!(rt; machine.define_text(b"", b"123456789"), Ok(()));
    assert_eq!(rt; machine.size(), 12);
}

#[test]
fn codes_and_pointers_that_are_none_are_refused(rt: HostRuntime) {
    let mut block = [Cell::Byte(0); 30];
    let mut machine = Machine::over(&mut block, 1000);
    assert_eq!(rt; machine.define(b"F", &[16_777_472], 0), Err(Refused));
    assert_eq!(rt; machine.define(b"F", &[97], 2), Err(Refused));
    assert_eq!(rt; machine.size(), 0);
    assert_eq!(rt; machine.define(b"F", &[16_777_471], 1), Ok(()));
    let Some(form) = machine.form(0) else {
        panic!(rt; "no form")
    };
    assert!(rt; matches!(form.item(0), Some(Item::Gap(16_777_216))));
}

#[test]
fn a_run_that_is_over_stays_over(rt: HostRuntime) {
    let mut block = [Cell::Byte(0); 30];
    let mut machine = Machine::over(&mut block, 1000);
    prints(&rt, &mut machine, b"#(ps,x)'", b"x");
    let report = machine.report();
    machine.set_meta(b';');
    assert_eq!(rt; machine.define_text(b"F", b"f"), Ok(()));
    assert_eq!(rt; machine.report(), report);
    machine.again(1000);
    prints(&rt, &mut machine, b"#(ps,#(cl,F));", b"f");
}
