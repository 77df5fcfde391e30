//! Shows how your own program uses the engine: it runs one script at once, and another in turns of a few
//! steps. The workspaces are arrays, and the engine takes no memory.
#![tactic(auto)]

ghost use Rattle.std.specs.Prelude.{◌≡◌, ◌+◌, None};

use std::io;
use std::io::Write;
use trac_core::{Cell, Fate, Machine, SliceSink, SliceSource};

const GREETING: &[u8] = b"#(ds,greet,(Hello, NAME!))#(ss,greet,NAME)#(ps,##(cl,greet,Ada))'";

const COUNTING: &[u8] =
    b"#(ds,count,(#(ps,N( ))#(gr,N,9,,(#(cl,count,#(ad,N,1))))))#(ss,count,N)#(cl,count,1)'";

// How many steps a turn takes at most.
const BUDGET: u32 = 150;

fn main(rt: HostRuntime) -> io::Result<()> {
    greet(&rt)?;
    count(&rt)
}

// Runs a machine to the end of its script.
fn greet(rt: &HostRuntime) -> io::Result<()> {
    let mut block = [Cell::Byte(0); 128];
    let mut printed = [0; 32];
    let mut source = SliceSource::new(GREETING, None);
    let mut sink = SliceSink::new(&mut printed, None);
    let report = Machine::over(&mut block, 1000).run(&mut source, &mut sink);
    rt.stdout().write_all(sink.written())?;
    println!(rt; "")?;
    println!(rt;
        "{:?}: {} steps, peak {} cells",
        report.fate, report.steps, report.peak
    )
}

// Runs a machine in turns, between which there is time for other work.
fn count(rt: &HostRuntime) -> io::Result<()> {
    let mut block = [Cell::Byte(0); 256];
    let mut printed = [0; 64];
    let mut source = SliceSource::new(COUNTING, None);
    let mut sink = SliceSink::new(&mut printed, None);
    let mut machine = Machine::over(&mut block, 10_000);
    for turn in 1..=100 {
        let fate = take_turn(&mut machine, &mut source, &mut sink);
        println!(rt;
            "turn {turn}: {} steps, {} bytes printed",
            machine.steps(),
            sink.written().len()
        )?;
        if let Some(fate) = fate {
            rt.stdout().write_all(sink.written())?;
            println!(rt; "")?;
            return println!(rt; "{fate:?}");
        }
    }
    Ok(())
}

// Makes the steps of a turn, or those up to the end of the run.
fn take_turn(machine: &mut Machine, source: &mut SliceSource, sink: &mut SliceSink) -> Option<Fate>
    requires running { machine.old.fate ≡ None }
    requires no_failure { (source.old.failures ≡ 0) × (sink.old.failures ≡ 0) }
    ensures fate { machine.new.fate ≡ result }
    ensures steps { result ≡ None → machine.new.steps ≡ machine.old.steps + 150 }
    ensures no_failure { result ≡ None → (source.new.failures ≡ 0) × (sink.new.failures ≡ 0) }
{
    for _taken in 0..BUDGET {
        if let Some(fate) = machine.step(source, sink) {
            return Some(fate);
        }
    }
    None
}
