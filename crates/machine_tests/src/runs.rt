// Runs over an engine that always gives one verdict.
use crate::always::Always;
use execution::code::Code;
use execution::outcome::End;
use execution::run::run;
use labels::cell::{Cell, Tag};
use machine::machine::Machine;
use machine::progress::Progress;
use rules::query::Verdict;
use rules::violation::Violation;

// What a run of one instruction over and over comes to, with no cells and no output places, and its granted steps.
fn run_one(bits: u32, verdict: Verdict, budget: u32) -> (Result<Progress, End>, u32) {
    let [b0, b1, b2, b3] = bits.to_be_bytes();
    let image = [0x11, 0, 0, 1, 0, 0, 0, 0, 0, 0, b0, b1, b2, b3];
    let mut cells: [Cell; 0] = [];
    let mut outputs: [Cell; 0] = [];
    let mut engine = Always { verdict };
    run(
        &mut Machine::new(),
        &mut engine,
        &Code::new(&image, 1),
        &mut cells,
        &mut outputs,
        budget,
    )
}

// The number of the fault that a run came to, if it came to one.
fn fault_of(outcome: Result<Progress, End>) -> Option<u8> {
    match outcome {
        Err(End::Faulted(fault)) => Some(fault.number()),
        _ => None,
    }
}

// The cause of the violation that a run came to, if it came to one.
fn cause_of(outcome: Result<Progress, End>) -> Option<u8> {
    match outcome {
        Err(End::Violated(violation)) => Some(violation.cause),
        _ => None,
    }
}

#[test]
fn each_fault(rt: HostRuntime) {
    // The instruction, its fault, and the steps granted before it.
    let table = [
        (0x0000_0000, 1, 1),
        (0xE000_0000, 2, 0),
        (0x0000_0001, 2, 0),
        (0x3000_0009, 2, 0),
        (0x4000_0000, 3, 0),
        (0x5000_0000, 3, 0),
        (0x9000_0000, 4, 32),
        (0xA000_0000, 5, 0),
        (0xB000_0000, 6, 0),
    ];
    for (bits, fault, steps) in table {
        let (outcome, granted) = run_one(bits, Ok((Tag(0), Tag(0))), 100);
        assert_eq!(rt; fault_of(outcome), Some(fault));
        assert_eq!(rt; granted, steps);
    }
}

#[test]
fn thirty_two_nested_calls(rt: HostRuntime) {
    let (outcome, granted) = run_one(0x9000_0000, Ok((Tag(0), Tag(0))), 32);
    assert_eq!(rt; fault_of(outcome), None);
    assert_eq!(rt; granted, 32);
    let (outcome, granted) = run_one(0x9000_0000, Ok((Tag(0), Tag(0))), 33);
    assert_eq!(rt; fault_of(outcome), Some(4));
    assert_eq!(rt; granted, 32);
}

#[test]
fn a_violation_keeps_its_cause(rt: HostRuntime) {
    let (outcome, granted) = run_one(0xD000_0000, Err(Violation { cause: 7 }), 5);
    assert_eq!(rt; cause_of(outcome), Some(7));
    assert_eq!(rt; granted, 0);
}

#[test]
fn a_store_and_an_output(rt: HostRuntime) {
    // CONST r1 5, STORE r0 r1, OUT r1, HALT, over one cell and one output place.
    let image = [
        0x11, 0, 0, 4, 0, 1, 0, 0, 0, 0, 0x11, 0, 0, 5, 0, 0, 0x50, 0x01, 0, 0, 0, 0, 0xB0, 0x10,
        0, 0, 0, 0, 0xD0, 0, 0, 0, 0, 0, 0, 0, 0, 0,
    ];
    let mut cells = [Cell::default(); 1];
    let mut outputs = [Cell::default(); 1];
    let mut engine = Always {
        verdict: Ok((Tag(0), Tag(3))),
    };
    let mut machine = Machine::new();
    let (outcome, granted) = run(
        &mut machine,
        &mut engine,
        &Code::new(&image, 4),
        &mut cells,
        &mut outputs,
        100,
    );
    assert!(rt; matches!(outcome, Ok(Progress::Halts)));
    assert_eq!(rt; granted, 4);
    assert_eq!(rt; machine.steps(), 4);
    assert_eq!(rt; machine.pc(), 3);
    assert_eq!(rt; machine.output_count(), 1);
    assert_eq!(rt; cells[0].word.0, 5);
    assert_eq!(rt; outputs[0].word.0, 5);
    assert_eq!(rt; outputs[0].tag.0, 3);
}
