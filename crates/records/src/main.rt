// Prints the closing record of a sitting in each of its states, filed once and copied once.
#![tactic(auto)]

use closing::close::{RECORD_LENGTH, close};
use closing::record::{ClosingRecord, RefusedFiling};
use labels::cell::Cell;
use labels::refusal::Refusal;
use orders::two_point::TwoPoint;
use rules::flow_engine::FlowEngine;
use sitting::sitting::Sitting;
use std::fmt;

// Two-point images of one cell, with a secret in it.
// CONST 1, 0; LOAD 2, 1; BNZ 2, 4; NOP; HALT: halts at pc 4 under the pc tag 1.
const HALTS: &[u8; 44] =
    b"\x11\x00\x00\x05\x00\x01\x00\x00\x00\x00\x11\x00\x00\x00\x00\x00\x42\x10\x00\x00\x00\x00\x70\x20\x00\x04\x00\x00\x00\x00\x00\x00\x00\x00\xd0\x00\x00\x00\x00\x01\x00\x00\x00\x2a";

// CONST 1, 9; LOAD 2, 1; HALT: there is no cell 9, which is fault 3.
const FAULTS: &[u8; 32] =
    b"\x11\x00\x00\x03\x00\x01\x00\x00\x00\x00\x11\x00\x00\x09\x00\x00\x42\x10\x00\x00\x00\x00\xd0\x00\x00\x00\x00\x01\x00\x00\x00\x2a";

// LOAD 2, 1; JUMP 2 under the tag of the secret; at pc 2 CONST 3, 0 would raise a visible register's tag: violation 2.
const VIOLATES: &[u8; 32] =
    b"\x11\x00\x00\x03\x00\x01\x00\x00\x00\x00\x42\x10\x00\x00\x00\x00\x60\x20\x00\x00\x00\x00\x13\x00\x00\x00\x00\x01\x00\x00\x00\x02";

// Files a record, and strikes it out where the slot has another length.
fn file(record: ClosingRecord, slot: &mut [u8]) -> Result<(), Refusal> {
    record.file(slot).map_err(RefusedFiling::strike)
}

// The record of a sitting that was opened with an image and run with a budget.
fn record_of(image: &[u8], budget: u32) -> Result<[u8; RECORD_LENGTH], Refusal> {
    let mut engine = FlowEngine::new(TwoPoint);
    let mut cells = [Cell::default()];
    let mut outputs = [Cell::default()];
    let mut sitting = Sitting::new();
    sitting.open(&TwoPoint, image, &mut cells, &outputs)?;
    sitting.run(&mut engine, budget, image, &mut cells, &mut outputs)?;
    let record = close(sitting);
    let mut slot = [0; RECORD_LENGTH];
    file(record, &mut slot)?;
    Ok(slot)
}

// Bytes as pairs of hexadecimal digits, each behind a space.
#[derive(Clone, Copy)]
struct Pairs<'a>(&'a [u8]);

impl fmt::Display for Pairs<'_> {
    fn fmt<W: fmt::Write>(&self, f: &mut fmt::Formatter<W>) -> fmt::Result {
        for byte in self.0 {
            write!(f, " {byte:02x}")?;
        }
        Ok(())
    }
}

fn print_records(rt: &HostRuntime, name: &str, image: &[u8], budget: u32) -> anyhow::Result<()> {
    let slot = record_of(image, budget)?;
    let copy = slot;
    println!(rt; "{name}:{}", Pairs(&slot))?;
    println!(rt; "copy:{}", Pairs(&copy))?;
    Ok(())
}

// Files a new sitting's record into a slot.
fn print_filing(rt: &HostRuntime, slot: &mut [u8]) -> anyhow::Result<()> {
    match file(close(Sitting::new()), slot) {
        Ok(()) => println!(rt; "filed")?,
        Err(refusal) => println!(rt; "refused {refusal}")?,
    }
    println!(rt; "slot:{}", Pairs(slot))?;
    Ok(())
}

fn run(rt: &HostRuntime) -> anyhow::Result<()> {
    print_filing(rt, &mut [0xee; 11])?;
    print_filing(rt, &mut [0xee; 12])?;
    print_filing(rt, &mut [0xee; 13])?;
    print_records(rt, "running", HALTS, 3)?;
    print_records(rt, "halted", HALTS, 100)?;
    print_records(rt, "faulted", FAULTS, 100)?;
    print_records(rt, "violated", VIOLATES, 100)
}

fn main(rt: HostRuntime) -> anyhow::Result<()> {
    run(&rt)
}
