// The examiner's program: runs two images side by side, and says whether they are alike and how their pages compare.
#![tactic(auto)]

use alike::difference::find_difference;
use anyhow::bail;
use cache::rule_cache::Counts;
use examiner::caches::{ExaminedWithCaches, examine_with_caches};
use examiner::examine::Examined;
use examiner::side::SideSeen;
use image::header::Header;
use itertools::Itertools;
use labels::cell::Cell;
use labels::order::Order;
use labels::refusal::Refusal;
use orders::named::NamedOrder;
use screen::screen::{Screen, cells_wanted, output_places, zero_cells};
use screen::session::{BUDGET, Report};
use std::alloc::{AllocError, Global};
use std::{env, fs};

// What one side is examined in, on the heap.
#[derive(Drop)]
struct Memory {
    cells: Vec<Cell>,
    outputs: Vec<Cell>,
    page: Vec<Cell>,
}

impl Memory {
    // As much as an image wants.
    fn new(heap: Global, image: &[u8]) -> Result<Memory, AllocError> {
        Ok(Memory {
            cells: zero_cells(heap, cells_wanted(image))?,
            outputs: output_places(heap)?,
            page: output_places(heap)?,
        })
    }
}

// What one side came to, as the program pump shows it.
fn screen_of(side: SideSeen, page: Vec<Cell>, cache: Counts) -> Screen {
    let SideSeen {
        sitting,
        page: answer,
    } = side;
    Screen {
        report: answer.map(|shown| Report::new(&sitting, shown, cache)),
        page,
    }
}

// Two texts side by side, line by line.
fn print_columns(rt: &HostRuntime, left: &str, right: &str) -> anyhow::Result<()> {
    for lines in left.lines().zip_longest(right.lines()) {
        let (line, other) = lines.or("", "");
        println!(rt; "{line:<32} | {other}")?;
    }
    Ok(())
}

// Whether the images are alike, or their first difference.
fn print_likeness<O: Order>(
    rt: &HostRuntime,
    order: &O,
    left: &[u8],
    right: &[u8],
) -> anyhow::Result<()> {
    match find_difference(order, left, right) {
        Some(difference) => println!(rt; "not alike: {difference}")?,
        None => println!(rt; "alike to their reader")?,
    }
    Ok(())
}

// Runs both images in an order, and prints whether they are alike, both screens, and how the pages compare.
fn compare_in<O: Order + Copy>(
    rt: &HostRuntime,
    order: O,
    left: &[u8],
    right: &[u8],
) -> anyhow::Result<()> {
    let heap = rt.alloc();
    let mut left_memory = Memory::new(heap, left)?;
    let mut right_memory = Memory::new(heap, right)?;
    let ExaminedWithCaches {
        examined,
        left_counts,
        right_counts,
    } = examine_with_caches(
        order,
        BUDGET,
        left,
        left_memory.cells.as_mut_slice(),
        left_memory.outputs.as_mut_slice(),
        left_memory.page.as_mut_slice(),
        right,
        right_memory.cells.as_mut_slice(),
        right_memory.outputs.as_mut_slice(),
        right_memory.page.as_mut_slice(),
    );
    let Examined {
        left: left_seen,
        right: right_seen,
        comparison,
    } = examined;
    print_likeness(rt, &order, left, right)?;
    let left_screen = screen_of(left_seen, left_memory.page, left_counts);
    let right_screen = screen_of(right_seen, right_memory.page, right_counts);
    let left_text = left_screen.to_string(heap)?;
    let right_text = right_screen.to_string(heap)?;
    print_columns(rt, left_text.as_str(), right_text.as_str())?;
    match comparison {
        Some(comparison) => println!(rt; "{comparison}")?,
        None => println!(rt; "pages not both granted")?,
    }
    Ok(())
}

// The order that an image's header names.
fn order_of(image: &[u8]) -> Result<NamedOrder, Refusal> {
    NamedOrder::try_from(Header::read(image)?.order)
}

// Both images are taken in the order that the left one names. An arm for each make, since no closure is generic in a type.
fn compare_images(rt: &HostRuntime, left: &[u8], right: &[u8]) -> anyhow::Result<()> {
    match order_of(left) {
        Ok(NamedOrder::TwoPoint(order)) => compare_in(rt, order, left, right),
        Ok(NamedOrder::BarredSets(order)) => compare_in(rt, order, left, right),
        Ok(NamedOrder::Clearances(order)) => compare_in(rt, order, left, right),
        Err(refusal) => {
            println!(rt; "left image refused {refusal}")?;
            Ok(())
        }
    }
}

fn run(rt: &HostRuntime) -> anyhow::Result<()> {
    let mut paths = env::args(rt)?.skip(1);
    let (Some(left), Some(right)) = (paths.next(), paths.next()) else {
        bail!("two image files are wanted");
    };
    let left = fs::read(rt, left.as_str())?;
    let right = fs::read(rt, right.as_str())?;
    compare_images(rt, left.as_slice(), right.as_slice())
}

fn main(rt: HostRuntime) -> anyhow::Result<()> {
    run(&rt)
}
