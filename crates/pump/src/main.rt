// The program: opens the image on standard input in the order that its header names, runs it, prints what its reader may
// see and how the run went, and closes the sitting. Its record goes to the file that the argument names, if there is one.
#![tactic(auto)]

use anyhow::anyhow;
use closing::close::{RECORD_LENGTH, close};
use closing::record::ClosingRecord;
use image::header::longest_image;
use screen::screen::Screen;
use sitting::sitting::Sitting;
use std::io::Read;
use std::{env, fs};

// Files a record to a path, or strikes it out where there is none.
fn settle(rt: &HostRuntime, record: ClosingRecord, path: Option<String>) -> anyhow::Result<()> {
    let Some(path) = path else {
        record.strike();
        return Ok(());
    };
    let mut slot = [0; RECORD_LENGTH];
    record.file(&mut slot).map_err(|refused| {
        refused.strike();
        anyhow!("the record could not be filed")
    })?;
    fs::write(rt, path.as_str(), &slot)?;
    Ok(())
}

fn run(rt: &HostRuntime) -> anyhow::Result<()> {
    let path = env::args(rt)?.nth(1);
    let mut image = Vec::new(rt.alloc());
    // One byte more than the longest image has is enough to tell that an input is too long.
    let limit = longest_image() as u64 + 1;
    rt.stdin().take(limit).read_to_end(&mut image)?;
    let mut sitting = Sitting::new();
    let screen = Screen::of_sitting(rt.alloc(), &mut sitting, image.as_slice())?;
    println!(rt; "{screen}")?;
    settle(rt, close(sitting), path)
}

fn main(rt: HostRuntime) -> anyhow::Result<()> {
    run(&rt)
}
