// The machine as functions of numbers and bytes, for a program in another language that compares it with a model.
// Proved of them: they are safe for every input, and end; a transcript is not overrun. What they answer is compared with the
// model's answers. It rests on the calls of `sitting`, `viewing` and `closing`, whose contracts say all that they do.
#![tactic(auto)]

ghost use Rattle.std.specs.Prelude.{◌≤◌, length};

mod calls;
mod engines;
mod script;
mod session;
mod timing;
mod transcript;

use calls::Calls;
use engines::EngineChoice;
use labels::cell::{Cell, Tag, Word};
use orders::named::NamedOrder;
use script::Script;
use session::{CELLS, OUTPUT_PLACES, Session};
use sitting::sitting::Sitting;
use timing::{open_many, run_and_page};
use transcript::Transcript;

// What cells and output places hold before a case.
const UNTOUCHED: Cell = Cell {
    word: Word(0xAAAA_AAAA),
    tag: Tag(0xBBBB),
};

// What a transcript begins with where the image names an order.
const ORDER_FOUND: u8 = 0;

// Makes the calls of a script, and answers how many bytes of the transcript were written, never more than it has.
#[unsafe(no_mangle)]
pub extern "C" fn pump_case(script: &[u8], transcript: &mut [u8]) -> usize
    ensures { result ≤ length transcript.old }
{
    let length = transcript.len();
    let mut transcript = Transcript::new(transcript);
    let _ = run_case(Script::new(script), &mut transcript);
    length.saturating_sub(transcript.room())
}

// None where the script ends too soon, or asks for too much memory.
fn run_case(mut script: Script, transcript: &mut Transcript) -> Option<()> {
    let length = script.short()? as usize;
    let image = script.bytes(length)?;
    let cell_count = script.short()? as usize;
    let place_count = script.short()? as usize;
    let choice = EngineChoice::from(script.byte()?);
    if cell_count > CELLS || place_count > OUTPUT_PLACES {
        return None;
    }
    match Sitting::new().find_order(image) {
        Ok(order) => make_calls(
            script,
            transcript,
            choice,
            order,
            image,
            cell_count,
            place_count,
        ),
        Err(refusal) => {
            transcript.write_refusal(refusal);
            Some(())
        }
    }
}

// The calls in the order of the case, in memory of its own. Not compiled inline, so that no memory is made for a case that
// comes to no call.
#[inline(never)]
fn make_calls(
    script: Script,
    transcript: &mut Transcript,
    choice: EngineChoice,
    order: NamedOrder,
    image: &[u8],
    cell_count: usize,
    place_count: usize,
) -> Option<()> {
    let mut cells = [UNTOUCHED; CELLS];
    let mut outputs = [UNTOUCHED; OUTPUT_PLACES];
    let cells = cells.get_mut(..cell_count)?;
    let outputs = outputs.get_mut(..place_count)?;
    let mut session = Session::new(image, cells, outputs);
    transcript.write_byte(ORDER_FOUND);
    let calls = Calls { script, transcript };
    let ((), counts) = choice.perform(calls, order, &mut session);
    transcript.write_end(&session, counts);
    Some(())
}

// Opens an image so many times, each time in a new sitting, and answers how many were granted.
#[unsafe(no_mangle)]
pub extern "C" fn pump_open_many(image: &[u8], times: u32) -> u32 {
    open_many(image, times)
}

// Opens an image and runs it over the engine of a number, and answers the granted steps; 0 where it is refused.
#[unsafe(no_mangle)]
pub extern "C" fn pump_run(image: &[u8], engine: u8, budget: u32) -> u32 {
    run_and_page(image, EngineChoice::from(engine), budget, 0).map_or(0, |ran| ran.granted)
}

// Opens an image, runs it over a cached flow engine and pages it so many times, and answers the sum of the visible outputs,
// modulo 2^32; 0 where it is refused.
#[unsafe(no_mangle)]
pub extern "C" fn pump_page_many(image: &[u8], budget: u32, times: u32) -> u32 {
    run_and_page(image, EngineChoice::CachedFlow, budget, times).map_or(0, |ran| ran.visible)
}
