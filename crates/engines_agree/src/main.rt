// Asks all engines the same queries, for every order of at most 8 labels, and prints how often one differs from the flow rules.
#![tactic(auto)]

ghost use Rattle.rules.specs.Book.{Book};
ghost use Rattle.table.specs.Table.{book_of};
ghost use Rattle.rules.specs.Flow.{flow};
ghost use Rattle.rules.specs.Engines.{MeansBy, flow_book};
ghost use Rattle.cache.specs.RuleCache.{Means};

use cache::flow_cache::flow_cache;
use cache::rule_cache::RuleCache;
use labels::cell::Tag;
use labels::name::{OrderName, Parameters};
use labels::order::Order;
use orders::named::NamedOrder;
use rules::engine::Engine;
use rules::flow::judge;
use rules::flow_engine::FlowEngine;
use rules::query::Query;
use std::io;
use table::compile::compile;
use table::table::{Table, row_count};

// Classes 0 to 15, and each of the six tags one of four.
const QUERIES: u32 = 16 * 4096;

// How many rows the greatest table has.
const MOST_ROWS: usize = 14_056;

// The query of a number, most significant first: the class and then the tags.
fn query(number: u32, tags: &[Tag; 4]) -> Query {
    Query {
        class: (number / 4096 % 16) as u8,
        pc: tags[(number / 1024 % 4) as usize],
        instruction: tags[(number / 256 % 4) as usize],
        d: tags[(number / 64 % 4) as usize],
        a: tags[(number / 16 % 4) as usize],
        b: tags[(number / 4 % 4) as usize],
        memory: tags[(number % 4) as usize],
    }
}

// Asks each query twice, so that a cache can hit, and counts the answers that are not the flow rules'. Both are asked at one
// place in the code, where an engine's call is compiled inline.
fn differences<O: Order, E: Engine>(order: &O, engine: &mut E, tags: &[Tag; 4]) -> u32 {
    let mut count = 0u32;
    for number in 0..QUERIES {
        let query = query(number, tags);
        let expected = judge(order, &query);
        for _ in 0..2u32 {
            if engine.ask(query) != expected {
                count += 1;
            }
        }
    }
    count
}

// How many queries are granted, and how many have each cause.
fn verdicts<O: Order>(order: &O, tags: &[Tag; 4]) -> [u32; 16] {
    let mut counts = [0u32; 16];
    for number in 0..QUERIES {
        let cause = match judge(order, &query(number, tags)) {
            Ok(_) => 0,
            Err(violation) => violation.cause,
        };
        counts[cause as usize] += 1;
    }
    counts
}

// A cache over a table means what the table means.
fn cached_table<'a>(table: Table<'a>) -> RuleCache<Table<'a>>
    ensures { (b : Book) → MeansBy book_of table.entry b → Means (MeansBy book_of) result b }
{
    RuleCache::new(table)
}

// A cache over a cache means the flow rules too.
fn twice_cached<O: Order>(order: O) -> RuleCache<RuleCache<FlowEngine<O>>>
    ensures { Means (Means (MeansBy (flow_book O.meaning))) result (flow (O.meaning order)) }
{
    RuleCache::new(flow_cache(order))
}

// Compares the engines over an order of at most 8 labels; of any other it prints nothing. The rows are lent, so that no order
// is left out for want of memory.
fn report<O: Order + Copy>(rt: &HostRuntime, order: O, rows: &mut [u32]) -> io::Result<()> {
    let bound = order.bound();
    if !(1..=8).contains(&bound) {
        return Ok(());
    }
    let labels = bound as u8;
    let Ok(count) = row_count(labels) else {
        return rt.println("no row count");
    };
    let Some(rows) = rows.get_mut(..count) else {
        return rt.println("too few rows");
    };
    let Ok(()) = compile(&order, rows) else {
        return rt.println("compiling refused");
    };
    let Ok(mut table) = Table::new(labels, rows) else {
        return rt.println("table refused");
    };
    let Ok(below) = Table::new(labels, rows) else {
        return rt.println("table refused");
    };
    let tags = [Tag(0), Tag(1), Tag(labels as u16 - 1), Tag(labels as u16)];
    let mut cached = flow_cache(order);
    let by_flow = differences(&order, &mut FlowEngine::new(order), &tags);
    let by_table = differences(&order, &mut table, &tags);
    let by_cache = differences(&order, &mut cached, &tags);
    let by_cached_table = differences(&order, &mut cached_table(below), &tags);
    let by_two_caches = differences(&order, &mut twice_cached(order), &tags);
    let [grants, one, two, three, four, ..] = verdicts(&order, &tags);
    let counts = cached.counts();
    let kind = O::KIND;
    let own = order.parameters();
    println!(rt;
        "order {kind} {} {}: {grants} grants, causes {one} {two} {three} {four}, cache hits {} misses {}",
        own.p, own.q, counts.hits, counts.misses
    )?;
    println!(rt; "differences: {by_flow} {by_table} {by_cache} {by_cached_table} {by_two_caches}")
}

// Compares the engines over the order of each name: twelve bits, the kind first.
fn run(rt: &HostRuntime) -> io::Result<()> {
    let mut rows = [0u32; MOST_ROWS];
    for bits in 0..4096u16 {
        let name = OrderName {
            kind: (bits / 256) as u8,
            parameters: Parameters {
                p: (bits / 16 % 16) as u8,
                q: (bits % 16) as u8,
            },
        };
        // An arm for each make of order, since no closure is generic in a type.
        match NamedOrder::try_from(name) {
            Ok(NamedOrder::TwoPoint(order)) => report(rt, order, &mut rows)?,
            Ok(NamedOrder::BarredSets(order)) => report(rt, order, &mut rows)?,
            Ok(NamedOrder::Clearances(order)) => report(rt, order, &mut rows)?,
            Err(_) => {}
        }
    }
    Ok(())
}

fn main(rt: HostRuntime) -> io::Result<()> {
    run(&rt)
}
