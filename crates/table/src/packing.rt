// A verdict in a row of 32 bits, and back: cause 4 bits, next pc tag 14, result tag 14.
// It is packed by hand, since the rows are numbers of 32 bits that the caller lends.
ghost use Rattle.std.specs.Prelude.{◌≡◌, ◌/◌, ◌%◌, ◌^◌};
ghost use Rattle.labels.specs.Order.{tag};
ghost use Rattle.table.specs.Packing.{pack, unpack};

use labels::cell::Tag;
use rules::query::Verdict;
use rules::violation::Violation;

// How many tags fit a field of a row.
const TAGS: u32 = 1 << 14;

pub(crate) fn packed(verdict: Verdict) -> u32
    ensures { result ≡ pack verdict }
{
    match verdict {
        Ok((next, result)) => next.0 as u32 % TAGS * TAGS + result.0 as u32 % TAGS,
        Err(violation) => (violation.cause as u32) << 28,
    }
}

fn next_tag(row: u32) -> Tag
    ensures { result ≡ tag (row / 2 ^ 14 % 2 ^ 14) }
{
    Tag((row / TAGS % TAGS) as u16)
}

fn result_tag(row: u32) -> Tag
    ensures { result ≡ tag (row % 2 ^ 14) }
{
    Tag((row % TAGS) as u16)
}

pub(crate) fn unpacked(row: u32) -> Verdict
    ensures { result ≡ unpack row }
{
    let cause = (row >> 28) as u8;
    if cause > 0 {
        return Err(Violation { cause });
    }
    Ok((next_tag(row), result_tag(row)))
}
