// Making the lines, reading one, and lending one to be rewritten.
ghost use Rattle.std.specs.Prelude.{◌≡◌, ◌<◌, slice_index_or};
ghost use Rattle.std.specs.Borrow.{sem, follows};
ghost use Rattle.cache.specs.Line.{empty};
ghost use Rattle.cache.specs.Lines.{with_record, all_alike};
ghost use Rattle.cache.specs.contracts.lines.Lines.{the_row};
ghost use Rattle.cache.specs.contracts.line.Line.{the_row as line_row};

use super::Lines;
use crate::line::Line;

impl Lines {
    pub(crate) fn new() -> Lines
        ensures { result ≡ all_alike empty }
    {
        Lines {
            all: [Line { held: None }; 64],
        }
    }

    pub(crate) fn at(&self, number: usize) -> &Line
        requires { number < 64 }
        ensures { result.now ≡ slice_index_or self.now.all number empty }
    {
        &self.all[number]
    }

    // The line at a number, lent to be rewritten.
    pub(crate) fn lend(&mut self, number: usize) -> &mut Line
        requires { number < 64 }
        ensures* { sem 𝓛 (follows the_row line_row self.entry.ghost_name result.ghost_name (with_record self.old number)) }
    {
        &mut self.all[number]
    }
}
