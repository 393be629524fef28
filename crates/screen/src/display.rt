// The lines that are printed of a screen.
ghost use Rattle.std.specs.Prelude.{Some};
ghost use Rattle.screen.specs.Text.{report_text};

use crate::screen::Screen;
use crate::session::Report;
use std::fmt;

// A line for each visible output, and how the sitting went; or why it was refused.
impl fmt::Display for Screen {
    fn fmt<W: fmt::Write>(&self, f: &mut fmt::Formatter<W>) -> fmt::Result {
        let report = match &self.report {
            Ok(report) => report,
            Err(refusal) => return write!(f, "refused {refusal}"),
        };
        for output in self.page.iter().take(report.page.outputs) {
            let word = output.word.0;
            let tag = output.tag.0;
            writeln!(f, "out {word} {tag}")?;
        }
        write!(f, "{report}")
    }
}

// The end mark, and how the sitting and the cache stand.
impl fmt::Display for Report {
    ghost output = { λ report. Some (report_text report) };

    fn fmt<W: fmt::Write>(&self, f: &mut fmt::Formatter<W>) -> fmt::Result {
        if self.page.end_mark {
            writeln!(f, "end")?;
        }
        let state = self.state;
        let pc = self.pc;
        let steps = self.steps;
        writeln!(f, "{state} pc {pc} steps {steps}")?;
        let hits = self.cache.hits;
        let misses = self.cache.misses;
        write!(f, "cache hits {hits} misses {misses}")
    }
}
