//! Prints that come one after the other, without a heading or a failure of cargo between them.

ghost use Rattle.std.specs.Prelude.{◌≡◌, ◌<◌, ◌++◌, ◌∷◌, [], IfOk, OnOk, map, string_bytes};
ghost use Rattle.test_report_run.specs.Prints.{cut, last_from, last_three, last_view, no_prints, prints_view, text_from, with_print};

use crate::cuts::shortened;
use crate::error::{RunError, one_more};
use crate::longest_end::LongestEnd;
use std::alloc::{AllocError, Global};

/// How many of the last prints that are not blank are kept besides.
const LAST_PRINTS: usize = 3;

/// A print that is not blank.
#[derive(Drop)]
pub(crate) struct LastPrint {
    /// The number of prints that came before it.
    place: usize,

    /// Its first 200 bytes.
    line: String,
}

/// Prints that come one after the other: the longest end of them that fits, and the last three that are not blank.
#[derive(Drop)]
pub(crate) struct Prints {
    count: usize,
    kept: LongestEnd,
    last: Vec<LastPrint>,
}

impl Prints {
    /// Returns no prints.
    pub(crate) fn new(alloc: Global) -> Prints
        ensures { prints_view result ≡ no_prints }
    {
        Prints {
            count: 0,
            kept: LongestEnd::new(alloc),
            last: Vec::new(alloc),
        }
    }

    /// Returns the number of prints.
    pub(crate) fn count(&self) -> usize
        ensures { result ≡ (prints_view self.now).count }
    {
        self.count
    }

    /// Takes the next print. Fails if memory runs out, or the number of prints does not fit.
    pub(crate) fn take_print(&mut self, alloc: Global, line: &str) -> Result<(), RunError>
        ensures takes { OnOk result (prints_view self.new ≡ with_print (prints_view self.old) line.now) }
    {
        self.kept.take_line(alloc, line)?;
        if !line.trim().is_empty() {
            self.push_last(alloc, line)?;
        }
        self.count = one_more(self.count)?;
        Ok(())
    }

    /// Keeps a print that is not blank among the last three.
    fn push_last(&mut self, alloc: Global, line: &str) -> Result<(), AllocError>
        ensures { OnOk result (prints_view self.new ≡ record (prints_view self.old) {
          last = last_three ((prints_view self.old).last
              ++ record { place = (prints_view self.old).count; line = cut line.now } ∷ []);
        }) }
    {
        let line = String::from_str(alloc, shortened(line))?;
        let place = self.count;
        self.last.push(LastPrint { place, line })?;
        drop_early(&mut self.last);
        Ok(())
    }

    /// Returns the text of the prints that are kept, from the print on before which `first` others came. Prints are
    /// joined by line feeds.
    pub(crate) fn text_from(&self, alloc: Global, first: usize) -> Result<String, AllocError>
        ensures { IfOk result (λ text. string_bytes text ≡ text_from (prints_view self.now) first) }
    {
        let dropped = self.count.saturating_sub(self.kept.len());
        self.kept.text(alloc, first.saturating_sub(dropped))
    }

    /// Returns the last three prints that are not blank, of those from that print on. Of each print there are at
    /// most 200 bytes.
    pub(crate) fn last_from(&self, alloc: Global, first: usize) -> Result<Vec<String>, AllocError>
        ensures { IfOk result (λ lines. map string_bytes lines.items ≡ last_from (prints_view self.now) first) }
    {
        let mut lines = Vec::new(alloc);
        for print in &self.last {
            if print.place >= first {
                lines.push(print.line.clone()?)?;
            }
        }
        Ok(lines)
    }
}

/// Drops all prints but the last three.
fn drop_early(prints: &mut Vec<LastPrint>)
    ensures { map last_view prints.new.items ≡ last_three (map last_view prints.old.items) }
{
    while prints.len() > LAST_PRINTS {
        prints.remove(0);
    }
}
