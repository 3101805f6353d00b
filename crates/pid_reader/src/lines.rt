//! A text entry by entry, without taking memory.
ghost use Rattle.std.specs.Prelude.{◌+◌, ◌<◌, ◌^◌, length, []};

use crate::line_fault::LineFault;
use crate::pieces::first_line;
use pid_file::{Entry, LineContent, OpenLevels, read_line, without_cr};

/// The entries of a text, line by line, up to the first line that has a fault of its own (a kind
/// from NotUtf8 to BadName): that fault is the last item.
///
/// Whether a path comes twice, and whether the vendor of a block of generic subsystems is there, is
/// left to `read_ids`, `Feeder` and `Cutter`.
#[derive(Clone, Copy)]
pub struct Lines<'a> {
    rest: &'a [u8],
    levels: OpenLevels,
    number: usize,
    ghost few: { number + length rest.now < 2 ^ 63 },
}

impl<'a> Lines<'a> {
    ghost use Rattle.pid_file.specs.Lines.{lines_of};
    ghost use Rattle.pid_reader.specs.LinesLeft.{HasLeft, told_from};

    /// The entries of this text.
    pub fn new(text: &'a [u8]) -> Lines<'a>
        ensures { HasLeft result (told_from [] (lines_of text.now)) }
    {
        Lines {
            rest: text,
            levels: OpenLevels::Nothing,
            number: 0,
        }
    }
}

impl<'a> Iterator for Lines<'a> {
    ghost use Rattle.std.specs.Prelude.{length};
    ghost use Rattle.std.specs.Iterator.{at_most};
    ghost use Rattle.pid_reader.specs.LinesLeft.{Gives};

    type Item = Result<Entry<'a>, LineFault>;

    ghost next_gives = { Gives };

    ghost remaining = { λ s. at_most (length s.rest.now) };

    fn next(&mut self) -> Option<Result<Entry<'a>, LineFault>> {
        while let Some((piece, rest)) = first_line(self.rest) {
            let line = self.number + 1;
            match read_line(self.levels, without_cr(piece)) {
                Err(kind) => {
                    let (_, none) = self.rest.split_at(self.rest.len());
                    self.rest = none;
                    return Some(Err(LineFault { line, kind }));
                }
                Ok(said) => {
                    self.rest = rest;
                    self.levels = self.levels.after(&said);
                    self.number = line;
                    if let LineContent::Entry(named) = said {
                        return Some(Ok(Entry {
                            line,
                            path: named.path,
                            name: named.name,
                        }));
                    }
                }
            }
        }
        None
    }
}
