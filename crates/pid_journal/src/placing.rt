//! Where in a journal a registry stands.
ghost use Rattle.std.specs.Prelude.{◌≡◌, ◌<◌, ◌≤◌, IfOk, MatchResult};
ghost use Rattle.pid_file.specs.WholeLines.{whole_lines};
ghost use Rattle.pid_journal.specs.Steps.Comparing.{Compares, ComparesLine};
ghost use Rattle.pid_journal.specs.Steps.Places.{FindsPlace, IsEndOf, IsSaid, IsNextPlace};
ghost use Rattle.pid_journal.specs.Steps.Reads.{OfText, OnlyReads, left_in};

use crate::counts::{Counts, counts_said};
use crate::folder::JournalFolder;
use crate::open_fault::OpenFault;
use crate::segment_text::SegmentText;
use pid_moderation::Refusal;
use pid_reader::without_cr;
use pid_script::is_idle;
use std::alloc::{AllocError, Global};

/// What a line says of what was held.
#[derive(Clone, Copy)]
pub enum LineCounts {
    Holds(Counts),
    /// Nothing: another comment, or an empty line.
    Nothing,
    /// Nothing, and it is no comment.
    Other,
}

/// A place between two lines.
#[derive(Clone, Copy)]
pub struct Place {
    /// A comment above it says what was held, and no command is in between.
    pub noted: bool,
    /// The greatest revision that a registry may have that stands here.
    pub most: u64,
}

/// The place of a registry: at a comment, or after a line; or it has none in this journal. No journal
/// has a command below no comment.
#[derive(Clone, Copy)]
pub enum Step {
    Here,
    Behind(Place),
    Nowhere,
    Unnoted,
}

fn said_by(alloc: Global, line: &[u8]) -> Result<LineCounts, AllocError>
    ensures { IfOk result (IsSaid line.now) }
{
    if !is_idle(line) {
        return Ok(LineCounts::Other);
    }
    match counts_said(alloc, line)? {
        Some(counts) => Ok(LineCounts::Holds(counts)),
        None => Ok(LineCounts::Nothing),
    }
}

// The place of a registry with these counts, by what the next line says.
fn judge_line(said: LineCounts, now: Counts, place: Place) -> Step
    ensures next { IsNextPlace said now place result }
    ensures compared { ComparesLine said now place result }
{
    match said {
        LineCounts::Holds(counts) => {
            if counts.revision < now.revision {
                let most = counts.revision;
                return Step::Behind(Place { noted: true, most });
            }
            if counts == now {
                Step::Here
            } else {
                Step::Nowhere
            }
        }
        LineCounts::Nothing => Step::Behind(place),
        LineCounts::Other => {
            if !place.noted {
                return Step::Unnoted;
            }
            if now.revision <= place.most {
                return Step::Nowhere;
            }
            let most = place.most + 1;
            Step::Behind(Place { noted: false, most })
        }
    }
}

// The end of all lines as the place of a registry with these counts.
fn end_place(place: Place, now: Counts) -> Result<(), OpenFault>
    ensures { MatchResult result (λ x. now.revision ≤ place.most)
        (λ fault. (fault ≡ OpenFault.Newer) × (place.most < now.revision)) }
{
    if place.most < now.revision {
        return Err(OpenFault::Newer);
    }
    Ok(())
}

/// Takes the lines of a segment, which begins at a revision, up to the place where a registry with
/// these counts stands: that of a comment, or the end of them all.
pub fn find_place<F: JournalFolder>(
    alloc: Global,
    folder: &mut F,
    text: &mut SegmentText,
    now: Counts,
    begin: u64,
) -> Result<(), OpenFault>
    ensures reads { OnlyReads F.JournalFolder folder.old folder.new text.old text.new }
    ensures parts { IfOk result (λ x. OfText F.JournalFolder folder.old text.old (λ all.
        IsEndOf (left_in text.old all) (left_in text.new all))) }
    ensures found { OfText F.JournalFolder folder.old text.old (λ all.
        FindsPlace (left_in text.old all) now begin result (λ x. left_in text.new all)) }
    ensures compared { OfText F.JournalFolder folder.old text.old (λ all.
        Compares now begin (whole_lines (left_in text.old all)) result) }
{
    let mut line = Vec::new(alloc);
    let mut place = Place {
        noted: false,
        most: begin,
    };
    for _turn in 0..u64::MAX {
        let whole = match text.take_line(folder, &mut line) {
            Ok(whole) => whole,
            Err(refusal) => return Err(OpenFault::Refused(refusal)),
        };
        if !whole {
            return end_place(place, now);
        }
        let Ok(said) = said_by(alloc, without_cr(&line)) else {
            return Err(OpenFault::Refused(Refusal::Memory));
        };
        match judge_line(said, now, place) {
            Step::Here => return Ok(()),
            Step::Behind(next) => place = next,
            Step::Nowhere => return Err(OpenFault::Another),
            Step::Unnoted => return Err(OpenFault::Refused(Refusal::Store)),
        }
    }
    Err(OpenFault::Refused(Refusal::Store))
}
