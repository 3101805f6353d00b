//! The commands that an unknown one may stand for, as `clap` finds them for the whole program.
use crate::pages::COMMANDS;
use std::alloc::{AllocError, Global};
use strsim::jaro;

/// How alike a word and a command are, at the least, for the command to be suggested.
const ALIKE: f64 = 0.7;

/// The commands that are like a word, each after those that are less so, and how alike they are.
pub fn similar_commands(alloc: Global, word: &str) -> Result<Vec<(f64, &'static str)>, AllocError> {
    let mut similar = Vec::new(alloc);
    for command in &COMMANDS {
        add_if_like(alloc, &mut similar, word, command)?;
    }
    Ok(similar)
}

fn add_if_like(
    alloc: Global,
    similar: &mut Vec<(f64, &'static str)>,
    word: &str,
    command: &'static str,
) -> Result<(), AllocError> {
    let likeness = jaro(alloc, word, command)?;
    if likeness > ALIKE {
        let place = place_of(similar.as_slice(), likeness).min(similar.len());
        similar.insert(place, (likeness, command))?;
    }
    Ok(())
}

// After those that are not more alike.
fn place_of(similar: &[(f64, &'static str)], likeness: f64) -> usize {
    let mut place = 0usize;
    for (other, _) in similar {
        if *other > likeness {
            break;
        }
        place = place.saturating_add(1);
    }
    place
}
