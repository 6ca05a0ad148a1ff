//! The word that was meant by another one.
use std::alloc::Global;
use strsim::osa_distance;

/// The maximum number of bytes of a word that is compared with others.
const LONGEST: usize = 40;

// Checks whether so many edits leave at least 60 % of the longer one of two words as it is.
fn is_like(edits: usize, word: &str, other: &str) -> bool {
    edits.saturating_mul(5) <= word.len().max(other.len()).saturating_mul(2)
}

/// Returns the one of `words` from which the fewest edits lead to `word`. An edit adds, removes or changes a character, or
/// swaps two neighbours. Returns `None` if no word is like it, or memory runs out.
pub(crate) fn nearest<'a>(alloc: Global, word: &str, words: &[&'a str]) -> Option<&'a str> {
    if word.len() > LONGEST {
        return None;
    }
    let mut found = None;
    let mut least = usize::MAX;
    for other in words {
        let edits = osa_distance(alloc, word, other).ok()?;
        if edits < least && is_like(edits, word, other) {
            found = Some(*other);
            least = edits;
        }
    }
    found
}
