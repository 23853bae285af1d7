// Whether all variants of a file give the same.
use crate::feeding::variant;
use crate::sheet::Sheet;
use compaction::{Scale, compact};
use std::alloc::{AllocError, Global};
use std::fmt;

const VARIANTS: u64 = 20;

// A pair is handed in once to so many times.
const MOST_COPIES: u64 = 5;

#[derive(Clone, Copy)]
enum Verdict {
    Same,
    Different,
    Refused,
}

impl fmt::Display for Verdict {
    fn fmt<W: fmt::Write>(&self, f: &mut fmt::Formatter<W>) -> fmt::Result {
        f.write_str(match self {
            Verdict::Same => "same",
            Verdict::Different => "DIFFERENT",
            Verdict::Refused => "REFUSED",
        })
    }
}

#[derive(Clone, Copy)]
pub struct Trial {
    variants: u64,
    bytes: usize,
    verdict: Verdict,
}

impl fmt::Display for Trial {
    fn fmt<W: fmt::Write>(&self, f: &mut fmt::Formatter<W>) -> fmt::Result {
        let Trial {
            variants,
            bytes,
            verdict,
        } = self;
        write!(f, "{variants} variants, {bytes} bytes each, {verdict}")
    }
}

fn printed(heap: Global, text: &str) -> Result<Vec<u8>, AllocError> {
    compact(heap, Scale::Small, text.as_bytes())
}

// Whether `compact` prints these bytes for the variant of the seed.
fn agrees(heap: Global, sheet: &Sheet, seed: u64, expected: &[u8]) -> Result<bool, AllocError> {
    let copies = 1 + seed % MOST_COPIES;
    let text = variant(heap, sheet, copies as usize, seed)?;
    let output = printed(heap, text.as_str())?;
    Ok(output.as_slice() == expected)
}

fn verdict_on(heap: Global, sheet: &Sheet, expected: &[u8]) -> Result<Verdict, AllocError> {
    // a fault is not what the trial is about
    if !expected.starts_with(b"p") {
        return Ok(Verdict::Refused);
    }
    for seed in 0..VARIANTS {
        if !agrees(heap, sheet, seed, expected)? {
            return Ok(Verdict::Different);
        }
    }
    Ok(Verdict::Same)
}

// Runs `compact` on a file and on its variants.
pub(crate) fn try_variants(heap: Global, text: &str) -> Result<Trial, AllocError> {
    let sheet = Sheet::of(heap, text)?;
    let expected = printed(heap, text)?;
    let verdict = verdict_on(heap, &sheet, expected.as_slice())?;
    Ok(Trial {
        variants: VARIANTS,
        bytes: expected.len(),
        verdict,
    })
}
