// A file taken apart: the line that may pick the encoder, the number of variables, the pair clauses, and all other clauses.
// It is for files with each clause on a line of its own.
ghost use Rattle.std.specs.Prelude.{◌≡◌};

use std::alloc::{AllocError, Global};

// A clause of two literals on different variables.
#[derive(Clone, Copy)]
pub struct Pair {
    pub x: i32,
    pub y: i32,
}

impl Pair {
    // The same clause, told the other way round.
    pub(crate) fn exchanged(self) -> Pair
        ensures { (result.x ≡ self.y) × (result.y ≡ self.x) }
    {
        Pair {
            x: self.y,
            y: self.x,
        }
    }
}

#[derive(Drop)]
pub struct Sheet {
    // the first line, where it is a comment
    pub front: String,
    pub variables: u32,
    pub pairs: Vec<Pair>,
    pub others: Vec<String>,
}

fn numbers_of(heap: Global, line: &str) -> Result<Vec<i32>, AllocError> {
    line.split_whitespace()
        .filter_map(|word| word.parse::<i32>().ok())
        .collect(heap)
}

fn pair_of(numbers: &[i32]) -> Option<Pair> {
    match numbers {
        [x, y, 0] if x.unsigned_abs() != y.unsigned_abs() => Some(Pair { x: *x, y: *y }),
        _ => None,
    }
}

fn variables_of(header: &str) -> u32 {
    header
        .split_whitespace()
        .nth(2)
        .and_then(|word| word.parse::<u32>().ok())
        .unwrap_or(0)
}

fn front_of(heap: Global, text: &str) -> Result<String, AllocError> {
    match text.lines().next() {
        Some(line) if line.starts_with('c') => format!(in heap; "{line}\n"),
        _ => Ok(String::new(heap)),
    }
}

impl Sheet {
    fn take_clause(&mut self, heap: Global, line: &str) -> Result<(), AllocError> {
        let numbers = numbers_of(heap, line)?;
        match pair_of(numbers.as_slice()) {
            Some(pair) => self.pairs.push(pair)?,
            None => self.others.push(String::from_str(heap, line)?)?,
        }
        Ok(())
    }

    fn take_line(&mut self, heap: Global, line: &str) -> Result<(), AllocError> {
        if line.starts_with('p') {
            self.variables = variables_of(line);
            return Ok(());
        }
        if line.is_empty() || line.starts_with('c') {
            return Ok(());
        }
        self.take_clause(heap, line)
    }

    pub(crate) fn of(heap: Global, text: &str) -> Result<Sheet, AllocError> {
        let mut sheet = Sheet {
            front: front_of(heap, text)?,
            variables: 0,
            pairs: Vec::new(heap),
            others: Vec::new(heap),
        };
        for line in text.lines() {
            sheet.take_line(heap, line)?;
        }
        Ok(sheet)
    }
}
