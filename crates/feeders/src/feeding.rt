// Sixteen feeders, and the texts that come of what they hand in.
use crate::generator::Generator;
use crate::sheet::{Pair, Sheet};
use std::alloc::{AllocError, Global};
use std::fmt::Write;

const FEEDERS: usize = 16;

// Of so many numbers, one on average is followed by each rare blank,
const BLANK_ODDS: usize = 24;

// and of so many pairs one comes after another clause.
const OTHER_ODDS: usize = 4;

// More pairs than any file within the limits has.
const MOST_PAIRS: usize = 65_536;

// The pairs that each feeder has still to hand in.
#[derive(Drop)]
struct Feeders {
    hands: Vec<Vec<Pair>>,
}

impl Feeders {
    // Every pair goes to feeders, so many times.
    fn deal(
        heap: Global,
        pairs: &[Pair],
        copies: usize,
        random: &mut Generator,
    ) -> Result<Feeders, AllocError> {
        let mut hands = Vec::new(heap);
        for _ in 0..FEEDERS {
            hands.push(Vec::new(heap))?;
        }
        for _ in 0..copies {
            for pair in pairs {
                if let Some(hand) = hands.get_mut(random.below(FEEDERS)) {
                    hand.push(*pair)?;
                }
            }
        }
        Ok(Feeders { hands })
    }

    // A pair of the feeder whose turn it is, or of the next that has one.
    fn next_pair(&mut self, turn: usize) -> Option<Pair> {
        (0..FEEDERS).find_map(|i| {
            let hand = self.hands.get_mut(turn.wrapping_add(i) % FEEDERS)?;
            hand.pop()
        })
    }
}

// A text that is being written, and the numbers by which it varies.
#[derive(Drop)]
struct Draft {
    text: String,
    random: Generator,
}

impl Draft {
    fn blank(&mut self) -> &'static str {
        match self.random.below(BLANK_ODDS) {
            0 => "\n",
            1 => "\t",
            2 => "\r\n",
            3 => " \n\n  ",
            4 => "\nc a feeder speaks\n",
            _ => " ",
        }
    }

    // A pair clause, one way round or the other.
    fn put_pair(&mut self, pair: Pair) -> Result<(), AllocError> {
        let Pair { x, y } = match self.random.below(2) {
            0 => pair,
            _ => pair.exchanged(),
        };
        for number in [x, y, 0] {
            let blank = self.blank();
            write!(self.text, "{number}{blank}")?;
        }
        Ok(())
    }

    fn put_other(&mut self, clause: &str) -> Result<(), AllocError> {
        writeln!(self.text, "{clause}")
    }

    // All that the feeders have, with the other clauses in between, in their order.
    fn collect(&mut self, feeders: &mut Feeders, others: &[String]) -> Result<(), AllocError> {
        let mut rest = others.iter();
        for _ in 0..MOST_PAIRS {
            let Some(pair) = feeders.next_pair(self.random.below(FEEDERS)) else {
                break;
            };
            self.put_pair(pair)?;
            if self.random.below(OTHER_ODDS) == 0
                && let Some(other) = rest.next()
            {
                self.put_other(other.as_str())?;
            }
        }
        for other in rest {
            self.put_other(other.as_str())?;
        }
        Ok(())
    }
}

// What stands before the clauses.
fn opening(heap: Global, sheet: &Sheet, clauses: usize) -> Result<String, AllocError> {
    let front = sheet.front.as_str();
    let variables = sheet.variables;
    format!(in heap; "{front}p cnf {variables} {clauses}\n")
}

// A text that says what the sheet says, each pair so many times.
pub(crate) fn variant(
    heap: Global,
    sheet: &Sheet,
    copies: usize,
    seed: u64,
) -> Result<String, AllocError> {
    let mut random = Generator::new(seed);
    let mut feeders = Feeders::deal(heap, sheet.pairs.as_slice(), copies, &mut random)?;
    let pairs = sheet.pairs.len().saturating_mul(copies);
    let text = opening(heap, sheet, pairs.saturating_add(sheet.others.len()))?;
    let mut draft = Draft { text, random };
    draft.collect(&mut feeders, sheet.others.as_slice())?;
    Ok(draft.text)
}
