// The reader: one pass over a text's bytes, into a lent list.
ghost use Rattle.std.specs.Prelude.{◌≡◌, ◌<◌, length, is_some};
ghost use Rattle.dimacs.specs.Steps.{go, head, put, step_of, end_of, grown};
ghost use Rattle.dimacs.specs.Reading.{reading, closed_by, limit_of};
ghost use Rattle.dimacs.specs.Laws.{AcceptsFiles, OneFile};
ghost use Rattle.text.specs.Steady.{Steady, Decimal, Small};

use crate::class::class_of;
use dimacs::{Class, Header, Machine, State, Summary};
use fault::{Fault, Refusal};

// The list lent, and what is remembered of the bytes behind.
// The machine counts the numbers listed, as the rule of reading does; a `Filling` would count them a second time.
#[derive(Debug, Drop)]
struct Reader<'a> {
    list: &'a mut [i32],
    machine: Machine,
    ghost steady: { Steady machine (length list.now) },
}

// From this number on there are nine digits, the most that a header's n has.
const NINE_DIGITS: u32 = 100_000_000;

// Stands for every number that no header allows.
const TOO_LARGE: u32 = 1_000_000_000;

// A header gives at most so many clauses.
const MOST_CLAUSES: u32 = 1_000_000;

// A number's size with one digit more; from 1,000,000,000 on, which no header allows, it stays there.
fn grow(size: u32, digit: u8) -> u32
    requires { digit < 10 }
    ensures { result ≡ grown size digit }
{
    if size < NINE_DIGITS {
        10 * size + digit as u32
    } else {
        TOO_LARGE
    }
}

impl Reader<'_> {
    ghost use Rattle.text.specs.Turn.{Turned, Ran};

    fn go(&mut self, state: State) -> Result<(), Fault>
        requires { Small state }
        ensures { Turned self.old (go state) result self.new }
    {
        self.machine.state = state;
        Ok(())
    }

    fn head(&mut self, variables: u32, clauses: u32) -> Result<(), Fault>
        requires { variables < 1_000_000_000 }
        ensures { Turned self.old (head variables clauses) result self.new }
    {
        self.machine.state = State::LineStart;
        self.machine.header = Some(Header { variables, clauses });
        Ok(())
    }

    // The greatest variable that the header allows.
    fn limit(&self) -> u32
        ensures { result ≡ limit_of self.now.machine.header }
    {
        self.machine.header.map_or(0, |header| header.variables)
    }

    // Lists a number whose last digit is behind.
    fn put(&mut self, from: usize, negative: bool, size: u32, next: State) -> Result<(), Fault>
        requires { Small next }
        ensures { Turned self.old (put from negative size next) result self.new }
    {
        if size > self.limit() {
            return Err(Fault::in_text(Refusal::VariableAboveHeader, from));
        }
        if self.machine.listed >= self.list.len() {
            return Err(Fault::in_text(Refusal::ClauseListFull, from));
        }
        let number = size as i32;
        self.list[self.machine.listed] = if negative { -number } else { number };
        self.machine.state = next;
        self.machine.listed += 1;
        self.machine.inside = size != 0;
        if size == 0 {
            self.machine.closed += 1;
        }
        Ok(())
    }

    // Takes one byte: what it does depends on the state and the byte's class together.
    fn take(&mut self, class: Class, at: usize) -> Result<(), Fault>
        requires { Decimal class }
        ensures { Turned self.old (step_of (is_some self.old.machine.header) self.old.machine.state class at) result self.new }
    {
        let headed = self.machine.header.is_some();
        match (self.machine.state, class) {
            (State::LineStart, Class::C) => self.go(State::Comment),
            (State::LineStart, Class::P) if !headed => self.go(State::Keyword {
                from: at,
                matched: 0,
            }),
            (State::LineStart | State::Gap | State::Comment, Class::LineFeed) => self.go(
                State::LineStart,
            ),
            (State::LineStart | State::Gap, Class::Space | Class::OtherBlank) => self.go(
                State::Gap,
            ),
            (State::LineStart | State::Gap, Class::Minus) if headed => self.go(State::Sign {
                from: at,
            }),
            (State::LineStart | State::Gap, Class::Digit(0)) if headed => self.go(State::Zero {
                from: at,
            }),
            (State::LineStart | State::Gap, Class::Digit(d)) if headed => self.go(State::Number {
                from: at,
                negative: false,
                size: d as u32,
            }),
            (State::Comment, _) => self.go(State::Comment),
            // ` cnf `, an arm for each byte: looking the next one up in an array was tried, and the proof did not close
            (State::Keyword { from, matched: 0 }, Class::Space) => self.go(State::Keyword {
                from,
                matched: 1,
            }),
            (State::Keyword { from, matched: 1 }, Class::C) => self.go(State::Keyword {
                from,
                matched: 2,
            }),
            (State::Keyword { from, matched: 2 }, Class::N) => self.go(State::Keyword {
                from,
                matched: 3,
            }),
            (State::Keyword { from, matched: 3 }, Class::F) => self.go(State::Keyword {
                from,
                matched: 4,
            }),
            (State::Keyword { from, matched: 4 }, Class::Space) => self.go(State::Keyword {
                from,
                matched: 5,
            }),
            (State::Keyword { from, matched: 5 }, Class::Digit(d)) => self.go(State::Variables {
                from,
                value: d as u32,
            }),
            (State::Variables { from, value }, Class::Digit(d))
                if value > 0 && value < NINE_DIGITS => self.go(State::Variables {
                from,
                value: 10 * value + d as u32,
            }),
            (State::Variables { from, value }, Class::Space) => self.go(State::BeforeClauses {
                from,
                variables: value,
            }),
            (State::BeforeClauses { from, variables }, Class::Digit(d)) => self.go(
                State::Clauses {
                    from,
                    variables,
                    value: d as u32,
                },
            ),
            (
                State::Clauses {
                    from,
                    variables,
                    value,
                },
                Class::Digit(d),
            ) if value > 0 && 10 * value + d as u32 <= MOST_CLAUSES => self.go(State::Clauses {
                from,
                variables,
                value: 10 * value + d as u32,
            }),
            (
                State::Clauses {
                    from: _,
                    variables,
                    value,
                },
                Class::LineFeed,
            ) => self.head(variables, value),
            (
                State::Keyword { from, .. }
                | State::Variables { from, .. }
                | State::BeforeClauses { from, .. }
                | State::Clauses { from, .. },
                _,
            ) => Err(Fault::in_text(Refusal::MalformedHeader, from)),
            (State::Sign { from }, Class::Digit(d)) if d > 0 => self.go(State::Number {
                from,
                negative: true,
                size: d as u32,
            }),
            (State::Zero { from }, Class::Space | Class::OtherBlank) => self.put(
                from,
                false,
                0,
                State::Gap,
            ),
            (State::Zero { from }, Class::LineFeed) => self.put(from, false, 0, State::LineStart),
            (
                State::Number {
                    from,
                    negative,
                    size,
                },
                Class::Digit(d),
            ) => self.go(State::Number {
                from,
                negative,
                size: grow(size, d),
            }),
            (
                State::Number {
                    from,
                    negative,
                    size,
                },
                Class::Space | Class::OtherBlank,
            ) => self.put(from, negative, size, State::Gap),
            (
                State::Number {
                    from,
                    negative,
                    size,
                },
                Class::LineFeed,
            ) => self.put(from, negative, size, State::LineStart),
            (_, _) => Err(Fault::in_text(Refusal::UnexpectedByte, at)),
        }
    }

    // What the text's end does to a number or a header that stands there.
    fn end(&mut self, len: usize) -> Result<(), Fault>
        ensures { Turned self.old (end_of (is_some self.old.machine.header) self.old.machine.state len) result self.new }
    {
        match self.machine.state {
            State::LineStart | State::Gap | State::Comment if self.machine.header.is_some() => Ok(
                (),
            ),
            State::LineStart | State::Gap | State::Comment | State::Sign { .. } => Err(
                Fault::in_text(Refusal::UnexpectedEnd, len),
            ),
            State::Keyword { from, .. }
            | State::Variables { from, .. }
            | State::BeforeClauses { from, .. }
            | State::Clauses { from, .. } => Err(Fault::in_text(Refusal::MalformedHeader, from)),
            State::Zero { from } => self.put(from, false, 0, State::LineStart),
            State::Number {
                from,
                negative,
                size,
            } => self.put(from, negative, size, State::LineStart),
        }
    }

    // What was read, once the text is over.
    fn summary(&self, len: usize) -> Result<Summary, Fault>
        ensures { result ≡ closed_by self.now.machine.header self.now.machine len }
    {
        let Some(header) = self.machine.header else {
            return Err(Fault::in_text(Refusal::UnexpectedEnd, len));
        };
        if self.machine.inside {
            return Err(Fault::in_text(Refusal::UnexpectedEnd, len));
        }
        if self.machine.closed != header.clauses as usize {
            return Err(Fault::in_text(Refusal::ClauseCount, len));
        }
        Ok(Summary {
            variables: header.variables,
            clauses: self.machine.closed,
            numbers: self.machine.listed,
        })
    }

    // Reads a text to its end, and answers what was read.
    fn run(&mut self, text: &[u8]) -> Result<Summary, Fault>
        ensures { Ran self.old text.now result self.new }
    {
        for (at, byte) in text.iter().enumerate() {
            self.take(class_of(*byte), at)?;
        }
        self.end(text.len())?;
        self.summary(text.len())
    }
}

// Reads a text into the list, each 0 that closes a clause too, and answers what it read.
// A text with a fault leaves in the list what was read before it.
// Accepted are exactly the well-formed files for which the list has room.
pub fn read(text: &[u8], list: &mut [i32]) -> Result<Summary, Fault>
    ensures answer { result ≡ (reading text.now list.old).answer }
    ensures list { list.new ≡ (reading text.now list.old).list }
    ensures files { AcceptsFiles text.now list.old result list.new }
    ensures one_file { OneFile text.now }
{
    let mut reader = Reader {
        list,
        machine: Machine::default(),
    };
    reader.run(text)
}
