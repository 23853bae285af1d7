// What DIMACS CNF text means: well-formed files, the reader's rule byte by byte, the writer's rule.
// Types, definitions and theorems stand here, and what class a byte has; the `text` crate reads and writes.
#![tactic(auto)]

// What a byte is to the reader.
#[derive(Clone, Copy, PartialEq, Eq, Debug)]
pub enum Class {
    Space,
    // a tab or a carriage return
    OtherBlank,
    LineFeed,
    Minus,
    Digit(u8),
    C,
    N,
    F,
    P,
    Other,
}

impl From<u8> for Class {
    ghost use Rattle.std.specs.Prelude.{◌≡◌};
    ghost use Rattle.dimacs.specs.Bytes.{class_of};

    ghost from_gives = { λ byte class. class ≡ class_of byte };

    fn from(byte: u8) -> Class {
        match byte as char {
            ' ' => Class::Space,
            '\t' | '\r' => Class::OtherBlank,
            '\n' => Class::LineFeed,
            '-' => Class::Minus,
            '0'..='9' => Class::Digit(byte - b'0'),
            'c' => Class::C,
            'n' => Class::N,
            'f' => Class::F,
            'p' => Class::P,
            _ => Class::Other,
        }
    }
}

// Where the reader stands between two bytes; `from` is the place of a header's or a number's first byte.
#[derive(Clone, Copy, PartialEq, Eq, Debug, Default)]
pub enum State {
    #[default]
    LineStart,
    // past a line's first byte, and in no number
    Gap,
    Comment,
    // after the `p` of a header and the first `matched` bytes of ` cnf `; a variant for each would say no more than the count
    Keyword {
        from: usize,
        matched: u8,
    },
    Variables {
        from: usize,
        value: u32,
    },
    BeforeClauses {
        from: usize,
        variables: u32,
    },
    Clauses {
        from: usize,
        variables: u32,
        value: u32,
    },
    // after a minus
    Sign {
        from: usize,
    },
    Zero {
        from: usize,
    },
    // the sign stands apart, since a digit makes the size grow alike on both sides of 0
    Number {
        from: usize,
        negative: bool,
        size: u32,
    },
}

// What the line `p cnf n k` says.
#[derive(Clone, Copy, PartialEq, Eq, Debug)]
pub struct Header {
    pub variables: u32,
    pub clauses: u32,
}

// What the reader remembers of the bytes behind it.
#[derive(Clone, Copy, PartialEq, Eq, Debug, Default)]
pub struct Machine {
    pub state: State,
    pub header: Option<Header>,
    // numbers listed so far, and how many of them close a clause
    pub listed: usize,
    pub closed: usize,
    // the last number listed is a literal, so a clause is open; no value goes with it
    pub inside: bool,
}

// What was read: n, the number of clauses, and how many numbers were listed.
#[derive(Clone, Copy, PartialEq, Eq, Debug)]
pub struct Summary {
    pub variables: u32,
    pub clauses: usize,
    pub numbers: usize,
}
