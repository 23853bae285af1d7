// One fault for every layer: which rule refused, which layer found it, and at which byte of a text.
// It is carried by `?` from the lowest layer up to the program, and shows as `fault number layer place`.
#![tactic(auto)]

ghost use Rattle.std.specs.Prelude.{◌≡◌, Some};
ghost use Rattle.fault.specs.Fault.{number_of, layer_name, fault_text};

use std::fmt;

// The part of the product that found the fault.
#[derive(Clone, Copy, PartialEq, Eq, Debug)]
pub enum Layer {
    Network,
    Formula,
    Cover,
    Encoder,
    Text,
}

// Why a call was refused; docs/REFUSALS.md has each condition in full.
#[derive(Clone, Copy, PartialEq, Eq, Debug)]
pub enum Refusal {
    // 1: the number of variables is 0 or too large
    VariableCount,
    // 2: words or work words are too few
    WordsShort,
    // 3: a literal is 0 or on a variable above n
    LiteralOutOfRange,
    // 4: one literal twice
    RepeatedLiteral,
    // 5: a literal and its complement
    ComplementaryPair,
    // 6: the numbers lent for auxiliaries do not do
    AuxiliaryRange,
    // 7: other than n values, or one besides 0 and 1
    UnfitValues,
    // 8: the list is too short for the parts of the cover
    PartListShort,
    // 9: auxiliaries would pass the last number lent
    AuxiliariesExhausted,
    // 10: a buffer is too short for what is to be put there
    BufferShort,
    // 11: the values make both literals of this conflict true
    BrokenConflict(i32, i32),
    // 12: an encoder cannot take these members, this first number or this place
    UnfitMembers,
    // 13: a byte cannot stand there
    UnexpectedByte,
    // 14: the header line is malformed or cut short
    MalformedHeader,
    // 15: a literal's variable is above n
    VariableAboveHeader,
    // 16: the list of clauses is full
    ClauseListFull,
    // 17: the text ends without a header or inside a clause
    UnexpectedEnd,
    // 18: there are other than k clauses
    ClauseCount,
}

#[derive(Clone, Copy, PartialEq, Eq, Debug)]
pub struct Fault {
    pub refusal: Refusal,
    pub layer: Layer,
    // the byte of the text at which the fault stands; 0 outside text
    pub place: usize,
}

impl Refusal {
    // The number under which the product's documents list it. No `From`: `u8::from(refusal)` would not say which number it is.
    pub fn number(self) -> u8
        ensures { result ≡ number_of self }
    {
        match self {
            Refusal::VariableCount => 1,
            Refusal::WordsShort => 2,
            Refusal::LiteralOutOfRange => 3,
            Refusal::RepeatedLiteral => 4,
            Refusal::ComplementaryPair => 5,
            Refusal::AuxiliaryRange => 6,
            Refusal::UnfitValues => 7,
            Refusal::PartListShort => 8,
            Refusal::AuxiliariesExhausted => 9,
            Refusal::BufferShort => 10,
            Refusal::BrokenConflict(_, _) => 11,
            Refusal::UnfitMembers => 12,
            Refusal::UnexpectedByte => 13,
            Refusal::MalformedHeader => 14,
            Refusal::VariableAboveHeader => 15,
            Refusal::ClauseListFull => 16,
            Refusal::UnexpectedEnd => 17,
            Refusal::ClauseCount => 18,
        }
    }
}

impl Fault {
    // A fault outside text.
    pub fn new(layer: Layer, refusal: Refusal) -> Fault
        ensures { result ≡ record { refusal = refusal; layer = layer; place = 0 } }
    {
        Fault {
            refusal,
            layer,
            place: 0,
        }
    }

    // A fault at a byte of a text.
    pub fn in_text(refusal: Refusal, place: usize) -> Fault
        ensures { result ≡ record { refusal = refusal; layer = Layer.Text; place = place } }
    {
        Fault {
            refusal,
            layer: Layer::Text,
            place,
        }
    }
}

impl fmt::Display for Layer {
    ghost output = { λ l. Some (layer_name l) };

    fn fmt<W: fmt::Write>(&self, f: &mut fmt::Formatter<W>) -> fmt::Result {
        match self {
            Layer::Network => f.write_str("network"),
            Layer::Formula => f.write_str("formula"),
            Layer::Cover => f.write_str("cover"),
            Layer::Encoder => f.write_str("encoder"),
            Layer::Text => f.write_str("text"),
        }
    }
}

impl fmt::Display for Fault {
    ghost output = { λ x. Some (fault_text x) };

    fn fmt<W: fmt::Write>(&self, f: &mut fmt::Formatter<W>) -> fmt::Result {
        let number = self.refusal.number();
        let layer = self.layer;
        let place = self.place;
        write!(f, "fault {number} {layer} {place}")
    }
}
