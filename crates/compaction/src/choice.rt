// The encoder that a file picks by its first line.
ghost use Rattle.std.specs.Prelude.{◌≡◌, ◌==◌, position};
ghost use Rattle.compaction_theory.specs.Choices.{first_line, by_letter, choice_of};

use compaction_theory::Choice;

// The place of the first line feed.
fn first_feed(text: &[u8]) -> Option<usize>
    ensures { result ≡ position (λ b. b == 10) text.now }
{
    text.iter().position(|byte| *byte == b'\n')
}

// The bytes before the first line feed.
fn first_line(text: &[u8]) -> &[u8]
    ensures { result.now ≡ first_line text.now }
{
    match first_feed(text) {
        Some(end) => &text[..end],
        None => text,
    }
}

// The encoder of a letter: any other than these four picks the tower.
// It is no `From<char>`: it reads one place of a line, and is no conversion that a caller would look for.
fn by_letter(letter: char) -> Choice
    ensures { result ≡ by_letter letter }
{
    match letter {
        'w' => Choice::Pairwise,
        'b' => Choice::Binary,
        's' => Choice::Sequential,
        'c' => Choice::Commander,
        _ => Choice::Tower,
    }
}

// The encoder that a first line picks if it is just `c amo ` and one character; else the tower.
fn choose(line: &[u8]) -> Choice
    ensures { result ≡ choice_of line.now }
{
    match line {
        [b'c', b' ', b'a', b'm', b'o', b' ', letter] => by_letter(*letter as char),
        _ => Choice::Tower,
    }
}

// The encoder of a file.
pub(crate) fn choice_of(text: &[u8]) -> Choice
    ensures { result ≡ choice_of (first_line text.now) }
{
    choose(first_line(text))
}
