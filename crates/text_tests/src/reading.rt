use dimacs::Summary;
use fault::{Fault, Refusal};
use std::process::Abort;
use std::test::Fail;
use text::read::read;

// A text, and what comes of it: how many numbers are listed, or its fault.
#[derive(Clone, Copy, Debug)]
struct Case<'a> {
    text: &'a [u8],
    outcome: Result<usize, Fault>,
}

fn accepted(text: &[u8], numbers: usize) -> Case<'_> {
    Case {
        text,
        outcome: Ok(numbers),
    }
}

fn refused(text: &[u8], refusal: Refusal, place: usize) -> Case<'_> {
    Case {
        text,
        outcome: Err(Fault::in_text(refusal, place)),
    }
}

// Reads a text with room for eight numbers.
fn outcome(text: &[u8]) -> Result<usize, Fault> {
    let mut list = [0i32; 8];
    Ok(read(text, &mut list)?.numbers)
}

fn run(rt: &impl Abort, cases: &[Case]) {
    for case in cases {
        assert_eq!(rt; outcome(case.text), case.outcome);
    }
}

#[test]
fn accepts(rt: HostRuntime) {
    run(
        &rt,
        &[
            accepted(b"p cnf 2 1\n1 -2 0\n", 3),
            // no line feed at the end, after a number and after a comment
            accepted(b"p cnf 2 1\n1 -2 0", 3),
            accepted(b"p cnf 2 1\n1 -2 0\nc end", 3),
            // blanks of all four kinds
            accepted(b"\n \t\r\np cnf 2 2\n 1\t-2\r0\n\n\t0 ", 4),
            // comments before, between and inside clauses, with any bytes
            accepted(
                b"c \xff\x00 p cnf 9 9\np cnf 2 2\n1\nc in a clause\n0\nc\n-2 0\n",
                4,
            ),
            // empty clauses, and none
            accepted(b"p cnf 0 3\n0 0\n0\n", 3),
            accepted(b"p cnf 0 0\n", 0),
            // numbers at the limits
            accepted(b"p cnf 999999999 1\n999999999 -999999999 0\n", 3),
            // one line for many clauses, and a clause over many lines
            accepted(b"p cnf 3 3\n1 0 2 0 -3\n\n3\n0", 7),
        ],
    );
}

#[test]
fn unexpected_byte(rt: HostRuntime) {
    run(
        &rt,
        &[
            // a number or a letter before the header, a second header
            refused(b"1 0\np cnf 1 1\n", Refusal::UnexpectedByte, 0),
            refused(b"-1 0\np cnf 1 1\n", Refusal::UnexpectedByte, 0),
            refused(b"x", Refusal::UnexpectedByte, 0),
            refused(b"p cnf 1 0\np cnf 1 0\n", Refusal::UnexpectedByte, 10),
            // `c` and `p` past a line's start
            refused(b" c\np cnf 1 0\n", Refusal::UnexpectedByte, 1),
            refused(b" p cnf 1 0\n", Refusal::UnexpectedByte, 1),
            refused(b"p cnf 1 1\n1 0 c\n", Refusal::UnexpectedByte, 14),
            // numbers that are led by 0, 0 with a minus, a minus alone, a letter in a number
            refused(b"p cnf 1 1\n01 0\n", Refusal::UnexpectedByte, 11),
            refused(b"p cnf 1 1\n-0 0\n", Refusal::UnexpectedByte, 11),
            refused(b"p cnf 1 1\n- 1 0\n", Refusal::UnexpectedByte, 11),
            refused(b"p cnf 1 1\n--1 0\n", Refusal::UnexpectedByte, 11),
            refused(b"p cnf 1 1\n1x 0\n", Refusal::UnexpectedByte, 11),
            refused(b"p cnf 1 1\n1-1 0\n", Refusal::UnexpectedByte, 11),
            // a bad byte in a number comes before its size
            refused(b"p cnf 1 1\n99999999999x 0\n", Refusal::UnexpectedByte, 21),
            refused(b"p cnf 1 1\n+1 0\n", Refusal::UnexpectedByte, 10),
        ],
    );
}

#[test]
fn malformed_header(rt: HostRuntime) {
    run(
        &rt,
        &[
            refused(b"p  cnf 1 0\n", Refusal::MalformedHeader, 0),
            refused(b"p cnf  1 0\n", Refusal::MalformedHeader, 0),
            refused(b"p cnf 1  0\n", Refusal::MalformedHeader, 0),
            refused(b"p cnf 1 0 \n", Refusal::MalformedHeader, 0),
            refused(b"p cnf 1 0\r\n", Refusal::MalformedHeader, 0),
            refused(b"p cnf\t1 0\n", Refusal::MalformedHeader, 0),
            refused(b"p dnf 1 0\n", Refusal::MalformedHeader, 0),
            refused(b"pcnf 1 0\n", Refusal::MalformedHeader, 0),
            refused(b"p cnf -1 0\n", Refusal::MalformedHeader, 0),
            refused(b"p cnf 01 0\n", Refusal::MalformedHeader, 0),
            refused(b"p cnf 1 00\n", Refusal::MalformedHeader, 0),
            refused(b"p cnf 1000000000 0\n", Refusal::MalformedHeader, 0),
            refused(b"p cnf 1 1000001\n", Refusal::MalformedHeader, 0),
            // cut short, and not at the text's start
            refused(b"c x\np cnf 1 0", Refusal::MalformedHeader, 4),
            refused(b"c x\n\np cnf 1", Refusal::MalformedHeader, 5),
            refused(b"p", Refusal::MalformedHeader, 0),
        ],
    );
}

#[test]
fn variable_above_header(rt: HostRuntime) {
    run(
        &rt,
        &[
            refused(b"p cnf 2 1\n1 -3 0\n", Refusal::VariableAboveHeader, 12),
            refused(b"p cnf 2 1\n3 0\n", Refusal::VariableAboveHeader, 10),
            refused(
                b"p cnf 2 1\n2147483647 0\n",
                Refusal::VariableAboveHeader,
                10,
            ),
            refused(
                b"p cnf 2 1\n2147483648 0\n",
                Refusal::VariableAboveHeader,
                10,
            ),
            refused(
                b"p cnf 999999999 1\n1000000000 0\n",
                Refusal::VariableAboveHeader,
                18,
            ),
            refused(
                b"p cnf 999999999 1\n-99999999999999999999 0\n",
                Refusal::VariableAboveHeader,
                18,
            ),
            // at the text's end
            refused(b"p cnf 1 1\n2", Refusal::VariableAboveHeader, 10),
        ],
    );
}

#[test]
fn list_full(rt: HostRuntime) {
    run(
        &rt,
        &[
            refused(
                b"p cnf 9 2\n1 2 3 4 5 6 7 0 8 0\n",
                Refusal::ClauseListFull,
                26,
            ),
            refused(
                b"p cnf 9 1\n1 2 3 4 5 6 7 8 -9 0\n",
                Refusal::ClauseListFull,
                26,
            ),
            // at the text's end, and 15 before 16
            refused(b"p cnf 9 1\n1 2 3 4 5 6 7 8 0", Refusal::ClauseListFull, 26),
            refused(
                b"p cnf 9 1\n1 2 3 4 5 6 7 8 10 0",
                Refusal::VariableAboveHeader,
                26,
            ),
        ],
    );
}

#[test]
fn unexpected_end(rt: HostRuntime) {
    run(
        &rt,
        &[
            refused(b"", Refusal::UnexpectedEnd, 0),
            refused(b"c only\n", Refusal::UnexpectedEnd, 7),
            refused(b" \n\t", Refusal::UnexpectedEnd, 3),
            refused(b"p cnf 1 1\n1", Refusal::UnexpectedEnd, 11),
            refused(b"p cnf 1 1\n1\n", Refusal::UnexpectedEnd, 12),
            refused(b"p cnf 1 1\n-", Refusal::UnexpectedEnd, 11),
        ],
    );
}

#[test]
fn clause_count(rt: HostRuntime) {
    run(
        &rt,
        &[
            refused(b"p cnf 2 2\n1 -2 0\n", Refusal::ClauseCount, 17),
            refused(b"p cnf 2 1\n1 0 -2 0\n", Refusal::ClauseCount, 19),
            refused(b"p cnf 2 1000000\n1 0\n", Refusal::ClauseCount, 20),
            // inside a clause comes first
            refused(b"p cnf 2 2\n1 0 2\n", Refusal::UnexpectedEnd, 16),
        ],
    );
}

#[test]
fn answers_and_lists(rt: HostRuntime) -> Result<(), Fail> {
    let mut list = [7i32; 6];
    let found = read(b"p cnf 5 2\n-5 1 0\n0\n", &mut list)?;
    assert_eq!(rt;
        found,
        Summary {
            variables: 5,
            clauses: 2,
            numbers: 4,
        }
    );
    assert_eq!(rt; list, [-5, 1, 0, 0, 7, 7]);
    Ok(())
}

#[test]
fn keeps_what_was_read(rt: HostRuntime) {
    let mut list = [7i32; 4];
    assert_eq!(rt;
        read(b"p cnf 2 1\n1 -2 x", &mut list),
        Err(Fault::in_text(Refusal::UnexpectedByte, 15))
    );
    assert_eq!(rt; list, [1, -2, 7, 7]);
}
