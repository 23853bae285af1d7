// The limits of `compact`, at their edges.
#![tactic(auto)]

#[cfg(test)]
mod tests {
    use compactor::compact;
    use std::alloc::{AllocError, Global};
    use std::process::Abort;
    use std::test::Fail;

    // A text with `count` copies of `part` after `front`.
    fn repeated(
        heap: Global,
        front: &[u8],
        part: &[u8],
        count: usize,
    ) -> Result<Vec<u8>, AllocError> {
        let mut text = front.to_vec(heap)?;
        text.extend_from_slice(part.repeat(heap, count)?.as_slice())?;
        Ok(text)
    }

    fn prints(rt: &impl Abort, heap: Global, text: &[u8], expected: &[u8]) -> Result<(), Fail> {
        let output = compact(heap, text)?;
        assert!(rt; output.as_slice() == expected);
        Ok(())
    }

    #[test]
    fn bytes_of_input(rt: HostRuntime) -> Result<(), Fail> {
        let heap = rt.alloc();
        let most = repeated(heap, b"p cnf 1 0\n", b"\n", 65_526)?;
        prints(&rt, heap, most.as_slice(), b"p cnf 1 0\n")?;
        // tried before everything else
        let more = repeated(heap, b"nonsense\n\n", b"\n", 65_527)?;
        prints(&rt, heap, more.as_slice(), b"fault 16 text 65536\n")
    }

    #[test]
    fn numbers_in_the_list(rt: HostRuntime) -> Result<(), Fail> {
        let heap = rt.alloc();
        let most = repeated(heap, b"p cnf 1 16384\n", b"0 ", 16_384)?;
        let written = repeated(heap, b"p cnf 1 16384\n", b"0\n", 16_384)?;
        prints(&rt, heap, most.as_slice(), written.as_slice())?;
        let more = repeated(heap, b"p cnf 1 16385\n", b"0 ", 16_385)?;
        prints(&rt, heap, more.as_slice(), b"fault 16 text 32782\n")
    }

    #[test]
    fn longest_output(rt: HostRuntime) -> Result<(), Fail> {
        let heap = rt.alloc();
        let mut text = repeated(heap, b"p cnf 256 1\n", b"-256 ", 13_000)?;
        text.extend_from_slice(b"0\n")?;
        prints(&rt, heap, text.as_slice(), text.as_slice())
    }

    #[test]
    fn variables(rt: HostRuntime) -> Result<(), Fail> {
        let heap = rt.alloc();
        prints(&rt, heap, b"p cnf 1 0\n", b"p cnf 1 0\n")?;
        prints(&rt, heap, b"p cnf 256 0\n", b"p cnf 256 0\n")?;
        prints(&rt, heap, b"p cnf 0 0\n", b"fault 1 network 0\n")?;
        prints(&rt, heap, b"p cnf 257 0\n", b"fault 1 network 0\n")?;
        // after the text's own faults
        prints(&rt, heap, b"p cnf 257 1\n", b"fault 18 text 12\n")
    }
}
