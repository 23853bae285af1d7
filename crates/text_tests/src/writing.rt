use fault::{Fault, Layer, Refusal};
use std::process::Abort;
use std::test::Fail;
use text::read::read;
use text::write::write;

// A writing is refused so, or not at all; then the fault's layer is text, its place is 0, and no byte is written.
fn refused(
    rt: &impl Abort,
    variables: u32,
    numbers: &[i32],
    room: usize,
    expected: Option<Refusal>,
) -> Result<(), Fail> {
    let mut out = [b'#'; 64];
    if room > 64 {
        return Err(Fail::new("too much room"));
    }
    let result = write(variables, numbers, &mut out[..room]);
    assert!(rt; out[63] == b'#');
    match expected {
        Some(refusal) => {
            assert_eq!(rt; out, [b'#'; 64]);
            assert_eq!(rt; result, Err(Fault::new(Layer::Text, refusal)));
        }
        None => assert!(rt; result.is_ok()),
    }
    Ok(())
}

#[test]
fn refuses(rt: HostRuntime) -> Result<(), Fail> {
    refused(&rt, 1_000_000_000, &[], 40, Some(Refusal::MalformedHeader))?;
    refused(&rt, u32::MAX, &[5], 0, Some(Refusal::MalformedHeader))?;
    refused(&rt, 2, &[1, 3, 0], 40, Some(Refusal::VariableAboveHeader))?;
    refused(
        &rt,
        999_999_999,
        &[i32::MIN],
        0,
        Some(Refusal::VariableAboveHeader),
    )?;
    refused(&rt, 2, &[1, 0, -2], 40, Some(Refusal::UnexpectedEnd))?;
    refused(&rt, 2, &[1], 0, Some(Refusal::UnexpectedEnd))?;
    // `p cnf 2 1`, `1 -2 0` and their line feeds take 17 bytes
    refused(&rt, 2, &[1, -2, 0], 16, Some(Refusal::BufferShort))?;
    refused(&rt, 2, &[1, -2, 0], 0, Some(Refusal::BufferShort))?;
    refused(&rt, 2, &[1, -2, 0], 17, None)?;
    refused(&rt, 0, &[], 10, None)?;
    refused(&rt, 0, &[], 9, Some(Refusal::BufferShort))
}

#[test]
fn too_many_clauses(rt: HostRuntime) -> Result<(), Fail> {
    let numbers = vec![in rt.alloc(); 0i32; 1_000_001]?;
    let mut out = [0u8; 8];
    let all = write(1, numbers.as_slice(), &mut out);
    // by pattern: comparing the results makes the check run out of stack
    assert!(rt;
        matches!(
            all,
            Err(Fault {
                refusal: Refusal::MalformedHeader,
                ..
            })
        )
    );
    assert!(rt; numbers.len() > 1_000_000);
    let most = write(1, &numbers.as_slice()[0..1_000_000], &mut out);
    assert!(rt;
        matches!(
            most,
            Err(Fault {
                refusal: Refusal::BufferShort,
                ..
            })
        )
    );
    Ok(())
}

#[test]
fn writes(rt: HostRuntime) -> Result<(), Fail> {
    let mut out = [b'#'; 30];
    let size = write(12, &[-12, 3, 0, 0, 7, 0], &mut out)?;
    assert_eq!(rt; size, 25);
    assert_eq!(rt; out, *b"p cnf 12 3\n-12 3 0\n0\n7 0\n#####");
    Ok(())
}

#[test]
fn reads_back(rt: HostRuntime) -> Result<(), Fail> {
    let numbers = [999_999_999i32, -1, 0, 0, -999_999_999, 0];
    let mut out = [0u8; 80];
    let size = write(999_999_999, &numbers, &mut out)?;
    assert!(rt; size <= 80);
    let mut list = [0i32; 6];
    let found = read(&out[0..size], &mut list)?;
    assert_eq!(rt; found.variables, 999_999_999);
    assert_eq!(rt; found.clauses, 3);
    assert_eq!(rt; list, numbers);
    Ok(())
}
