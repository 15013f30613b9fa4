// What the program prints for an input.
use reply::text::reply;
use std::test::Fail;

/// An input and the text that answers it.
type Reply = (&'static [u8], &'static str);

const REPLIES: [Reply; 7] = [
    (&[], "refused 1 layer 1 place 0\n"),
    (&[0], "refused 1 layer 1 place 0\n"),
    (&[0, 0], "refused 1 layer 1 place 0\n"),
    (&[255, 255, 255], "refused 3 layer 1 place 0\n"),
    (
        &[0, 10, 1, 2, 1, 1, 2, 4, 0, 2, 0, 1],
        "refused 7 layer 2 place 2\n",
    ),
    (
        &[0, 8, 0, 2, 1, 1, 2, 0, 2, 0, 1],
        "refused 1 layer 1 place 8\n",
    ),
    (
        &[0, 15, 2, 2, 1, 1, 2, 0, 2, 0, 1, 2, 1, 0, 3, 2, 1, 1, 1],
        "inputs 2 gates 1 outputs 1 faults 2\n0 L0 sa1\n1 L2.1 sa1\n",
    ),
];

#[test]
fn texts(rt: HostRuntime) -> Result<(), Fail> {
    for (input, expected) in &REPLIES {
        let text = reply(rt.alloc(), input)?;
        assert_eq!(rt; text.as_str(), *expected);
    }
    Ok(())
}

#[test]
fn noise(rt: HostRuntime) -> Result<(), Fail> {
    let text = reply(rt.alloc(), &[255; 8192])?;
    assert_eq!(rt; text.as_str(), "refused 3 layer 1 place 0\n");
    Ok(())
}
