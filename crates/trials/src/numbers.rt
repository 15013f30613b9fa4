// The number, the layer and the place of each ground, as a grading gives them.
use crate::build::c_elements;
use job::job::Job;
use job::read::read;
use refusal::GradingFault;
use std::process::Abort;
use std::test::Fail;

// A file, then the number, the layer and the place of its refusal.
const GROUNDS: [(&[u8], u8, u8, usize); 6] = [
    (&[0, 2, 1, 1, 2, 0, 2, 0], 1, 1, 8),
    (&[0, 2, 1, 9, 2, 0, 2, 0, 1], 2, 1, 3),
    (&[0, 2, 1, 1, 2, 4, 2, 0, 1], 3, 1, 5),
    (&[0, 2, 1, 1, 2, 0, 2, 3, 1], 4, 1, 7),
    (&[0, 2, 1, 1, 2, 0, 2, 0, 1, 0], 5, 1, 9),
    (&[0, 1, 1, 1, 1, 3, 1, 0, 1, 1, 1], 7, 2, 1),
];

// Checks the three numbers of a refusal.
fn check_refused(
    rt: &impl Abort,
    file: &[u8],
    number: u8,
    layer: u8,
    place: usize,
) -> Result<(), Fail> {
    let refused = read(file, &mut Job::built_in()).err().ok_or("accepted")?;
    let fault = GradingFault::from(refused);
    assert_eq!(rt;
        (fault.number(), fault.layer(), fault.place()),
        (number, layer, place)
    );
    Ok(())
}

#[test]
fn grounds(rt: HostRuntime) -> Result<(), Fail> {
    for (file, number, layer, place) in &GROUNDS {
        check_refused(&rt, file, *number, *layer, *place)?;
    }
    check_refused(&rt, &c_elements(rt.alloc(), 0, &[], 10, 7)?, 6, 2, 194)
}
