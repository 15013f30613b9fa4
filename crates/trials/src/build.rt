// Job files that are too long to write out.
use std::alloc::{AllocError, Global};

/// A file.
pub(crate) type File = Vec<u8>;

/// Gates that hand line 0 on, after a head that gives no start values.
pub(crate) fn buffers(heap: Global, head: &[u8], gates: u8) -> Result<File, AllocError> {
    let mut file = Vec::new(heap);
    file.extend_from_slice(head)?;
    for _ in 0..gates {
        file.extend_from_slice(&[1, 1, 0, 1, 1])?;
    }
    Ok(file)
}

/// 8 inputs and so many C-elements, all of 8 pins but for the last, after a map and start values.
pub(crate) fn c_elements(
    heap: Global,
    map: u8,
    start: &[u8],
    gates: u8,
    last_pins: u8,
) -> Result<File, AllocError> {
    let mut file = Vec::new(heap);
    file.extend_from_slice(&[map, 8, gates, 1, 8])?;
    file.extend_from_slice(start)?;
    for _ in 1..gates {
        file.extend_from_slice(&[0, 8, 0, 1, 2, 3, 4, 5, 6, 7])?;
    }
    file.extend_from_slice(&[0, last_pins])?;
    for line in 0..last_pins {
        file.push(line)?;
    }
    Ok(file)
}

/// The longest job there is: every part is given, and every count is at its most.
pub(crate) fn fullest(heap: Global) -> Result<File, AllocError> {
    let mut file = Vec::new(heap);
    file.extend_from_slice(&[3, 8, 40, 8, 40, 41, 42, 43, 44, 45, 46, 47])?;
    file.extend_from_slice(&[0; 6])?;
    for _ in 0..40 {
        file.extend_from_slice(&[3, 8, 0, 1, 2, 3, 4, 5, 6, 47, 8])?;
        file.extend_from_slice(&[255; 8])?;
        file.extend_from_slice(&[1; 8])?;
    }
    file.push(192)?;
    for _ in 0..192 {
        file.extend_from_slice(&[3, 47, 7])?;
    }
    Ok(file)
}
