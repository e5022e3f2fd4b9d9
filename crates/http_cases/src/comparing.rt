//! Compares the output of a golden test with the expected output.

/// Returns the number of the first line in which two texts differ, or `None` if they are equal.
/// Lines are numbered from 1.
pub(crate) fn differs_at(left: &[u8], right: &[u8]) -> Option<u64> {
    if left == right {
        return None;
    }
    let mut line = 1u64;
    for (one, other) in left.iter().zip(right.iter()) {
        if one != other {
            break;
        }
        if *one == b'\n' {
            line = line.saturating_add(1);
        }
    }
    Some(line)
}
