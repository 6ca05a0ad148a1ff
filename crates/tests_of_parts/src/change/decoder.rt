//! What a file stands for, decoded by the description of its format alone.
use std::alloc::{AllocError, Global};

// The number in eight bytes from an offset on, the highest byte first.
fn number_at(bytes: &[u8], at: usize) -> Option<usize> {
    let eight = bytes.get(at..)?.first_chunk::<8>()?;
    Some(u64::from_be_bytes(*eight) as usize)
}

// A checksum with these bytes, which zeros complete to words.
fn sum_with(start: u64, bytes: &[u8]) -> u64 {
    let mut sum = start;
    for part in bytes.chunks(8) {
        let mut word = [0; 8];
        for (byte, found) in word.iter_mut().zip(part) {
            *byte = *found;
        }
        let product = (sum ^ u64::from_be_bytes(word)).wrapping_mul(0xd6e8_feb8_6659_fd93);
        sum = (product ^ (product >> 32)).wrapping_mul(0xbf58_476d_1ce4_e5b9);
    }
    sum
}

// The right and complete change at an offset of a log: the size of the database, the number of the pieces, and these.
fn change_at(file: &[u8], tail: usize, at: usize) -> Option<(usize, usize, &[u8])> {
    let rest = file.get(at..)?;
    let body = rest.get(48..number_at(rest, 16)?.checked_add(48)?)?;
    let sum = sum_with(sum_with(0x9e37_79b9_7f4a_7c15, rest.get(..40)?), body);
    let size = number_at(rest, 32)?;
    let is_right = number_at(rest, 0) == Some(at)
        && number_at(rest, 8) == Some(tail)
        && number_at(rest, 40) == Some(sum as usize)
        && (16..=tail).contains(&size);
    let pieces = number_at(rest, 24)?;
    is_right.then_some((size, pieces, body))
}

// Lays pieces over a database.
fn lay(database: &mut Vec<u8>, pieces: usize, body: &[u8]) -> Option<()> {
    let mut rest = body;
    for _ in 0..pieces {
        let (start, count) = (number_at(rest, 0)?, number_at(rest, 8)?);
        let end = count.checked_add(16)?;
        if start.checked_add(count)? > database.len() {
            return None;
        }
        let new = rest.get(16..end)?;
        for (old, byte) in database.iter_mut().skip(start).zip(new) {
            *old = *byte;
        }
        rest = rest.get(end..)?;
    }
    rest.is_empty().then_some(())
}

// The database of a log: the bytes below the log with each change laid over them. Without a change there is none.
fn logged(alloc: Global, file: &[u8]) -> Result<Option<Vec<u8>>, AllocError> {
    let tail = number_at(file, 8).unwrap_or(usize::MAX);
    let mut database = Vec::from_slice(alloc, file.get(..tail).unwrap_or(&[]))?;
    let mut at = tail;
    for _ in 0..file.len() {
        let Some((size, pieces, body)) = change_at(file, tail, at) else {
            break;
        };
        database.resize(size, 0)?;
        if lay(&mut database, pieces, body).is_none() {
            return Ok(None);
        }
        at = at.saturating_add(48).saturating_add(body.len());
    }
    Ok((at > tail).then_some(database))
}

// The database under a cut mark. Here the bytes from the ninth to the sixteenth are the length of a database.
fn cut(alloc: Global, file: &[u8]) -> Result<Option<Vec<u8>>, AllocError> {
    let rest = number_at(file, 8).and_then(|length| file.get(4..length));
    let mut database = Vec::from_slice(alloc, b"RRDI")?;
    database.extend_from_slice(rest.unwrap_or(&[]))?;
    Ok(rest.map(|_| database))
}

// The database that a file stands for: the empty one, if the file has no byte or begins with a zero.
pub(super) fn stands_for(alloc: Global, file: &[u8]) -> Result<Option<Vec<u8>>, AllocError> {
    if file.starts_with(b"RRDC") {
        cut(alloc, file)
    } else if file.starts_with(b"RRDLog\0\0") {
        logged(alloc, file)
    } else if file.starts_with(b"RRDI") {
        Ok(Some(Vec::from_slice(alloc, file)?))
    } else {
        let is_empty = *file.first().unwrap_or(&0) == 0;
        Ok(is_empty.then_some(Vec::new(alloc)))
    }
}
