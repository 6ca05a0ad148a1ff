//! Files that should be the same: the first byte that differs, and the piece of the file that it is in.

// The number that these bytes of a file spell, the highest byte first; 0 where the file is too short.
fn number_at(file: &[u8], at: usize, count: usize) -> usize {
    let mut number = 0usize;
    for byte in file.get(at..at.saturating_add(count)).unwrap_or(&[]) {
        number = number.saturating_mul(256).saturating_add(*byte as usize);
    }
    number
}

// What a header says: where it ends, and how many sources and archives follow.
fn header_of(file: &[u8]) -> (usize, usize, usize) {
    if number_at(file, 4, 2) == 1 {
        return (26, number_at(file, 20, 2), number_at(file, 22, 2));
    }
    (30, number_at(file, 22, 2), number_at(file, 24, 2))
}

// The piece of a file that has a byte, and its number among its like.
fn piece_at(file: &[u8], at: usize) -> (&'static str, usize) {
    let (header, sources, archives) = header_of(file);
    if at < header {
        return ("mark, version or header", 0);
    }
    let archive_heads = header.saturating_add(sources.saturating_mul(97));
    if at < archive_heads {
        return ("source", at.saturating_sub(header) / 97);
    }
    let head = 13usize.saturating_add(sources.saturating_mul(20));
    let cells = archive_heads.saturating_add(archives.saturating_mul(head));
    if at < cells {
        return (
            "archive",
            at.saturating_sub(archive_heads)
                .checked_div(head)
                .unwrap_or(0),
        );
    }
    let mut rows = 0usize;
    for archive in 0..archives {
        let begin = archive_heads.saturating_add(archive.saturating_mul(head));
        rows = rows.saturating_add(number_at(file, begin.saturating_add(9), 4));
    }
    let entries = cells.saturating_add(rows.saturating_mul(sources).saturating_mul(16));
    if at < entries {
        return ("cell", at.saturating_sub(cells) / 16);
    }
    ("byte of the entries", at.saturating_sub(entries))
}

/// The first byte in which two files differ. `None` stands for a byte past a file's end.
#[derive(Clone, Copy, Debug, PartialEq, Eq)]
pub struct Difference {
    pub at: usize,
    /// The piece of the wanted file that has the byte, and its number among its like.
    pub piece: &'static str,
    pub number: usize,
    pub byte: Option<u8>,
    pub wanted: Option<u8>,
}

/// Returns the first byte in which a file differs from the wanted one, if there is any.
pub fn first_difference(file: &[u8], wanted: &[u8]) -> Option<Difference> {
    for at in 0..file.len().max(wanted.len()) {
        let (byte, right) = (file.get(at).copied(), wanted.get(at).copied());
        if byte != right {
            let (piece, number) = piece_at(wanted, at);
            return Some(Difference {
                at,
                piece,
                number,
                byte,
                wanted: right,
            });
        }
    }
    None
}
