//! An archive of 3 rows and 1 source, each call of it once, and each call that takes memory also
//! where a growth is refused: a run under `rt try --test --fail-alloc N` refuses the Nth one.
ghost use Rattle.std.specs.Prelude.{◌≡◌, ◌≤◌, length, IfOk};
ghost use Rattle.rrd_ring.specs.Rows.{width, HasWidth, max_rows};

use rrd_fixed::{Meter, StoredCell};
use rrd_ring::{Archive, Dropped, DroppedCells, Table};
use std::alloc::{AllocError, Global};
use std::process::Abort;
use std::test::Fail;

// The number of an unknown cell.
const UNKNOWN: i128 = i128::MIN;

const ONE: i128 = 1;

const TWO: i128 = 2;

const THREE: i128 = 3;

const FOUR: i128 = 4;

const FIVE: i128 = 5;

const SIX: i128 = 6;

const SEVEN: i128 = 7;

const EIGHT: i128 = 8;

const NINE: i128 = 9;

const TEN: i128 = 10;

// The stored cells of these numbers.
fn stored(alloc: Global, numbers: &[i128]) -> Result<Vec<StoredCell>, AllocError>
    ensures { IfOk result (λ cells. length cells.items ≡ length numbers.now) }
{
    let mut cells = Vec::new(alloc);
    for number in numbers {
        cells.push(StoredCell::of_number(*number))?;
    }
    Ok(cells)
}

// The cells have these numbers.
fn assert_cells(rt: &impl Abort, cells: &[StoredCell], numbers: &[i128], case: u64) {
    assert!(rt; cells.len() == numbers.len(), "{case}");
    for (i, cell) in cells.iter().enumerate() {
        assert_eq!(rt; Some(&cell.number()), numbers.get(i), "{case}, {i}");
    }
}

// The archive has these rows, of one cell each.
fn assert_rows(rt: &impl Abort, archive: &Archive, numbers: &[i128])
    ensures count { length archive.now ≡ length numbers.now }
    ensures one_source { width archive.now ≡ 1 }
    ensures each_row { HasWidth 1 archive.now }
{
    assert_eq!(rt; archive.rows(), numbers.len() as u64);
    assert_eq!(rt; archive.sources(), 1);
    for (i, number) in numbers.iter().enumerate() {
        assert_cells(rt, archive.row(i as u64), &[*number], i as u64);
    }
}

// The same of dropped rows.
fn assert_dropped(rt: &impl Abort, dropped: &Dropped, numbers: &[i128])
    ensures { length dropped.now ≡ length numbers.now }
{
    assert_eq!(rt; dropped.len(), numbers.len() as u64);
    for (i, number) in numbers.iter().enumerate() {
        let (_, row) = dropped.contiguous_rows(i as u64, 1);
        assert_cells(rt, row, &[*number], i as u64);
    }
}

// Dropped rows of one cell each.
fn dropped_rows(alloc: Global, numbers: &[i128]) -> Result<Dropped, AllocError>
    requires { length numbers.now ≤ max_rows }
    ensures { IfOk result (λ dropped. (length dropped ≡ length numbers.now) × HasWidth 1 dropped) }
{
    let cells = stored(alloc, numbers)?;
    let rows = cells.len() as u64;
    Ok(Dropped::from_cells(DroppedCells::from_slice(alloc, &cells)?, rows, 1))
}

// Pushes a row of one cell, which is one turn.
fn push(rt: &impl Abort, archive: &mut Archive, number: i128) {
    assert_eq!(rt; archive.sources(), 1);
    let mut meter = Meter::new();
    archive.push_row(&[StoredCell::of_number(number)], &mut meter);
    assert_eq!(rt; meter.turns(), 1);
}

#[test]
fn archive_as_list(rt: HostRuntime) -> Result<(), Fail> {
    let alloc = rt.alloc();
    let mut archive = Archive::new(alloc, 3, 1)?;
    assert_rows(&rt, &archive, &[UNKNOWN, UNKNOWN, UNKNOWN]);
    for number in [ONE, TWO, THREE, FOUR] {
        push(&rt, &mut archive, number);
    }
    assert_rows(&rt, &archive, &[TWO, THREE, FOUR]);
    let dropped = archive.oldest(alloc, 2)?;
    assert_dropped(&rt, &dropped, &[TWO, THREE]);
    for number in [FIVE, SIX] {
        push(&rt, &mut archive, number);
    }
    assert_rows(&rt, &archive, &[FOUR, FIVE, SIX]);
    archive.put_back(dropped);
    assert_rows(&rt, &archive, &[TWO, THREE, FOUR]);
    assert_rows(&rt, &archive.resized(alloc, 2)?, &[THREE, FOUR]);
    assert_rows(
        &rt,
        &archive.resized(alloc, 5)?,
        &[UNKNOWN, UNKNOWN, TWO, THREE, FOUR],
    );
    assert_dropped(&rt, &dropped_rows(alloc, &[UNKNOWN, TWO])?, &[UNKNOWN, TWO]);
    Ok(())
}

#[test]
fn rows_are_written_and_swapped(rt: HostRuntime) -> Result<(), Fail> {
    let alloc = rt.alloc();
    let mut archive = Archive::new(alloc, 2, 1)?;
    archive
        .row_mut(1)
        .copy_from_slice(&[StoredCell::of_number(ONE)]);
    let mut other = Archive::new(alloc, 1, 1)?;
    archive.swap(&mut other);
    assert_rows(&rt, &archive, &[UNKNOWN]);
    assert_rows(&rt, &other, &[UNKNOWN, ONE]);
    Ok(())
}

// An archive of three rows after the pushes of 1 to 10: it went round three times, and its oldest
// row lies between the two others.
fn pushed_to_ten(rt: &impl Abort, alloc: Global) -> Result<Archive, AllocError>
    ensures { IfOk result (λ archive. (length archive ≡ 3) × (width archive ≡ 1)) }
{
    let mut archive = Archive::new(alloc, 3, 1)?;
    for number in [ONE, TWO, THREE, FOUR, FIVE, SIX, SEVEN, EIGHT, NINE, TEN] {
        push(rt, &mut archive, number);
    }
    assert_rows(rt, &archive, &[EIGHT, NINE, TEN]);
    Ok(archive)
}

// A row of three, how many are changed from it on, the numbers that are put there (none: they become unknown), and the three
// rows then.
const CHANGED: &[(u64, u64, Option<&[i128]>, &[i128])] = &[
    (0, 0, Some(&[]), &[EIGHT, NINE, TEN]),
    (0, 1, Some(&[ONE]), &[ONE, NINE, TEN]),
    (1, 2, Some(&[ONE, TWO]), &[EIGHT, ONE, TWO]),
    (2, 2, Some(&[ONE, TWO]), &[TWO, NINE, ONE]),
    (2, 3, Some(&[ONE, TWO, THREE]), &[TWO, THREE, ONE]),
    (0, 0, None, &[EIGHT, NINE, TEN]),
    (0, 1, None, &[UNKNOWN, NINE, TEN]),
    (1, 2, None, &[EIGHT, UNKNOWN, UNKNOWN]),
    (2, 2, None, &[UNKNOWN, NINE, UNKNOWN]),
    (1, 3, None, &[UNKNOWN, UNKNOWN, UNKNOWN]),
];

#[test]
fn rows_are_changed_round_the_end(rt: HostRuntime) -> Result<(), Fail> {
    let alloc = rt.alloc();
    for (first, count, numbers, rows) in CHANGED {
        let mut archive = pushed_to_ten(&rt, alloc)?;
        assert!(&rt;
            *first < archive.rows() && *count <= archive.rows(),
            "{count} from {first}"
        );
        match numbers {
            Some(numbers) => {
                let cells = stored(alloc, numbers)?;
                assert_eq!(&rt; cells.len() as u64, *count, "{count} from {first}");
                archive.write_rows_wrapping(*first, *count, &cells);
            }
            None => archive.clear_rows_wrapping(*first, *count),
        }
        assert_rows(&rt, &archive, rows);
    }
    Ok(())
}

// Four rows that are written from the third on: what isn't written stays unknown.
#[test]
fn rows_are_written_from_one_on(rt: HostRuntime) -> Result<(), Fail> {
    let alloc = rt.alloc();
    let mut archive = Archive::new_filled_from(alloc, 4, 1, 2)?;
    assert_rows(&rt, &archive, &[UNKNOWN, UNKNOWN, UNKNOWN, UNKNOWN]);
    archive.write_rows_wrapping(2, 1, &[StoredCell::of_number(ONE)]);
    archive.clear_rows_wrapping(3, 2);
    assert_rows(&rt, &archive, &[UNKNOWN, UNKNOWN, ONE, UNKNOWN]);
    archive.write_rows_wrapping(1, 1, &[StoredCell::of_number(TWO)]);
    assert_rows(&rt, &archive, &[UNKNOWN, TWO, ONE, UNKNOWN]);
    Ok(())
}

// The rows are lent from the oldest on in these runs, of rows of one cell.
fn assert_runs<T: Table>(rt: &impl Abort, rows: &T, runs: &[&[i128]]) {
    let mut first = 0;
    for numbers in runs {
        assert!(rt; first < rows.count(), "from {first}");
        let (count, lent) = rows.together(first, rows.count() - first);
        assert_cells(rt, lent, numbers, first);
        assert_eq!(rt; count, numbers.len() as u64, "from {first}");
        first += count;
    }
    assert_eq!(rt; first, rows.count());
}

#[test]
fn rows_are_lent_together(rt: HostRuntime) -> Result<(), Fail> {
    let alloc = rt.alloc();
    let archive = pushed_to_ten(&rt, alloc)?;
    assert_runs(&rt, &archive, &[&[EIGHT, NINE], &[TEN]]);
    let dropped = archive.oldest(alloc, 3)?;
    assert_runs(&rt, &dropped, &[&[EIGHT, NINE, TEN]]);
    let mut archive = Archive::new(alloc, 3, 1)?;
    assert_runs(&rt, &archive, &[&[UNKNOWN], &[UNKNOWN], &[UNKNOWN]]);
    push(&rt, &mut archive, ONE);
    push(&rt, &mut archive, TWO);
    assert_runs(&rt, &archive, &[&[UNKNOWN], &[ONE, TWO]]);
    assert_runs(&rt, &dropped_rows(alloc, &[])?, &[]);
    Ok(())
}

// Two cells in a row: as many rows are lent as are asked for.
#[test]
fn wider_rows_are_lent_as_asked(rt: HostRuntime) -> Result<(), Fail> {
    let alloc = rt.alloc();
    let mut archive = Archive::new(alloc, 3, 2)?;
    let cells = stored(alloc, &[ONE, TWO, THREE, FOUR, FIVE, SIX])?;
    assert!(&rt; cells.len() == 6);
    archive.write_rows_wrapping(0, 3, &cells);
    let dropped = archive.oldest(alloc, 3)?;
    for (first, most, numbers) in [
        (0, 1, [ONE, TWO].as_slice()),
        (0, 3, &[ONE, TWO, THREE, FOUR, FIVE, SIX]),
        (1, 2, &[THREE, FOUR, FIVE, SIX]),
        (2, 1, &[FIVE, SIX]),
    ] {
        let (count, lent) = archive.contiguous_rows(first, most);
        assert_eq!(&rt; count, most, "{most} from {first}");
        assert_cells(&rt, lent, numbers, first);
        assert!(&rt; first + most <= dropped.len(), "{most} from {first}");
        let (count, lent) = dropped.contiguous_rows(first, most);
        assert_eq!(&rt; count, most, "{most} from {first}");
        assert_cells(&rt, lent, numbers, first);
    }
    Ok(())
}

// Where a call finds no memory the archive is as before, and the same call is answered once there is
// memory: a run refuses one growth alone. (The other tests then end with the error.)
#[test]
fn refused_growth_changes_nothing(rt: HostRuntime) -> Result<(), Fail> {
    let alloc = rt.alloc();
    let mut archive = match Archive::new(alloc, 3, 1) {
        Ok(archive) => archive,
        Err(AllocError) => Archive::new(alloc, 3, 1)?,
    };
    push(&rt, &mut archive, ONE);
    assert_rows(&rt, &archive, &[UNKNOWN, UNKNOWN, ONE]);
    let dropped = match archive.oldest(alloc, 3) {
        Ok(dropped) => dropped,
        Err(AllocError) => {
            assert_rows(&rt, &archive, &[UNKNOWN, UNKNOWN, ONE]);
            archive.oldest(alloc, 3)?
        }
    };
    assert_dropped(&rt, &dropped, &[UNKNOWN, UNKNOWN, ONE]);
    let grown = match archive.resized(alloc, 4) {
        Ok(grown) => grown,
        Err(AllocError) => {
            assert_rows(&rt, &archive, &[UNKNOWN, UNKNOWN, ONE]);
            archive.resized(alloc, 4)?
        }
    };
    assert_rows(&rt, &grown, &[UNKNOWN, UNKNOWN, UNKNOWN, ONE]);
    Ok(())
}
