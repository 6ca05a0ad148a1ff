//! What of a fetch, a first, a resize or a revert is not allowed, or not by its file.
use crate::file::{no_archive, no_function, no_row};
use crate::numbers::is_within;
use crate::ranges::{late, whole_out_of_range};
use rrd_base::{Database, Refusal};
use rrd_spec::FetchRequest;
use rrd_spec::limits::{MAX_ROWS, MAX_TIME};
use std::alloc::Global;

/// How many seconds before its end a fetch starts without `--start`.
const DAY: u64 = 86_400;

// Says which time is too late. A start that follows from the end is not named.
fn late_option(alloc: Global, request: &FetchRequest) -> Option<String> {
    let FetchRequest { start, end, .. } = *request;
    if end > MAX_TIME && start == end.saturating_sub(DAY) {
        return late(alloc, "--end is", end);
    }
    late(alloc, "--start is", start).or(late(alloc, "--end is", end))
}

// Says which times make no span.
fn no_span(alloc: Global, request: &FetchRequest, now: u64) -> Option<String> {
    let FetchRequest { start, end, .. } = *request;
    let says = if end == now {
        format!(in alloc; "--start is {start}, after now, where it ends without --end")
    } else {
        format!(in alloc; "--start is {start}, after --end, which is {end}")
    };
    says.ok()
}

/// Says what of a fetch at the time `now` is not allowed.
pub(crate) fn of_fetch(
    alloc: Global,
    database: Option<&Database>,
    request: &FetchRequest,
    refusal: Refusal,
    now: u64,
) -> Option<String> {
    match refusal {
        Refusal::BadTime => late_option(alloc, request),
        Refusal::BadSpan => no_span(alloc, request, now),
        Refusal::NoArchiveForFunction => no_function(alloc, database?),
        _ => None,
    }
}

/// Says what of a first is not allowed.
pub(crate) fn of_first(
    alloc: Global,
    database: Option<&Database>,
    refusal: Refusal,
) -> Option<String> {
    match refusal {
        Refusal::NoSuchArchive => no_archive(alloc, database?),
        _ => None,
    }
}

/// Says why nothing is reverted.
pub(crate) fn of_revert(
    alloc: Global,
    database: Option<&Database>,
    refusal: Refusal,
) -> Option<String> {
    match refusal {
        Refusal::NothingToRevert => {
            let depth = database?.depth();
            format!(in alloc;
                "no change is left in the journal, which keeps the newest {depth}"
            ).ok()
        }
        _ => None,
    }
}

// Says why the number of rows of a resize is not in its range.
fn wrong_rows(
    alloc: Global,
    database: Option<&Database>,
    archive: u64,
    rows: u64,
) -> Option<String> {
    if !is_within(MAX_ROWS, rows) {
        return whole_out_of_range(alloc, "the number of rows", rows, "1 to 1000000");
    }
    let database = database?;
    if archive >= database.archives() {
        return None;
    }
    let before = database.archive(archive).rows;
    let most = MAX_ROWS.saturating_sub(before);
    format!(in alloc; "archive {archive} has {before} rows; at most {most} can be added").ok()
}

/// Says what of a resize by `rows` rows is not allowed.
pub(crate) fn of_resize(
    alloc: Global,
    database: Option<&Database>,
    archive: u64,
    rows: u64,
    refusal: Refusal,
) -> Option<String> {
    match refusal {
        Refusal::NoSuchArchive => no_archive(alloc, database?),
        Refusal::BadRows => wrong_rows(alloc, database, archive, rows),
        Refusal::ShrinkTooFar => no_row(alloc, database?, archive),
        _ => None,
    }
}
