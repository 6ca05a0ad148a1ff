//! The checks of a new database.
ghost use Rattle.std.specs.Prelude.{◌≡◌, ◌*◌, ◌≤◌, ◌||◌, nat_lt, not};
ghost use Rattle.rrd_base.specs.Names.{list_any, result_err, is_good, present};
ghost use Rattle.rrd_spec.specs.Commands.Creating as creating;
ghost use Rattle.rrd_spec.specs.Commands.Verdict as verdict;

use crate::named::has_double_name;
use crate::rows::all_rows;
use crate::{CreateSpec, DsDef, Refusal, RraDef};
use rrd_spec::limits::{
    MAX_ARCHIVES, MAX_BOUND, MAX_CELLS, MAX_HEARTBEAT, MAX_JOURNAL_DEPTH, MAX_ROWS, MAX_SOURCES,
    MAX_STEP_SECONDS, MAX_STEPS_PER_ROW, MAX_TIME, MAX_XFF,
};

/// Checks whether a database can be created.
///
/// # Errors
/// The first check that fails, each over all data sources or archives before the next, in the order of
/// `Database::create`; memory is not checked.
pub(crate) fn check_create(spec: &CreateSpec) -> Result<(), Refusal>
    ensures { result_err result ≡ creating.create_verdict spec.now }
{
    check_first(spec)?;
    check_sources(spec.sources.as_slice())?;
    check_archives(spec.archives.as_slice())?;
    check_size(spec)
}

fn check_first(spec: &CreateSpec) -> Result<(), Refusal>
    ensures { result_err result ≡ verdict.first_refusal (creating.first_checks present spec.now) }
{
    if is_bad_step(spec.step) {
        return Err(Refusal::BadStep);
    }
    if spec.start > MAX_TIME {
        return Err(Refusal::BadStart);
    }
    if spec.sources.len() == 0 {
        return Err(Refusal::NoSource);
    }
    if spec.archives.len() == 0 {
        return Err(Refusal::NoArchive);
    }
    Ok(())
}

fn check_sources(sources: &[DsDef]) -> Result<(), Refusal>
    ensures { result_err result ≡ verdict.first_refusal (creating.source_checks present sources.now) }
{
    if any_bad_name(sources) {
        return Err(Refusal::BadName);
    }
    if has_double_name(sources) {
        return Err(Refusal::DoubleName);
    }
    if any_bad_heartbeat(sources) {
        return Err(Refusal::BadHeartbeat);
    }
    if any_bad_bounds(sources) {
        return Err(Refusal::BadBounds);
    }
    Ok(())
}

/// Checks the settings of archives, each number over all archives before the next one.
///
/// # Errors
///
/// The first of these, in this order: `BadXff`, `BadSteps`, `BadRows`.
pub(crate) fn check_archives(archives: &[RraDef]) -> Result<(), Refusal>
    ensures { result_err result ≡ verdict.first_refusal (creating.archive_checks present archives.now) }
{
    if any_bad_xff(archives) {
        return Err(Refusal::BadXff);
    }
    if any_bad_steps(archives) {
        return Err(Refusal::BadSteps);
    }
    if any_bad_rows(archives) {
        return Err(Refusal::BadRows);
    }
    Ok(())
}

fn check_size(spec: &CreateSpec) -> Result<(), Refusal>
    ensures { result_err result ≡ verdict.first_refusal (creating.size_checks present spec.now) }
{
    if is_too_large(spec) {
        return Err(Refusal::TooLarge);
    }
    if is_bad_depth(spec.depth) {
        return Err(Refusal::BadDepth);
    }
    Ok(())
}

/// Returns whether a step is not 1 to 1,000,000 seconds.
pub(crate) fn is_bad_step(seconds: u64) -> bool
    ensures { result ≡ creating.is_bad_step present seconds }
{
    seconds == 0 || seconds > MAX_STEP_SECONDS
}

/// Returns whether the depth of a journal is not 1 to 100,000.
fn is_bad_depth(depth: u64) -> bool
    ensures { result ≡ creating.is_bad_depth present depth }
{
    depth == 0 || depth > MAX_JOURNAL_DEPTH
}

// ---- checks of data sources

fn any_bad_name(sources: &[DsDef]) -> bool
    ensures { result ≡ list_any (λ source. not (is_good source.name)) sources.now }
{
    sources.iter().any(|source| !source.name.good())
}

fn any_bad_heartbeat(sources: &[DsDef]) -> bool
    ensures { result ≡ list_any (λ source. verdict.is_bad_heartbeat present source.heartbeat) sources.now }
{
    sources
        .iter()
        .any(|source| is_bad_heartbeat(source.heartbeat))
}

fn any_bad_bounds(sources: &[DsDef]) -> bool
    ensures { result ≡ list_any (verdict.has_bad_bounds present) sources.now }
{
    sources.iter().any(|source| has_bad_bounds(source))
}

/// Returns whether a heartbeat is not 1 to 9,999,999,999 seconds.
pub(crate) fn is_bad_heartbeat(seconds: u64) -> bool
    ensures { result ≡ verdict.is_bad_heartbeat present seconds }
{
    seconds == 0 || seconds > MAX_HEARTBEAT
}

/// Returns whether a bound has an absolute value above the maximum rate, or the minimum is above the maximum.
pub(crate) fn has_bad_bounds(source: &DsDef) -> bool
    ensures { result ≡ verdict.has_bad_bounds present source.now }
{
    is_far(source.min) || is_far(source.max) || is_crossed(source.min, source.max)
}

fn is_far(bound: Option<i128>) -> bool
    ensures { result ≡ verdict.is_far present bound }
{
    match bound {
        Some(bound) => bound.unsigned_abs() > MAX_BOUND,
        None => false,
    }
}

fn is_crossed(min: Option<i128>, max: Option<i128>) -> bool
    ensures { result ≡ verdict.is_crossed min max }
{
    match (min, max) {
        (Some(min), Some(max)) => max < min,
        _ => false,
    }
}

// ---- checks of archives

fn any_bad_xff(archives: &[RraDef]) -> bool
    ensures { result ≡ list_any (λ archive. creating.is_bad_xff present archive.xff) archives.now }
{
    archives.iter().any(|archive| is_bad_xff(archive.xff))
}

fn any_bad_steps(archives: &[RraDef]) -> bool
    ensures { result ≡ list_any (λ archive. creating.is_bad_steps present archive.steps) archives.now }
{
    archives.iter().any(|archive| is_bad_steps(archive.steps))
}

fn any_bad_rows(archives: &[RraDef]) -> bool
    ensures { result ≡ list_any (λ archive. verdict.is_bad_rows present archive.rows) archives.now }
{
    archives.iter().any(|archive| is_bad_rows(archive.rows))
}

/// Returns whether an xff, in millionths, is not from 0 to below 1.
pub(crate) fn is_bad_xff(xff: i128) -> bool
    ensures { result ≡ creating.is_bad_xff present xff }
{
    xff < 0 || xff > MAX_XFF
}

/// Returns whether the number of steps in a row is not 1 to 1,000,000.
pub(crate) fn is_bad_steps(steps: u64) -> bool
    ensures { result ≡ creating.is_bad_steps present steps }
{
    steps == 0 || steps > MAX_STEPS_PER_ROW
}

/// Returns whether a number of rows is not 1 to 1,000,000.
pub(crate) fn is_bad_rows(rows: u64) -> bool
    ensures { result ≡ verdict.is_bad_rows present rows }
{
    rows == 0 || rows > MAX_ROWS
}

// ---- checks of the size

// Returns whether there are too many data sources, archives or cells.
fn is_too_large(spec: &CreateSpec) -> bool
    ensures { result ≡ creating.is_too_large present spec.now }
{
    let sources = spec.sources.len();
    let rows = all_rows(spec.archives.as_slice());
    sources > MAX_SOURCES || is_beyond_limits(sources, spec.archives.len(), rows)
}

/// Returns whether `archives` archives, or the cells of `sources` data sources with `rows` rows, are too many.
pub(crate) fn is_beyond_limits(sources: usize, archives: usize, rows: u64) -> bool
    ensures { result ≡ nat_lt present.max_archives archives || nat_lt present.max_cells (sources * rows) }
{
    archives > MAX_ARCHIVES || has_too_many_cells(MAX_CELLS, sources, rows)
}

/// Returns whether `sources` data sources with `rows` rows have more than `most` cells.
pub(crate) fn has_too_many_cells(most: u64, sources: usize, rows: u64) -> bool
    requires { most ≤ present.max_cells }
    ensures { result ≡ nat_lt most (sources * rows) }
{
    (sources as u64).saturating_mul(rows) > most
}
