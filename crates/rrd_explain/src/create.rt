//! What of a create is not allowed.
use crate::ranges::{late, whole_out_of_range, wrong_archive, wrong_source};
use rrd_base::{CreateSpec, DsDef, Refusal, RraDef};
use rrd_spec::limits::{MAX_ARCHIVES, MAX_CELLS, MAX_SOURCES};
use std::alloc::Global;

// Returns the number of the definition, counted from 1, that is the data source or the archive with this index. `tag` is
// that of its kind. Without words, the number is that among its kind.
fn definition_of(words: &[&str], tag: &str, index: usize) -> usize {
    let mut number: usize = 0;
    let mut before: usize = 0;
    for word in words {
        let is_of_kind = word.starts_with(tag);
        if is_of_kind || word.starts_with("DS:") || word.starts_with("RRA:") {
            number = number.saturating_add(1);
        }
        if is_of_kind && before == index {
            return number;
        }
        before = before.saturating_add(is_of_kind as usize);
    }
    index.saturating_add(1)
}

// Says in which data source a setting is wrong.
fn in_sources(
    alloc: Global,
    words: &[&str],
    sources: &[DsDef],
    refusal: Refusal,
) -> Option<String> {
    for (index, source) in sources.iter().enumerate() {
        let number = definition_of(words, "DS:", index);
        let found = wrong_source(alloc, refusal, number, source);
        if found.is_some() {
            return found;
        }
    }
    None
}

// Says in which archive a setting is wrong.
fn in_archives(
    alloc: Global,
    words: &[&str],
    archives: &[RraDef],
    refusal: Refusal,
) -> Option<String> {
    for (index, archive) in archives.iter().enumerate() {
        let number = definition_of(words, "RRA:", index);
        let found = wrong_archive(alloc, refusal, number, archive);
        if found.is_some() {
            return found;
        }
    }
    None
}

// Says which name two data sources have.
fn double_name(alloc: Global, sources: &[DsDef]) -> Option<String> {
    for (index, source) in sources.iter().enumerate() {
        let before = sources.get(..index)?;
        if before.iter().any(|other| other.name.same(&source.name)) {
            let name = source.name.as_str();
            return format!(in alloc; "two data sources would have the name {name}").ok();
        }
    }
    None
}

// Returns the number of rows of all archives.
fn rows_of(archives: &[RraDef]) -> u64 {
    let mut rows: u64 = 0;
    for archive in archives {
        rows = rows.saturating_add(archive.rows);
    }
    rows
}

// Says what is too many.
fn too_large(alloc: Global, spec: &CreateSpec) -> Option<String> {
    let (sources, archives) = (spec.sources.len(), spec.archives.len());
    let rows = rows_of(spec.archives.as_slice());
    if sources > MAX_SOURCES {
        return format!(in alloc;
            "there are {sources} data sources, and at most {MAX_SOURCES} are allowed"
        ).ok();
    }
    if archives > MAX_ARCHIVES {
        return format!(in alloc;
            "there are {archives} archives, and at most {MAX_ARCHIVES} are allowed"
        ).ok();
    }
    if rows.saturating_mul(sources as u64) > MAX_CELLS {
        return format!(in alloc;
            "data sources times rows are {sources} times {rows}, and at most {MAX_CELLS}"
        ).ok();
    }
    None
}

/// Says what of a create is not allowed.
pub(crate) fn of_create(
    alloc: Global,
    words: &[&str],
    spec: &CreateSpec,
    refusal: Refusal,
) -> Option<String> {
    match refusal {
        Refusal::BadStep => whole_out_of_range(alloc, "--step", spec.step, "1 to 1000000 seconds"),
        Refusal::BadDepth => whole_out_of_range(
            alloc,
            "--journal",
            spec.depth,
            "1 to 100000 changes",
        ),
        Refusal::BadStart => late(alloc, "--start is", spec.start),
        Refusal::DoubleName => double_name(alloc, spec.sources.as_slice()),
        Refusal::TooLarge => too_large(alloc, spec),
        Refusal::BadName | Refusal::BadHeartbeat | Refusal::BadBounds => in_sources(
            alloc,
            words,
            spec.sources.as_slice(),
            refusal,
        ),
        Refusal::BadXff | Refusal::BadSteps | Refusal::BadRows => in_archives(
            alloc,
            words,
            spec.archives.as_slice(),
            refusal,
        ),
        _ => None,
    }
}
