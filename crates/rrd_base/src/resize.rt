//! The resize of an archive: the checks, the new rows, and how a resize is undone.
ghost use Rattle.std.specs.Prelude.{◌≡◌, ◌<◌, ◌≤◌, IfOk, None, length, slice_index_or, sum};
ghost use Rattle.rrd_base.specs.Names.{AllByRecursion, result_err, newest_rows, Resizing, all_rows_after, rows_changed, rows_of_archives, Resized, ResizeEntry, rows_at, undone, with_rows_at, present, IsValid};
ghost use Rattle.rrd_base.specs.Words.{HasFewRows, settings};
ghost use Rattle.rrd_spec.specs.Commands.Verdict as verdict;

use crate::content::Content;
use crate::create::{has_too_many_cells, is_bad_rows};
use crate::rows::all_rows;
use crate::rra::Rra;
use crate::{Change, DsDef, Refusal};
use rrd_ring::Archive;
use rrd_spec::laws;
use rrd_spec::limits::{MAX_CELLS, MAX_ROWS};
use std::alloc::{AllocError, Global};

// Returns whether the archive would have too many rows.
fn grows_too_far(change: Change, old: u64, rows: u64) -> bool
    requires small { old ≤ present.max_rows }
    requires few { rows ≤ present.max_rows }
    ensures { result ≡ verdict.grows_too_far present change old rows }
{
    match change {
        Change::Grow => old + rows > MAX_ROWS,
        Change::Shrink => false,
    }
}

// Returns whether no row would be left.
fn shrinks_too_far(change: Change, old: u64, rows: u64) -> bool
    ensures { result ≡ verdict.shrinks_too_far change old rows }
{
    match change {
        Change::Grow => false,
        Change::Shrink => old <= rows,
    }
}

// Returns the number of rows that the archive would have.
fn rows_changed(change: Change, old: u64, rows: u64) -> u64
    requires small { old ≤ present.max_rows }
    requires few { rows ≤ present.max_rows }
    ensures { result ≡ rows_changed change old rows }
{
    match change {
        Change::Grow => old + rows,
        Change::Shrink => old.saturating_sub(rows),
    }
}

// Returns the number of rows in all archives after the resize of one.
fn all_rows_then(archives: &[Rra], archive: usize, change: Change, rows: u64) -> u64
    requires there { archive < length archives.now }
    requires few_rows { AllByRecursion HasFewRows archives.now }
    requires few_archives { length archives.now ≤ present.max_archives }
    requires few { rows ≤ present.max_rows }
    ensures rows { result ≡ sum
        (all_rows_after (Resized archive (rows_changed change (slice_index_or
        (rows_of_archives archives.now) archive 0) rows))
        (rows_of_archives archives.now)) }
    ensures few { result ≤ 130000000 }
{
    let old = archives[archive].def().rows;
    all_rows(archives) - old + rows_changed(change, old, rows)
}

// Checks a resize (rrdresize).
fn check_resize(
    sources: &[DsDef],
    archives: &[Rra],
    archive: u64,
    change: Change,
    rows: u64,
) -> Result<(), Refusal>
    requires few_sources { length sources.now ≤ present.max_sources }
    requires few_rows { AllByRecursion HasFewRows archives.now }
    requires few { length archives.now ≤ present.max_archives }
    ensures { result_err result ≡ verdict.first_refusal
        (verdict.resize_checks present (settings sources.now archives.now) archive change rows) }
{
    if archive >= archives.len() as u64 {
        return Err(Refusal::NoSuchArchive);
    }
    let old = archives[archive as usize].def().rows;
    if is_bad_rows(rows) || grows_too_far(change, old, rows) {
        return Err(Refusal::BadRows);
    }
    if shrinks_too_far(change, old, rows) {
        return Err(Refusal::ShrinkTooFar);
    }
    let all = all_rows_then(archives, archive as usize, change, rows);
    if has_too_many_cells(MAX_CELLS, sources.len(), all) {
        return Err(Refusal::TooLarge);
    }
    Ok(())
}

impl Content {
    /// Checks a resize.
    pub(crate) fn check_resize(
        &self,
        archive: u64,
        change: Change,
        rows: u64,
    ) -> Result<(), Refusal>
        ensures { result_err result ≡ verdict.verdict self.now (Resizing archive change rows) }
    {
        check_resize(
            &self.sources,
            self.archives.as_slice(),
            archive,
            change,
            rows,
        )
    }

    /// Creates the rows that an archive has after an accepted resize.
    pub(crate) fn resized(
        &self,
        alloc: Global,
        archive: usize,
        change: Change,
        rows: u64,
    ) -> Result<Archive, AllocError>
        requires { verdict.verdict self.now (Resizing archive change rows) ≡ None }
        ensures { IfOk result (λ new. new
            ≡ newest_rows (rows_changed change (slice_index_or (rows_of_archives self.now.archives) archive 0) rows)
            (rows_at self.now.archives archive)) }
    {
        laws::resize_changes_rows();
        let rra = self.archives.get(archive);
        rra.resized(alloc, rows_changed(change, rra.def().rows, rows))
    }

    /// Replaces the rows of an archive, and returns the old ones. Does not allocate.
    pub(crate) fn resize(&mut self, archive: usize, mut rows: Archive) -> Archive
        requires there { archive < length self.old.archives }
        requires valid { IsValid (record self.old { archives = with_rows_at self.old.archives archive rows }) }
        ensures content { self.new ≡ record self.old { archives = with_rows_at self.old.archives archive rows } }
        ensures old { result ≡ rows_at self.old.archives archive }
    {
        self.archives.get_mut(archive).swap_rows(&mut rows);
        rows
    }

    /// Puts back the rows of a resized archive.
    pub(crate) fn undo_resize(&mut self, archive: usize, mut old: Archive)
        requires there { archive < length self.old.archives }
        requires valid { IsValid (undone self.old (ResizeEntry archive old)) }
        ensures { self.new ≡ undone self.old (ResizeEntry archive old) }
    {
        self.archives.get_mut(archive).swap_rows(&mut old);
    }
}
