//! The archives of a content: adding and removing one, undoing this, and the functions on all archives.
ghost use Rattle.std.specs.Prelude.{◌≡◌, ◌+◌, ◌^◌, ◌<◌, ◌≤◌, ◌++◌, ◌∷◌, [], length, map, IfOk, OnErr, OnOk};
ghost use Rattle.rrd_base.specs.Names.{remove, AllByRecursion, AddedEntry, RemovedEntry, archive_at, put_back_each, saved, undone, archive_passed, present, IsValid, IsValidArchive};
ghost use Rattle.rrd_base.specs.Words.{CanPutBackEach, IsStepped, AreSteps, cells_of, count_of, sources_of, least_of_all, most_of_all};
ghost use Rattle.rrd_spec.specs.Commands.Creating.{new_archive};

use crate::content::Content;
use crate::rra::Rra;
use crate::walk::Steps;
use crate::{ArchiveList, RraDef, SavedArchive};
use rrd_fixed::{Meter, StoredCell};
use std::alloc::{AllocError, Global};

impl Content {
    /// Adds an archive with these settings after the others. No row of it is known.
    pub(crate) fn add_archive(&mut self, alloc: Global, def: RraDef) -> Result<(), AllocError>
        requires { IsValid (record self.old {
          archives = self.old.archives ++ new_archive (length self.old.sources) def ∷ [];
        }) }
        ensures ok { OnOk result (self.new
            ≡ record self.old { archives = self.old.archives ++ new_archive (length self.old.sources) def ∷ [] }) }
        ensures err { OnErr result (self.new ≡ self.old) }
    {
        let rra = Rra::new(alloc, def, self.sources.len() as u64)?;
        self.archives.push(rra);
        Ok(())
    }

    /// Removes archive number `archive`. The higher numbers are then one lower. Does not allocate.
    pub(crate) fn remove_archive(&mut self, archive: usize) -> Rra
        requires there { archive < length self.old.archives }
        requires valid { IsValid (record self.old { archives = remove self.old.archives archive }) }
        ensures content { self.new ≡ record self.old { archives = remove self.old.archives archive } }
        ensures old { result ≡ archive_at self.old.archives archive }
    {
        self.archives.remove(archive)
    }

    /// Removes the last archive, which was added.
    pub(crate) fn undo_added(&mut self)
        requires { IsValid (undone self.old AddedEntry) }
        ensures { self.new ≡ undone self.old AddedEntry }
    {
        self.archives.pop();
    }

    /// Puts a removed archive back at its old number. Does not allocate.
    pub(crate) fn undo_removed(&mut self, archive: usize, old: Rra)
        requires there { archive ≤ length self.old.archives }
        requires valid { IsValid (undone self.old (RemovedEntry archive old)) }
        ensures { self.new ≡ undone self.old (RemovedEntry archive old) }
    {
        self.archives.insert(archive, old);
    }
}

// ---- functions on all archives

/// Creates new archives with these settings, for `sources` data sources.
pub(crate) fn new_all(
    alloc: Global,
    defs: &[RraDef],
    sources: u64,
) -> Result<ArchiveList<Rra>, AllocError>
    requires few { length defs.now ≤ present.max_archives }
    requires rows { AllByRecursion (λ def. (0 < def.rows) × (def.rows ≤ present.max_rows)) defs.now }
    requires some_sources { 0 < sources }
    requires few_sources { sources ≤ present.max_sources }
    ensures { IfOk result (λ archives. archives ≡ map (new_archive sources) defs.now) }
{
    let mut archives = ArchiveList::new(alloc)?;
    for def in defs {
        archives.push(Rra::new(alloc, *def, sources)?);
    }
    Ok(archives)
}

/// Adds steps to each archive. `row` has room for the cells of a row.
pub(crate) fn take_all(
    archives: &mut [Rra],
    steps: &Steps,
    row: &mut [StoredCell],
    meter: &mut Meter,
)
    requires valid { AllByRecursion (IsValidArchive (sources_of steps.now) steps.now.before) archives.old }
    requires steps_are { AreSteps steps.now }
    requires places { length row.old ≡ sources_of steps.now }
    requires turns { meter.old + most_of_all steps.now archives.old < 2 ^ 64 }
    ensures value { let passed = archive_passed (sources_of steps.now) steps.now.before (cells_of steps.now) in
        archives.new ≡ map passed archives.old }
    ensures valid { let before = steps.now.before + count_of steps.now in
        AllByRecursion (IsValidArchive (sources_of steps.now) before) archives.new }
    ensures least { meter.old + least_of_all steps.now archives.old ≤ meter.new }
    ensures most { meter.new ≤ meter.old + most_of_all steps.now archives.old }
{
    for i in 0..archives.len() {
        archives[i].take(steps, row, meter);
    }
}

/// Copies the values of each archive that an update from `from` to `to` replaces. A step has `step` seconds.
pub(crate) fn save_all(
    alloc: Global,
    archives: &[Rra],
    step: u64,
    from: u64,
    to: u64,
) -> Result<Vec<SavedArchive>, AllocError>
    requires stepped { AllByRecursion IsStepped archives.now }
    requires some_step { 0 < step }
    requires small_step { step ≤ present.max_step_seconds }
    ensures { IfOk result (λ all. all.items ≡ map (saved step from to) archives.now) }
{
    let mut all = Vec::with_capacity(alloc, archives.len())?;
    for rra in archives {
        let saved = rra.save_between(alloc, step, from, to)?;
        all.push(saved)?;
    }
    Ok(all)
}

/// Puts back the saved values of each archive. Does not allocate.
pub(crate) fn put_back_all(archives: &mut [Rra], mut saved: Vec<SavedArchive>)
    requires fits { CanPutBackEach archives.old saved.items }
    ensures { archives.new ≡ put_back_each archives.old saved.items }
{
    while let Some(old) = saved.pop() {
        archives[saved.len()].put_back(old);
    }
}
