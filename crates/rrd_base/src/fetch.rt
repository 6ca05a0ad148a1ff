//! The selection of the archive and the rows that a fetch reads, and the cells of rows (rrdfetch; the order of the
//! archives is this project's rule).
ghost use Rattle.std.specs.Prelude.{◌≡◌, ◌-◌, ◌-ℤ◌, ◌/◌, ◌^◌, ◌<◌, ◌≤◌, ℕ, List, [], ◌∷◌, ◌++◌, length, pos, slice_index_or, IfNone, IfSome, MatchResult, Err};
ghost use Rattle.rrd_base.specs.Names.{int_div_euclid, result_err, Unknown, Function, FetchRequest, RraDef, definitions, cell_at, oldest, oldest_time, present, first_refusal};
ghost use Rattle.rrd_base.specs.Words.{is_preferred, searched};
ghost use Rattle.rrd_spec.specs.Choice as choice;

use crate::content::Content;
use crate::{Chosen, Refusal, RraDef};
use rrd_fixed::StoredCell;
use rrd_fold::Function;
use rrd_spec::limits::{MAX_SPAN, MAX_TIME};
use rrd_spec::{Candidate, FetchRequest};
use std::marker::Model;

/// The search for the archive that a fetch reads. All archives are offered to it, in order.
///
/// Contracts see the request, and the best archive so far.
#[derive(Drop)]
pub(crate) struct Search {
    step: u64,
    last: u64,
    request: FetchRequest,
    best: Option<Candidate>,
}

impl Model for Search {
    ghost use Rattle.rrd_base.specs.Fetch.{Searched, IsSearch};

    ghost Value = { Searched };

    ghost view = { λ s. record { step = s.step; last = s.last; request = s.request; best = s.best } };

    ghost invariant = { λ s. IsSearch s.step s.last s.request s.best };
}

impl Search {
    /// Starts without an archive, and checks the request without the database.
    pub(crate) fn new(step: u64, last: u64, request: FetchRequest) -> Result<Search, Refusal>
        requires some_step { 0 < step }
        requires small_step { step ≤ present.max_step_seconds }
        requires good_last { last ≤ present.max_time }
        ensures { MatchResult result
            (λ search. search ≡ searched step last request [])
            (λ refusal. (defs : List RraDef) → choice.choice_of present step last defs request ≡ Err refusal) }
    {
        check_span(request)?;
        Ok(Search {
            step,
            last,
            request,
            best: None,
        })
    }

    /// Offers the next archive.
    pub(crate) fn offer(&mut self, archive: u64, def: &RraDef)
        requires some_steps { 0 < def.now.steps }
        requires few_steps { def.now.steps ≤ present.max_steps_per_row }
        requires few_rows { def.now.rows ≤ present.max_rows }
        ensures { (step last : ℕ) (request : FetchRequest) (defs : List RraDef) →
            archive ≡ length defs →
            self.old ≡ searched step last request defs →
            self.new ≡ searched step last request (defs ++ def.now ∷ []) }
    {
        if !is_same_function(def.function, self.request.function) {
            return;
        }
        let next = candidate(self.step, self.last, archive, def);
        let is_taken = match &self.best {
            Some(best) => is_preferred(self.request, &next, best),
            None => true,
        };
        if is_taken {
            self.best = Some(next);
        }
    }

    /// Returns the archive and the rows that the fetch reads, after all archives have been offered.
    pub(crate) fn finish(&self) -> Result<Chosen, Refusal>
        ensures { (step last : ℕ) (request : FetchRequest) (defs : List RraDef) →
            self.now ≡ searched step last request defs →
            result ≡ choice.choice_of present step last defs request }
    {
        let Some(best) = self.best else {
            return Err(Refusal::NoArchiveForFunction);
        };
        let chosen = span(self.request, &best);
        if (chosen.hi - chosen.lo) / chosen.res > MAX_SPAN {
            return Err(Refusal::SpanTooLong);
        }
        Ok(chosen)
    }
}

// Checks the times of a request.
fn check_span(request: FetchRequest) -> Result<(), Refusal>
    ensures { result_err result ≡ first_refusal (choice.span_checks present request) }
{
    if request.start > MAX_TIME {
        return Err(Refusal::BadTime);
    }
    if request.end > MAX_TIME {
        return Err(Refusal::BadTime);
    }
    if request.start > request.end {
        return Err(Refusal::BadSpan);
    }
    Ok(())
}

fn is_same_function(one: Function, other: Function) -> bool
    ensures { result ≡ choice.same_function one other }
{
    one == other
}

// Returns the number, the resolution and the reach of an archive.
fn candidate(step: u64, last: u64, archive: u64, def: &RraDef) -> Candidate
    requires some_step { 0 < step }
    requires small_step { step ≤ present.max_step_seconds }
    requires good_last { last ≤ present.max_time }
    requires some_steps { 0 < def.now.steps }
    requires few_steps { def.now.steps ≤ present.max_steps_per_row }
    requires few_rows { def.now.rows ≤ present.max_rows }
    ensures value { result ≡ choice.candidate step last (archive, def.now) }
    ensures some_resolution { 0 < result.resolution }
    ensures small_resolution { result.resolution ≤ 10 ^ 12 }
{
    let resolution = def.resolution(step);
    let newest = last / resolution * resolution;
    let reach = newest as i64 - (def.rows * resolution) as i64;
    Candidate {
        archive,
        resolution,
        reach,
    }
}

// Returns whether an archive is preferred to one with a lower number.
fn is_preferred(request: FetchRequest, one: &Candidate, other: &Candidate) -> bool
    ensures { result ≡ is_preferred request.asked request.start one.now other.now }
{
    match (covers(request.start, one), covers(request.start, other)) {
        (true, true) => is_nearer(request.asked, one, other),
        (true, false) => true,
        (false, true) => false,
        (false, false) => is_farther(request.asked, one, other),
    }
}

// Returns whether an archive has all rows from the start on.
fn covers(start: u64, one: &Candidate) -> bool
    ensures { result ≡ choice.covers start one.now }
{
    one.reach as i128 <= start as i128
}

fn is_nearer(asked: u64, one: &Candidate, other: &Candidate) -> bool
    ensures { result ≡ choice.is_nearer asked one.now other.now }
{
    one.resolution.abs_diff(asked) < other.resolution.abs_diff(asked)
}

// Returns whether an archive reaches back farther than another one, or as far with a nearer resolution.
fn is_farther(asked: u64, one: &Candidate, other: &Candidate) -> bool
    ensures { result ≡ choice.is_farther asked one.now other.now }
{
    one.reach < other.reach || (one.reach <= other.reach && is_nearer(asked, one, other))
}

// Returns the rows that a fetch reads of an archive.
fn span(request: FetchRequest, one: &Candidate) -> Chosen
    requires some_resolution { 0 < one.now.resolution }
    requires small_resolution { one.now.resolution ≤ 10 ^ 12 }
    requires in_order { request.start ≤ request.end }
    requires good_end { request.end ≤ present.max_time }
    ensures value { result ≡ choice.span request one.now }
    ensures some { 0 < result.res }
    ensures in_order { result.lo ≤ result.hi }
{
    let res = one.resolution;
    Chosen {
        archive: one.archive,
        res,
        lo: request.start / res * res,
        hi: (request.end / res + 1) * res,
    }
}

impl Content {
    /// Selects the archive that a fetch reads, and the rows of it.
    pub(crate) fn choose(&self, request: FetchRequest) -> Result<Chosen, Refusal>
        ensures { result
            ≡ choice.choice_of present self.now.step self.now.last (definitions self.now.archives) request }
    {
        let mut search = Search::new(self.step, self.last, request)?;
        for (archive, rra) in self.archives.as_slice().iter().enumerate() {
            search.offer(archive as u64, &rra.def());
        }
        search.finish()
    }

    /// Returns the time of an archive's oldest row, in seconds since 1970.
    pub(crate) fn first(&self, archive: u64) -> Result<i64, Refusal>
        ensures { result ≡ oldest_time self.now archive }
    {
        if archive >= self.archives.len() as u64 {
            return Err(Refusal::NoSuchArchive);
        }
        let rra = self.archives.get(archive as usize);
        Ok(oldest(self.step, self.last, &rra.def()))
    }

    /// Returns the cells of an archive's row at a time, a multiple of the resolution; `None` if the archive has no such
    /// row.
    pub(crate) fn row(&self, archive: usize, time: i64) -> Option<&[StoredCell]>
        requires { archive < length self.now.archives }
        ensures wide { IfSome result (λ row. length row.now ≡ length self.now.sources) }
        ensures cells { IfSome result (λ row. (source : ℕ)
            → slice_index_or row.now source Unknown ≡ cell_at self.now archive time source) }
        ensures none { IfNone result ((source : ℕ) → source < length self.now.sources
            → cell_at self.now archive time source ≡ Unknown) }
    {
        let rra = self.archives.get(archive);
        let resolution = rra.def().resolution(self.step);
        rra.row_of_age(age(self.last, resolution, time))
    }
}

/// Returns how many rows end after the row that ends at `time`, up to `last`; negative if this row ends after `last`.
fn age(last: u64, resolution: u64, time: i64) -> i128
    requires some { 0 < resolution }
    requires small { resolution ≤ 10 ^ 12 }
    ensures { result ≡ pos (last / resolution) -ℤ int_div_euclid time (pos resolution) }
{
    i128::from(last / resolution) - i128::from(time.div_euclid(resolution as i64))
}

/// Returns the time of an archive's oldest row.
fn oldest(step: u64, last: u64, def: &RraDef) -> i64
    requires some_step { 0 < step }
    requires small_step { step ≤ present.max_step_seconds }
    requires good_last { last ≤ present.max_time }
    requires some_steps { 0 < def.now.steps }
    requires few_steps { def.now.steps ≤ present.max_steps_per_row }
    requires some_rows { 0 < def.now.rows }
    requires few_rows { def.now.rows ≤ present.max_rows }
    ensures { result ≡ oldest step last def.now }
{
    let resolution = def.resolution(step);
    let newest = last / resolution * resolution;
    newest as i64 - ((def.rows - 1) * resolution) as i64
}
