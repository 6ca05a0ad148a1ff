//! The passing of time up to a sample, over a content.
//!
//! How it works: the definitions look at every second; no function here does. Time passes in parts in which every
//! second has the same rates. `pass_within_step` passes seconds that do not finish the step, `end_steps` passes the rest
//! of the step in progress with all whole steps after it, whatever their number, and `catch_up` divides an interval into
//! these parts. The contract of each part says that it is `passed` for its seconds, and the theorem
//! `seconds_pass_in_pieces` joins them: so a new way to pass time needs only that clause, and nothing above it changes.
//!
//! Pitfalls:
//!
//! - The first step that ends has other cells than the steps after it, since its first seconds came before
//!   (`Steps::first` and `others`).
//! - An archive adds steps by the number of steps that ended before, so `before` must be computed before `last`
//!   changes.
//! - The rates are those of the interval, and the raw values change only after it.
//! - An update allocates all memory before the walk (`Walk::new`), so nothing here can fail.
//! - Each loop over data sources or cells counts one unit of work in the meter for each turn of the loop. The bounds
//!   `least_` and `most_` are bounds of these units; no contract would bound a loop without them.
ghost use Rattle.std.specs.Prelude.{◌≡◌, ◌+◌, ◌-◌, ◌*◌, ◌/◌, ◌^◌, ◌<◌, ◌≤◌, [], ◌∷◌, length, replicate, IfOk, None};
ghost use Rattle.rrd_base.specs.Names.{Updating, moved_listed, content_listed, Sampled, present, passed, AreTurns, AreAccepted, IsRow, IsValid, verdict};
ghost use Rattle.rrd_spec.specs.History as history;

pub(crate) mod preparations;

use crate::archives::take_all;
use crate::columns::Columns;
use crate::content::Content;
use crate::update::raws_into;
use crate::{DsDef, Update};
use preparations::{add_seconds, close_steps};
use rrd_fixed::{Meter, Raw, StoredCell};
use rrd_spec::laws;
use std::alloc::{AllocError, Global};

/// Consecutive steps: the first has its own cells, and all others are equal.
#[derive(Drop)]
pub(crate) struct Steps<'a> {
    /// The number of steps that ended before these.
    pub(crate) before: u64,
    /// The cells of the first step, one for each data source.
    pub(crate) first: &'a [StoredCell],
    /// The cells of each other step, one for each data source.
    pub(crate) others: &'a [StoredCell],
    /// The number of the other steps.
    pub(crate) count: u64,
}

/// The buffers of an update for values of each data source, and a meter. An update allocates the buffers before the
/// content changes.
#[derive(Drop)]
pub(crate) struct Walk {
    // The raw values of a sample.
    raws: Vec<Raw>,
    // The rates in the interval before the sample.
    rates: Vec<StoredCell>,
    // The cells of the step in which the interval begins, if the step ends.
    step: Vec<StoredCell>,
    // The cells of the row in progress, if the row ends.
    row: Vec<StoredCell>,
    meter: Meter,
}

impl Walk {
    ghost use Rattle.rrd_base.specs.Walk.{HasPlaces};

    /// Creates a walk over a content with `sources` data sources, with its meter at 0.
    pub(crate) fn new(alloc: Global, sources: usize) -> Result<Walk, AllocError>
        ensures places { IfOk result (λ walk. HasPlaces walk sources) }
        ensures turns { IfOk result (λ walk. walk.meter ≡ 0) }
    {
        Ok(Walk {
            raws: vec![in alloc; Raw::Unknown; sources]?,
            rates: vec![in alloc; StoredCell::unknown(); sources]?,
            step: vec![in alloc; StoredCell::unknown(); sources]?,
            row: vec![in alloc; StoredCell::unknown(); sources]?,
            meter: Meter::new(),
        })
    }

    /// Returns the number of units of work.
    pub(crate) fn turns(&self) -> u64
        ensures { result ≡ self.now.meter }
    {
        self.meter.turns()
    }

    // Computes the rate of each data source, in millionths, from its old raw value to the walk's, `interval` seconds
    // later.
    fn find_rates(&mut self, sources: &[DsDef], old: &[Raw], interval: u64)
        requires places { HasPlaces self.old (length sources.now) }
        requires some_time { 1 ≤ interval }
        requires not_long { interval ≤ 10 ^ 10 }
        requires old_accepted { AreAccepted sources.now old.now }
        requires new_accepted { AreAccepted sources.now self.old.raws.items }
        ensures value { self.new.rates.items ≡ history.rates sources.now interval old.now self.old.raws.items }
        ensures row { IsRow (length sources.now) self.new.rates.items }
        ensures rest { self.new ≡ record self.old { rates = self.new.rates } }
    {
        for i in 0..sources.len() {
            let rate = sources[i].rate(interval, old[i], self.raws[i]);
            self.rates[i] = StoredCell::new(rate);
        }
    }
}

impl Content {
    ghost use Rattle.rrd_base.specs.Update.{AreColumns};
    ghost use Rattle.rrd_base.specs.Walk.{HasPlaces, KeepsSample};
    ghost use Rattle.rrd_base.specs.Walk.Turns.{least_of_ends, least_to, most_of_ends, most_to};

    // Passes `seconds` seconds that do not finish the step. The meter counts one unit of work for each data source.
    fn pass_within_step(&mut self, seconds: u64, walk: &mut Walk)
        requires within { self.old.last + seconds < (self.old.last / self.old.step + 1) * self.old.step }
        requires in_time { self.old.last + seconds ≤ present.max_time }
        requires rates_are { IsRow (length self.old.sources) walk.old.rates.items }
        requires turns { walk.old.meter + length self.old.sources < 2 ^ 64 }
        ensures value { self.new ≡ passed self.old (replicate seconds walk.old.rates.items) }
        ensures ticked { walk.new ≡ record walk.old { meter = walk.old.meter + length self.old.sources } }
    {
        laws::seconds_pass_within_a_step();
        laws::seconds_stay_valid();
        add_seconds(&mut self.preps, &walk.rates, seconds, &mut walk.meter);
        self.last += seconds;
    }

    // Passes the `seconds` seconds left of the step in progress, and then `count` whole steps, all at once: the cells
    // of these steps are the rates.
    fn end_steps(&mut self, seconds: u64, count: u64, walk: &mut Walk)
        requires fills { self.old.last + seconds ≡ (self.old.last / self.old.step + 1) * self.old.step }
        requires in_time { self.old.last + (seconds + count * self.old.step) ≤ present.max_time }
        requires places { HasPlaces walk.old (length self.old.sources) }
        requires rates_are { IsRow (length self.old.sources) walk.old.rates.items }
        requires turns { walk.old.meter + most_of_ends self.old count < 2 ^ 64 }
        ensures value { let all = seconds + count * self.old.step in
            self.new ≡ passed self.old (replicate all walk.old.rates.items) }
        ensures keeps { KeepsSample walk.old walk.new }
        ensures least { walk.old.meter + least_of_ends self.old count ≤ walk.new.meter }
        ensures most { walk.new.meter ≤ walk.old.meter + most_of_ends self.old count }
    {
        laws::parts_stay_bounded();
        laws::seconds_pass_at_once();
        laws::seconds_stay_valid();
        let before = self.last / self.step;
        add_seconds(&mut self.preps, &walk.rates, seconds, &mut walk.meter);
        close_steps(&mut self.preps, self.step, &mut walk.step, &mut walk.meter);
        self.last += seconds + count * self.step;
        let steps = Steps {
            before,
            first: &walk.step,
            others: &walk.rates,
            count,
        };
        let archives = self.archives.as_mut_slice();
        take_all(archives, &steps, &mut walk.row, &mut walk.meter);
    }

    // Passes all seconds up to `time`: the rest of the step in progress with all whole steps after it, and the start of
    // the next step.
    fn catch_up(&mut self, time: u64, walk: &mut Walk)
        requires later { self.old.last < time }
        requires in_time { time ≤ present.max_time }
        requires places { HasPlaces walk.old (length self.old.sources) }
        requires rates_are { IsRow (length self.old.sources) walk.old.rates.items }
        requires turns { walk.old.meter + most_to self.old time < 2 ^ 64 }
        ensures value { self.new ≡ passed self.old (replicate (time - self.old.last) walk.old.rates.items) }
        ensures keeps { KeepsSample walk.old walk.new }
        ensures least { walk.old.meter + least_to self.old time ≤ walk.new.meter }
        ensures most { walk.new.meter ≤ walk.old.meter + most_to self.old time }
    {
        laws::seconds_pass_in_pieces();
        let step = self.step;
        let last = self.last;
        let end = (last / step + 1) * step;
        if time < end {
            self.pass_within_step(time - last, walk);
        } else {
            let more = time - end;
            self.end_steps(end - last, more / step, walk);
            self.pass_within_step(more % step, walk);
        }
    }

    // Adds the sample at a time after the last one. The walk holds its raw values.
    fn take_sample(&mut self, time: u64, walk: &mut Walk)
        requires later { self.old.last < time }
        requires in_time { time ≤ present.max_time }
        requires accepted { AreAccepted self.old.sources walk.old.raws.items }
        requires places { HasPlaces walk.old (length self.old.sources) }
        requires turns { walk.old.meter + most_to self.old time < 2 ^ 64 }
        ensures value { let raws = walk.old.raws.items in
            self.new ≡ content_listed self.old (Sampled (record { time = time; raws = raws }) ∷ []) }
        ensures valid { IsValid self.new }
        ensures places { HasPlaces walk.new (length self.old.sources) }
        ensures least { walk.old.meter + least_to self.old time ≤ walk.new.meter }
        ensures most { walk.new.meter ≤ walk.old.meter + most_to self.old time }
    {
        laws::sample_passes();
        walk.find_rates(&self.sources, &self.raws, time - self.last);
        self.catch_up(time, walk);
        self.raws.copy_from_slice(&walk.raws);
    }

    /// Adds the samples of an accepted update.
    pub(crate) fn take_samples(&mut self, update: &Update, columns: &Columns, walk: &mut Walk)
        requires valid { IsValid self.old }
        requires accepted { verdict self.old (Updating update.now) ≡ None }
        requires columns { AreColumns self.old.sources columns.now }
        requires template { columns.now.template.now ≡ update.now.template }
        requires places { HasPlaces walk.old (length self.old.sources) }
        requires turns { walk.old.meter ≡ 0 }
        ensures value { self.new ≡ moved_listed self.old (Updating update.now) }
        ensures turns { AreTurns self.old update.now walk.new.meter }
    {
        laws::accepted_passes();
        laws::content_goes_on();
        laws::content_stays_without_events();
        laws::raw_values_are_accepted();
        laws::sample_passes();
        for sample in update.samples.as_slice() {
            let values = sample.values.as_slice();
            raws_into(columns, &self.sources, values, &mut walk.raws);
            self.take_sample(sample.time, walk);
        }
    }
}
