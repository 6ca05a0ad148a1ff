//! The index in a sample of each data source's value.
ghost use Rattle.std.specs.Prelude.{◌≡◌, List, ◌<◌, ◌≤◌, false, length, slice_index_or, None as NoIndex};
ghost use Rattle.rrd_base.specs.Names.{Given, DsDef, value_for, present, is_double, names};
ghost use Rattle.rrd_base.specs.Words.{AreColumns, template_of, value_in};

use crate::{DsDef, Given, List};
use arrayvec::ArrayVec;
use rrd_fixed::Name;
use rrd_spec::limits::MAX_SOURCES;

/// The index in an update's samples of each data source's value.
///
/// The indexes are found once for each update: from the template, or without one from the order of the data sources.
#[derive(Drop)]
pub(crate) struct Columns<'a> {
    /// The template.
    pub(crate) template: &'a Option<List<Name>>,
    /// The index of each data source's value; `None` if the template does not name the data source.
    pub(crate) indexes: ArrayVec<Option<usize>, MAX_SOURCES>,
}

// Returns the index of a data source's name; `None` if there is no such name.
fn index_named(names: &[Name], source: &DsDef) -> Option<usize>
    ensures { (values : List Given) → value_in values result ≡ value_for names.now values source.now }
{
    for index in 0..names.len() {
        if names[index].same(&source.name) {
            return Some(index);
        }
    }
    None
}

// Returns the index of a data source's value. Without a template this is the data source's own number, since the names
// of data sources differ.
fn index_of(template: &Option<List<Name>>, sources: &[DsDef], source: usize) -> Option<usize>
    requires there { source < length sources.now }
    requires names_differ { is_double (names sources.now) ≡ false }
    ensures { (values : List Given) (d : DsDef) → value_in values result
        ≡ value_for (template_of sources.now template.now) values (slice_index_or sources.now source d) }
{
    match template {
        Some(names) => index_named(names.as_slice(), &sources[source]),
        None => Some(source),
    }
}

impl<'a> Columns<'a> {
    /// Finds the indexes of the values of these data sources.
    pub(crate) fn new(template: &'a Option<List<Name>>, sources: &[DsDef]) -> Columns<'a>
        requires names_differ { is_double (names sources.now) ≡ false }
        requires few { length sources.now ≤ present.max_sources }
        ensures indexes { AreColumns sources.now result }
        ensures template { result.template.now ≡ template.now }
    {
        let mut indexes = ArrayVec::new();
        for source in 0..sources.len() {
            indexes.push(index_of(template, sources, source));
        }
        Columns { template, indexes }
    }

    /// Returns the value of a data source; `Unknown` if there is none.
    pub(crate) fn value(&self, values: &[Given], source: usize) -> Given
        requires { source < length self.now.indexes.items }
        ensures { result ≡ value_in values.now (slice_index_or self.now.indexes.items source NoIndex) }
    {
        match self.indexes.as_slice()[source] {
            Some(index) if index < values.len() => values[index],
            _ => Given::Unknown,
        }
    }
}
