//! Names, and the types that have one.
ghost use Rattle.std.specs.Prelude.{◌≡◌, map};
ghost use Rattle.rrd_base.specs.Names.{list_any, Name, same_name, has_source, is_double};

use crate::DsDef;
use rrd_fixed::Name;

/// A type with a name: a name itself, or a data source.
pub(crate) trait Named {
    /// The name that contracts see.
    ghost called: { Self → Name };

    /// Returns the name.
    fn name(&self) -> &Name
        ensures { result.now ≡ called self.now };
}

impl Named for Name {
    ghost called = { λ name. name };

    fn name(&self) -> &Name {
        self
    }
}

impl Named for DsDef {
    ghost called = { λ source. source.name };

    fn name(&self) -> &Name {
        &self.name
    }
}

/// Returns whether a name is among others.
pub(crate) fn is_among<T: Named>(name: &Name, others: &[T]) -> bool
    ensures { result ≡ list_any (λ other. same_name name.now (T.called other)) others.now }
{
    others.iter().any(|other| name.same(other.name()))
}

/// Returns whether a data source has the name.
pub(crate) fn has_source(sources: &[DsDef], name: &Name) -> bool
    ensures { result ≡ has_source sources.now name.now }
{
    is_among(name, sources)
}

/// Returns whether a name occurs twice.
pub(crate) fn has_double_name<T: Named>(named: &[T]) -> bool
    ensures { result ≡ is_double (map T.called named.now) }
{
    for (index, one) in named.iter().enumerate() {
        if is_among(one.name(), &named[index + 1..]) {
            return true;
        }
    }
    false
}
