//! The part of a journal entry that restores a data source.
ghost use Rattle.std.specs.Prelude.{◌≡◌, [], None};
ghost use Rattle.rrd_spec.specs.Names.{Gauge};
ghost use Rattle.rrd_fixed.specs.declared.raw.Raw.TheVariants.{Unknown};

use crate::DsDef;
use rrd_fixed::{Kind, Name, Raw};

/// A data source as it was before a tune.
#[derive(Drop)]
pub struct SavedSource {
    /// The number of the data source, from 0 on.
    pub number: u64,
    /// The settings of the data source.
    pub source: DsDef,
    /// The last raw value of the data source.
    pub raw: Raw,
}

impl Default for SavedSource {
    // Fixed arrays hold this value in items that are not in use.
    fn default() -> Self
        ensures { result
            ≡ record {
              number = 0;
              source = record { name = []; kind = Gauge; heartbeat = 0; min = None; max = None };
              raw = Unknown;
            } }
    {
        SavedSource {
            number: 0,
            source: DsDef {
                name: Name::default(),
                kind: Kind::Gauge,
                heartbeat: 0,
                min: None,
                max: None,
            },
            raw: Raw::Unknown,
        }
    }
}
