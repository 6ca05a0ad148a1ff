//! The content of a database: everything except its journal.
ghost use Rattle.std.specs.Prelude.{◌≡◌, IfOk, None};
ghost use Rattle.rrd_base.specs.Names.{create_verdict, created};

use crate::archives::new_all;
use crate::rra::Rra;
use crate::{ArchiveList, CreateSpec, DsDef};
use rrd_fixed::Raw;
use rrd_fold::StepPrep;
use rrd_spec::laws;
use std::alloc::{AllocError, Global};
use std::marker::Model;

/// The settings, the last time, and the values of each data source and archive.
#[derive(Drop)]
pub(crate) struct Content {
    pub(crate) step: u64,
    pub(crate) depth: u64,
    pub(crate) last: u64,
    pub(crate) sources: Vec<DsDef>,
    pub(crate) raws: Vec<Raw>,
    pub(crate) preps: Vec<StepPrep>,
    pub(crate) archives: ArchiveList<Rra>,
}

impl Model for Content {
    ghost use Rattle.rrd_spec.specs.History.{Content};

    ghost Value = { Content };

    ghost use Rattle.rrd_base.specs.Content.{content_of, IsValidContent};

    ghost view = { content_of };

    ghost invariant = { IsValidContent };
}

impl Content {
    /// Creates the content of a new database, in which nothing is known.
    pub(crate) fn new(alloc: Global, spec: CreateSpec) -> Result<Content, AllocError>
        requires { create_verdict spec ≡ None }
        ensures { IfOk result (λ content. content ≡ created spec) }
    {
        laws::created_is_valid();
        let sources = spec.sources.len();
        let raws = vec![in alloc; Raw::Unknown; sources]?;
        let preps = vec![in alloc; StepPrep::new(); sources]?;
        let archives = new_all(alloc, spec.archives.as_slice(), sources as u64)?;
        Ok(Content {
            step: spec.step,
            depth: spec.depth,
            last: spec.start,
            sources: spec.sources.into_vec(),
            raws,
            preps,
            archives,
        })
    }
}
