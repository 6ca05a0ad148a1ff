//! A list with capacity for one item of each archive.
ghost use Rattle.std.specs.Prelude.{◌≡◌, ◌<◌, ◌≤◌, ◌++◌, ◌∷◌, ◌-◌, [], length, take, IfOk, slice_index_or};
ghost use Rattle.rrd_spec.specs.Names.{insert, remove, sem};
ghost use Rattle.rrd_spec.specs.Words.{present};

use crate::limits::MAX_ARCHIVES;
use std::alloc::{AllocError, Global};
use std::marker::Model;

/// A list with one item for each archive, by the archives' numbers.
///
/// A list has at most 128 items, and the capacity for all of them from the start, so that adding an item does not
/// allocate.
#[derive(Drop)]
pub struct ArchiveList<T> {
    items: Vec<T>,
}

impl<T> Model for ArchiveList<T> {
    ghost use Rattle.std.specs.Prelude.{List, ◌≤◌, vec_capacity};
    ghost use Rattle.rrd_spec.specs.Limits.{present};

    ghost Value = { List T };

    ghost view = { λ l. l.items.items };

    ghost invariant = { λ l. present.max_archives ≤ vec_capacity l.items };
}

impl<T> ArchiveList<T> {
    ghost use Rattle.rrd_spec.specs.ArchiveLists.{LendsItem, LendsItems};

    /// Creates an empty list with capacity for 128 items.
    ///
    /// # Errors
    /// - `AllocError`: memory runs out.
    pub fn new(alloc: Global) -> Result<ArchiveList<T>, AllocError>
        ensures { IfOk result (λ list. list ≡ []) }
    {
        Ok(ArchiveList {
            items: Vec::with_capacity(alloc, MAX_ARCHIVES)?,
        })
    }

    /// Returns the number of items.
    pub fn len(&self) -> usize
        ensures { result ≡ length self.now }
    {
        self.items.len()
    }

    /// Returns the item of archive number `archive`.
    pub fn get(&self, archive: usize) -> &T
        requires { archive < length self.now }
        ensures { result.now ≡ slice_index_or self.now archive result.now }
    {
        &self.items[archive]
    }

    /// Lends the item of archive number `archive` for writing.
    pub fn get_mut(&mut self, archive: usize) -> &mut T
        requires { archive < length self.old }
        ensures* writes_back { sem 𝓛 (LendsItem T.row self.entry archive result) }
        ensures value { result.now ≡ slice_index_or self.old archive result.now }
    {
        &mut self.items[archive]
    }

    /// Returns the items in order.
    pub fn as_slice(&self) -> &[T]
        ensures { result.now ≡ self.now }
    {
        self.items.as_slice()
    }

    /// Lends the items in order for writing.
    pub fn as_mut_slice(&mut self) -> &mut [T]
        ensures* writes_back { sem 𝓛 (LendsItems T.row self.entry result) }
        ensures value { result.now ≡ self.old }
    {
        self.items.as_mut_slice()
    }
}

impl<T: Drop> ArchiveList<T> {
    /// Adds an item at the end, of a list with fewer than 128 items. Does not allocate.
    pub fn push(&mut self, item: T)
        requires { length self.old < present.max_archives }
        ensures { self.new ≡ self.old ++ item ∷ [] }
    {
        self.items.push_reserved(item);
    }

    /// Inserts an item as that of archive number `archive`, or at the end.
    ///
    /// The items after it move up by one number. The list has fewer than 128 items before. Does not allocate.
    pub fn insert(&mut self, archive: usize, item: T)
        requires there { archive ≤ length self.old }
        requires room { length self.old < present.max_archives }
        ensures { self.new ≡ insert self.old archive item }
    {
        let _has_room = self.items.insert(archive, item);
    }

    /// Removes and returns the item of archive number `archive`. The items after it move down by one number.
    pub fn remove(&mut self, archive: usize) -> T
        requires { archive < length self.old }
        ensures item { result ≡ slice_index_or self.old archive result }
        ensures rest { self.new ≡ remove self.old archive }
    {
        self.items.remove(archive)
    }

    /// Drops the last item, if there is one.
    pub fn pop(&mut self)
        ensures { self.new ≡ take (length self.old - 1) self.old }
    {
        let _last = self.items.pop();
    }
}
