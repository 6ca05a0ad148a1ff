//! Reads the database of a file, and finds the database that a file with a mark stands for.
ghost use Rattle.std.specs.Prelude.{◌≡◌, Err, IfErr, IfNone, IfOk, IfSome, IsTrue, List, None, Some, ℕ, false, true};
ghost use Rattle.rrd_change.specs.Bytes.{begins_with};
ghost use Rattle.rrd_change.specs.Found.{database_of};
ghost use Rattle.rrd_change.specs.Marks.{IsMarkOf};
ghost use Rattle.rrd_change.specs.Settled.{cut_mark, settled};
ghost use Rattle.rrd_disk.specs.Calls.{Rests};
ghost use Rattle.rrd_disk.specs.Fronts.{Begins};
ghost use Rattle.rrd_disk.specs.Known.{ShowsBytes};
ghost use Rattle.rrd_disk.specs.Loading.{HasNoChange, IsFaultIn, IsForged, IsJudged, IsOfAny, IsStandingIn, ReadsFile, is_of_bytes};
ghost use Rattle.rrd_disk.specs.Replayed.{World, bytes_after, is_honest_after};
ghost use Rattle.rrd_file.specs.End.{file_end};
ghost use Rattle.rrd_file.specs.Faults.{IsFile};
ghost use Rattle.rrd_store.specs.Storages.{Bytes, Decodes, Finds};

use crate::file_bytes::FileBytes;
use crate::laws::file_laws;
use crate::{Cause, Disk};
use rrd_base::Database;
use rrd_change::{FoundDatabase, Layout};
use rrd_file::laws::{front_has_the_fault, one_answer};
use rrd_file::{FileFault, file_end};
use rrd_store::{TaskFault, decoded};
use std::alloc::Global;
use std::io::{self, Error, ErrorKind};

/// The first eight bytes of a file with a log.
const LOG_WORD: [u8; 8] = [b'R', b'R', b'D', b'L', b'o', b'g', 0, 0];

/// The first four bytes of a file that is to be cut.
const CUT_MARK: [u8; 4] = [b'R', b'R', b'D', b'C'];

/// The maximum number of parts in which a file is read: each is longer than all parts before it.
const PARTS: u32 = 64;

/// Returns the fault of a read that failed, and notes the reason.
pub(crate) fn read_fault(error: Error, cause: &Cause) -> TaskFault
    ensures { IsOfAny result }
{
    cause.set(error);
    match error.kind() {
        ErrorKind::OutOfMemory => TaskFault::File(FileFault::OutOfMemory),
        _ => TaskFault::File(FileFault::Read),
    }
}

// Checks whether the bytes that follow cannot change the result of reading the first bytes of a file.
fn is_judged(read: &Result<Database, TaskFault>) -> bool
    ensures { IsTrue result → IsJudged read.now }
{
    match read {
        Ok(_) | Err(TaskFault::File(FileFault::Truncated { .. })) => false,
        Err(TaskFault::File(_)) => true,
        Err(_) => false,
    }
}

// Returns the result of reading some bytes, of which `front` are the first, if these determine it.
fn judged(alloc: Global, front: &[u8], is_whole: bool) -> Option<Result<Database, TaskFault>>
    ensures reads { IfSome result (λ read. (bytes : List ℕ) → Begins bytes front.now → (IsTrue is_whole → front.now ≡ bytes) → Decodes (Some (Bytes bytes)) read) }
    ensures valid { IfSome result (λ read. Decodes None read) }
{
    front_has_the_fault();
    let read = decoded(alloc, front);
    if is_whole {
        return Some(read);
    }
    if is_judged(&read) {
        return Some(read);
    }
    None
}

// Notes how a file begins, if it is not one of rrdi.
fn note_other(read: &Result<Database, TaskFault>, front: &[u8], cause: &Cause) {
    if let (Err(TaskFault::File(FileFault::NotOurs)), [a, b, c, d, ..]) = (read, front) {
        cause.set_mark([*a, *b, *c, *d]);
    }
}

/// Reads the database of an open file. If the file is not one of rrdi, notes how it begins.
///
/// Reads a first part, and more only if that part can be the first part of a database.
///
/// # Errors
///
/// `File`: the file has no database, a read failed, or memory ran out.
#[tactic(auto, using(crate::proofs::Resting::rests_refl, crate::proofs::Resting::rests_trans))]
pub(crate) fn load<D: Disk>(
    alloc: Global,
    file: &mut FileBytes<D>,
    cause: &Cause,
) -> Result<Database, TaskFault>
    ensures rests { Rests (D.events file.old.disk) (D.events file.new.disk) }
    ensures reads { ReadsFile (D.events file.new.disk) result }
    ensures front { IfOk result (IsFile file.new.front.bytes.items) }
    ensures valid { Decodes None result }
{
    for _ in 0..PARTS {
        if let Some(read) = judged(alloc, file.front(), file.is_whole()) {
            note_other(&read, file.front(), cause);
            return read;
        }
        if let Err(error) = file.read_more() {
            return Err(read_fault(error, cause));
        }
    }
    Err(read_fault(Error::from(ErrorKind::FileTooLarge), cause))
}

/// Reads the database that an open pipe delivers.
///
/// # Errors
///
/// `File`: the pipe has no database, a read failed, or memory ran out.
#[tactic(auto, using(crate::proofs::Resting::rests_refl, crate::proofs::Resting::rests_trans))]
pub(crate) fn load_pipe<D: Disk>(
    alloc: Global,
    file: &mut FileBytes<D>,
    pipe: &mut D::Pipe,
    cause: &Cause,
) -> Result<Option<Database>, TaskFault>
    ensures rests { Rests (D.events file.old.disk) (D.events file.new.disk) }
    ensures finds { (s : World) → IsTrue (is_honest_after s (D.events file.new.disk)) → (bytes : List ℕ) → Finds (Some (Bytes bytes)) result }
    ensures valid { Finds None result }
{
    let mut bytes = Vec::new(alloc);
    for _ in 0..PARTS {
        let has_ended = match file.read_pipe(pipe, &mut bytes) {
            Ok(has_ended) => has_ended,
            Err(error) => return Err(read_fault(error, cause)),
        };
        let read = decoded(alloc, &bytes);
        if has_ended || is_judged(&read) {
            return Ok(Some(read?));
        }
    }
    Err(read_fault(Error::from(ErrorKind::FileTooLarge), cause))
}

/// The layout of the files of databases: it says where a database ends, whatever follows it.
struct FileLayout;

impl Layout for FileLayout {
    ghost end_of = { file_end };

    fn end(&self, _alloc: Global, bytes: &[u8]) -> io::Result<usize> {
        Ok(file_end(bytes))
    }
}

/// What a file with a mark stands for.
#[derive(Drop)]
pub(crate) struct Standing {
    /// The bytes of the database, as they were found.
    pub found: FoundDatabase,
    /// The database.
    pub database: Database,
}

/// Checks whether a fault is one of the bytes that were read, and not of reading them.
pub(crate) fn is_of_bytes(fault: &TaskFault) -> bool
    ensures { result ≡ is_of_bytes fault.now }
{
    match fault {
        TaskFault::File(FileFault::Read | FileFault::OutOfMemory) => false,
        TaskFault::File(_) => true,
        _ => false,
    }
}

// Checks whether the first bytes of a file with a cut mark show that no change of a database has left it: with the mark of a
// database they have a fault, and none of a database ends among them.
fn is_forged(alloc: Global, front: &[u8]) -> io::Result<bool>
    requires { begins_with front.now cut_mark ≡ true }
    ensures { IfOk result (λ is. IsTrue is → IsForged front.now) }
{
    let mut bytes = Vec::new(alloc);
    bytes.extend_from_slice(front)?;
    bytes[3] = b'I';
    let read = decoded(alloc, &bytes);
    let is_judged = is_judged(&read);
    match read {
        Ok(_) => Ok(false),
        Err(fault) => Ok(is_judged && is_of_bytes(&fault) && bytes.len() <= file_end(&bytes)),
    }
}

// Reads the first bytes of a file with a cut mark until they have the database under it. Returns `None` if there is none.
#[tactic(auto, using(crate::proofs::Resting::rests_refl, crate::proofs::Resting::rests_trans))]
fn read_cut<D: Disk>(alloc: Global, file: &mut FileBytes<D>) -> io::Result<Option<Vec<u8>>>
    ensures rests { Rests (D.events file.old.disk) (D.events file.new.disk) }
    ensures some { IfOk result (λ read. IfSome read (λ bytes. ShowsBytes bytes.items (D.events file.new.disk))) }
    ensures none { IfOk result (λ read. IfNone read (HasNoChange (D.events file.new.disk))) }
{
    one_answer();
    front_has_the_fault();
    file_laws();
    for _ in 0..PARTS {
        let front = file.front();
        if !front.starts_with(&CUT_MARK) || file.is_whole() || file_end(front) < front.len() {
            return Ok(Some(file.give_front()));
        }
        if is_forged(alloc, front)? {
            return Ok(None);
        }
        file.read_more()?;
    }
    Err(Error::from(ErrorKind::FileTooLarge))
}

// Checks whether a file with a log mark may have a log where the mark says: each change there begins with its own offset. A file
// without such a mark may.
#[tactic(auto, using(crate::proofs::Resting::rests_refl, crate::proofs::Resting::rests_trans))]
fn may_have_log<D: Disk>(alloc: Global, file: &mut FileBytes<D>) -> io::Result<bool>
    ensures rests { Rests (D.events file.old.disk) (D.events file.new.disk) }
    ensures no { IfOk result (λ may. may ≡ false → HasNoChange (D.events file.new.disk)) }
{
    file_laws();
    let Some(base) = file.base() else {
        return Ok(true);
    };
    if !base.first.starts_with(&LOG_WORD) {
        return Ok(true);
    }
    let mut word = [0; 8];
    word.copy_from_slice(&base.first[8..]);
    let tail = usize::from_be_bytes(word);
    if base.length.saturating_sub(tail) < 8 {
        return Ok(false);
    }
    let mut head = Vec::new(alloc);
    file.read_at(tail, 8, &mut head)?;
    if head.len() != 8 {
        return Err(Error::from(ErrorKind::UnexpectedEof));
    }
    word.copy_from_slice(&head);
    Ok(usize::from_be_bytes(word) == tail)
}

// Finds the bytes that an open file with a mark stands for.
#[tactic(auto, using(crate::proofs::Resting::rests_refl, crate::proofs::Resting::rests_trans))]
fn find<D: Disk>(alloc: Global, file: &mut FileBytes<D>) -> io::Result<FoundDatabase>
    ensures rests { Rests (D.events file.old.disk) (D.events file.new.disk) }
    ensures mark { IfOk result (λ found. (s : World) → IsTrue (is_honest_after s (D.events file.new.disk)) → IsMarkOf found.mark (bytes_after s (D.events file.new.disk))) }
    ensures database { IfOk result (λ found. (s : World) → IsTrue (is_honest_after s (D.events file.new.disk)) → database_of found ≡ settled file_end (bytes_after s (D.events file.new.disk))) }
{
    let bytes = file.read_all()?;
    FoundDatabase::read(alloc, &FileLayout, bytes)
}

// Finds the database under a cut mark by the first bytes of the file that have it. Returns `None` if they do not tell, or if the
// file has no cut mark.
#[tactic(auto, using(crate::proofs::Resting::rests_refl, crate::proofs::Resting::rests_trans))]
fn find_cut<D: Disk>(
    alloc: Global,
    file: &mut FileBytes<D>,
    cause: &Cause,
) -> Result<Option<Standing>, TaskFault>
    ensures rests { Rests (D.events file.old.disk) (D.events file.new.disk) }
    ensures stands { IfOk result (λ found. IfSome found (λ standing. IsStandingIn standing (D.events file.new.disk))) }
    ensures fault { IfErr result (λ fault. IsFaultIn fault (D.events file.new.disk)) }
{
    file_laws();
    if !file.front().starts_with(&CUT_MARK) {
        return Ok(None);
    }
    let bytes = match read_cut(alloc, file) {
        Ok(Some(bytes)) => bytes,
        Ok(None) => return Err(TaskFault::File(FileFault::NotOurs)),
        Err(error) => return Err(read_fault(error, cause)),
    };
    if !bytes.starts_with(&CUT_MARK) {
        return Ok(None);
    }
    let found = match FoundDatabase::read(alloc, &FileLayout, bytes) {
        Ok(found) => found,
        Err(error) => return Err(read_fault(error, cause)),
    };
    match decoded(alloc, found.database()) {
        Ok(database) => Ok(Some(Standing { found, database })),
        Err(_) => Ok(None),
    }
}

/// Finds the database that an open file with a mark stands for. Does not change the file.
///
/// # Errors
///
/// `File`: a read failed, memory ran out, or there is no database (`NotOurs`): the file has the mark of another program, or a
/// forged one.
#[tactic(auto, using(crate::proofs::Resting::rests_refl, crate::proofs::Resting::rests_trans))]
pub(crate) fn find_standing<D: Disk>(
    alloc: Global,
    file: &mut FileBytes<D>,
    cause: &Cause,
) -> Result<Standing, TaskFault>
    ensures rests { Rests (D.events file.old.disk) (D.events file.new.disk) }
    ensures stands { IfOk result (λ standing. IsStandingIn standing (D.events file.new.disk)) }
    ensures fault { IfErr result (λ fault. IsFaultIn fault (D.events file.new.disk)) }
{
    one_answer();
    file_laws();
    match may_have_log(alloc, file) {
        Ok(true) => {}
        Ok(false) => return Err(TaskFault::File(FileFault::NotOurs)),
        Err(error) => return Err(read_fault(error, cause)),
    }
    match find_cut(alloc, file, cause) {
        Ok(Some(standing)) => return Ok(standing),
        Ok(None) => {}
        Err(fault) => return Err(fault),
    }
    let found = match find(alloc, file) {
        Ok(found) => found,
        Err(error) => return Err(read_fault(error, cause)),
    };
    match decoded(alloc, found.database()) {
        Ok(database) => Ok(Standing { found, database }),
        Err(fault) if is_of_bytes(&fault) => Err(TaskFault::File(FileFault::NotOurs)),
        Err(fault) => Err(fault),
    }
}
