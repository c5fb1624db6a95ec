ghost use Rattle.std.specs.Prelude.{◌≡◌, ◌≤◌, [], vec_len, IfOk, OnOk, IsErrOf};
ghost use Rattle.outside.specs.Counts.{counts_of, IsQuiet, Rose};
ghost use Rattle.outside.specs.Reading.{IsAbsent, IsTooLong, IsWhole, ReadsWithin};
ghost use Rattle.outside.specs.Taker.{TookFile};

use crate::{ByteTaker, Store, StoreFault};
use std::alloc::{AllocError, Global};

/// Why a file was not read.
#[derive(Clone, Copy, Debug, PartialEq, Eq)]
pub enum ReadFault {
    /// There is no file of that name; the store's `absences` rose.
    Absent,
    /// The store failed; its `faults` rose.
    Failed,
    /// The file has more bytes than the limit.
    TooLong,
    /// There was no memory to open the file or to hold its bytes.
    NoMemory,
}

impl From<StoreFault> for ReadFault {
    ghost use Rattle.std.specs.Prelude.{◌≡◌};
    ghost use Rattle.outside.specs.Faults.{read_fault};

    ghost from_gives = { λ fault made. made ≡ read_fault fault };

    fn from(fault: StoreFault) -> ReadFault {
        match fault {
            StoreFault::Failed => ReadFault::Failed,
            StoreFault::Missing => ReadFault::Absent,
            StoreFault::NoMemory => ReadFault::NoMemory,
        }
    }
}

impl From<AllocError> for ReadFault {
    ghost use Rattle.std.specs.Prelude.{◌≡◌};
    ghost use Rattle.outside.specs.declared.read.ReadFault.TheVariants.{NoMemory};

    ghost from_gives = { λ _ made. made ≡ NoMemory };

    fn from(_error: AllocError) -> ReadFault {
        ReadFault::NoMemory
    }
}

// The most bytes that are asked for at once.
const PIECE: usize = 64 * 1024;

fn piece_buffer(alloc: Global) -> Result<Vec<u8>, AllocError>
    ensures { IfOk result (λ buffer. vec_len buffer ≡ PIECE) }
{
    vec![in alloc; 0u8; PIECE]
}

/// Reads the named file to its end, or to the first byte past `limit` bytes, and hands its bytes on
/// piece by piece, as they are read.
pub fn read_pieces<S: Store, T: ByteTaker>(
    alloc: Global,
    store: &mut S,
    name: &str,
    limit: usize,
    taker: &mut T,
) -> Result<(), ReadFault>
    requires limit { limit ≤ 67108864 }
    requires fresh { T.has_taken taker.old taker.old [] }
    ensures took { let counts = counts_of S.faults S.absences S.taken in
        OnOk result (TookFile T.has_taken taker.old taker.new (S.files store.old) name.now limit
        (counts store.old) (counts store.new)) }
    ensures quiet { let counts = counts_of S.faults S.absences S.taken in
        OnOk result (IsQuiet (counts store.old) (counts store.new)) }
    ensures absent { let counts = counts_of S.faults S.absences S.taken in
        IsErrOf result ReadFault.Absent
        → IsAbsent (S.files store.old) name.now (counts store.old) (counts store.new) }
    ensures failed { IsErrOf result ReadFault.Failed
        → Rose (S.faults store.old) (S.faults store.new) }
    ensures failed_absences { IsErrOf result ReadFault.Failed
        → S.absences store.new ≡ S.absences store.old }
    ensures too_long { let counts = counts_of S.faults S.absences S.taken in
        IsErrOf result ReadFault.TooLong
        → IsTooLong (S.files store.old) name.now limit (counts store.old) (counts store.new) }
    ensures memory { let counts = counts_of S.faults S.absences S.taken in
        IsErrOf result ReadFault.NoMemory → IsQuiet (counts store.old) (counts store.new) }
    ensures files { S.files store.new ≡ S.files store.old }
    ensures within { let counts = counts_of S.faults S.absences S.taken in
        ReadsWithin (S.files store.old) name.now limit (counts store.old) (counts store.new) }
{
    store.open_file(name)?;
    let mut buffer = piece_buffer(alloc)?;
    let piece = buffer.as_mut_slice();
    let mut taken = 0;
    'pieces: loop {
        let wanted = PIECE.min(limit - taken + 1);
        // a read is refused for no other cause
        let Ok(count) = store.read(&mut piece[..wanted]) else {
            return Err(ReadFault::Failed);
        };
        if count == 0 {
            return Ok(());
        }
        if count > limit - taken {
            return Err(ReadFault::TooLong);
        }
        taker.take(&piece[..count])?;
        taken += count;
    }
}

/// Reads the named file to its end, or to the first byte past `limit` bytes.
pub fn read_all<S: Store>(
    alloc: Global,
    store: &mut S,
    name: &str,
    limit: usize,
) -> Result<Vec<u8>, ReadFault>
    requires { limit ≤ 67108864 }
    ensures whole { let counts = counts_of S.faults S.absences S.taken in
        IfOk result (λ bytes. IsWhole (S.files store.old) name.now limit
        (counts store.old) (counts store.new) bytes.items) }
    ensures quiet { let counts = counts_of S.faults S.absences S.taken in
        OnOk result (IsQuiet (counts store.old) (counts store.new)) }
    ensures absent { let counts = counts_of S.faults S.absences S.taken in
        IsErrOf result ReadFault.Absent
        → IsAbsent (S.files store.old) name.now (counts store.old) (counts store.new) }
    ensures failed { IsErrOf result ReadFault.Failed
        → Rose (S.faults store.old) (S.faults store.new) }
    ensures failed_absences { IsErrOf result ReadFault.Failed
        → S.absences store.new ≡ S.absences store.old }
    ensures too_long { let counts = counts_of S.faults S.absences S.taken in
        IsErrOf result ReadFault.TooLong
        → IsTooLong (S.files store.old) name.now limit (counts store.old) (counts store.new) }
    ensures memory { let counts = counts_of S.faults S.absences S.taken in
        IsErrOf result ReadFault.NoMemory → IsQuiet (counts store.old) (counts store.new) }
    ensures files { S.files store.new ≡ S.files store.old }
    ensures within { let counts = counts_of S.faults S.absences S.taken in
        ReadsWithin (S.files store.old) name.now limit (counts store.old) (counts store.new) }
{
    let mut bytes = Vec::new(alloc);
    read_pieces(alloc, store, name, limit, &mut bytes)?;
    Ok(bytes)
}
