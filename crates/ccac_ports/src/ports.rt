ghost use Rattle.std.specs.Prelude.{◌≡◌, ℕ, ◌<◌, ◌≤◌, List, length, take, IfOk, IfSome, OnOk, OnErr, IsErrOf};
ghost use Rattle.ccac_ports.specs.Ports.{HasRisen, Appends, Got, Tells, Told};

use std::alloc::AllocError;
use thiserror::Error;

/// Why a file wasn't fetched.
#[derive(Clone, Copy, Debug, PartialEq, Eq, Error)]
pub enum FetchFault {
    #[error("the file can't be read")]
    Failed,
    #[error("the file is too long")]
    TooLong,
    #[error("out of memory")]
    NoMemory,
}

/// Why a text wasn't put whole.
#[derive(Clone, Copy, Debug, PartialEq, Eq, Error)]
pub enum PutFault {
    #[error("the text can't be written")]
    Failed,
    #[error("out of memory")]
    NoMemory,
}

impl From<AllocError> for FetchFault {
    ghost use Rattle.std.specs.Prelude.{◌≡◌};
    ghost use Rattle.ccac_ports.specs.declared.ports.FetchFault.TheVariants.{NoMemory};

    ghost from_gives = { λ _ fault. fault ≡ NoMemory };

    fn from(_fault: AllocError) -> FetchFault {
        FetchFault::NoMemory
    }
}

impl From<AllocError> for PutFault {
    ghost use Rattle.std.specs.Prelude.{◌≡◌};
    ghost use Rattle.ccac_ports.specs.declared.ports.PutFault.TheVariants.{NoMemory};

    ghost from_gives = { λ _ fault. fault ≡ NoMemory };

    fn from(_fault: AllocError) -> PutFault {
        PutFault::NoMemory
    }
}

/// Named files that can be fetched.
///
/// For each name a folder has a count of faults and a count of excesses. Each count goes up to
/// `2^64 - 1` and stays there. A folder may keep one number for all names.
pub trait Folder {
    /// What each name holds, where the folder tells it; how often it couldn't be read; and how often it held more bytes
    /// than were allowed.
    ghost tells: { Self → Told };

    /// The bytes of the file `name`, of which there may be at most `limit`.
    ///
    /// `NoMemory` may come at any time. Where the content is told and is longer than `limit`, no
    /// answer but `TooLong` is left where no fault came.
    fn fetch(&mut self, name: &str, limit: u64) -> Result<Vec<u8>, FetchFault>
        ensures within { IfOk result (λ bytes. length bytes.items ≤ limit) }
        ensures told { IfOk result (λ bytes. Tells ((tells self.old).content name.now) bytes.items) }
        ensures failed { IsErrOf result FetchFault.Failed →
            HasRisen ((tells self.old).faults name.now) ((tells self.new).faults name.now) }
        ensures exceeded { IsErrOf result FetchFault.TooLong →
            HasRisen ((tells self.old).excesses name.now) ((tells self.new).excesses name.now) }
        ensures longer { IsErrOf result FetchFault.TooLong →
            IfSome ((tells self.old).content name.now) (λ held.
            (limit < length held) × ((tells self.new).faults name.now ≡ (tells self.old).faults name.now)) }

        // Neither count of any name falls, and no content changes.
        ensures faults_stay { (other : List ℕ) → (tells self.old).faults other ≤ (tells self.new).faults other }
        ensures excesses_stay { (other : List ℕ) → (tells self.old).excesses other ≤ (tells self.new).excesses other }
        ensures kept { (other : List ℕ) → (tells self.new).content other ≡ (tells self.old).content other };
}

/// Where a report is put.
pub trait Sink {
    /// The text that the sink got, where it tells it, and how often it couldn't take one: a count that stays at
    /// `2^64 - 1`.
    ghost got: { Self → Got };

    /// Appends the bytes to the text. After a refusal a prefix of them was appended, perhaps an
    /// empty one. `NoMemory` may come at any time.
    fn put(&mut self, bytes: &[u8]) -> Result<(), PutFault>
        ensures ok { OnOk result (Appends (got self.old).text (got self.new).text bytes.now) }
        ensures refused { OnErr result ((n : ℕ) × Appends (got self.old).text (got self.new).text (take n bytes.now)) }
        ensures failed { IsErrOf result PutFault.Failed → HasRisen (got self.old).faults (got self.new).faults }
        ensures stays { (got self.old).faults ≤ (got self.new).faults };
}
