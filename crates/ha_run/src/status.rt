//! The status of a run.
ghost use Rattle.std.specs.Prelude.{◌≡◌, ◌≤◌, length, map};
ghost use Rattle.ha_run.specs.Team.{status_of, told_by};

use bus_turn::BusFault;
use ha_io::{Keeper, Sink, Source};
use ha_status::Status;
use ha_whole::Core;
use ha_worker::{Worker, WorkerEnd};

/// The status by a first fault of the bus.
pub(crate) fn status_of(fault: BusFault) -> Status
    ensures { result ≡ status_of fault }
{
    match fault {
        BusFault::Write { zero } => Status::WriteFault { zero },
        BusFault::Keep => Status::KeepFault,
        BusFault::Full => Status::JournalFull,
        BusFault::Memory => Status::Memory,
    }
}

/// The status by the ends of the workers: that of the first one whose source was lost or is too long.
pub(crate) fn told_by<S: Source, C: Core + Drop, K: Sink, Q: Keeper>(
    workers: &[Worker<S, C, K, Q>],
) -> Status
    requires { length workers.now ≤ 16 }
    ensures { result ≡ told_by 0 (map (λ w. w.end) workers.now) }
{
    let mut rest = workers;
    let mut k = 0;
    'workers: while let Some((worker, behind)) = rest.split_first() {
        match worker.end {
            Some(WorkerEnd::Ended) => k += 1,
            Some(WorkerEnd::Lost) => return Status::ReadFault { source: Some(k) },
            Some(WorkerEnd::TooLong) => return Status::SourceTooLong { source: k },
            Some(WorkerEnd::Stopped) | Some(WorkerEnd::Memory) | None => return Status::Memory,
        }
        rest = behind;
    }
    Status::Ok
}
