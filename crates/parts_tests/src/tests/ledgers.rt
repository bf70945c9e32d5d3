//! A ledger whose run is cut off at each of its calls of the disk, and which is opened again.
ghost use Rattle.std.specs.Prelude.{◌≡◌, ◌++◌, ◌∷◌, [], List, ℕ, map, OnOk};
ghost use Rattle.std.proofs.lemmas.List.{append-nil};

use ledger_file::{Ledger, LedgerError, Visit};
use sqlite_disk::{Crash, Disk, Fuse, Memory};
use std::alloc::Global;
use std::test::Fail;

/// Keeps the records that it is given.
#[derive(Drop)]
struct Kept {
    records: Vec<Vec<u8>>,
}

impl Visit for Kept {
    ghost has_visited = { λ first records k. map (λ v. v.items) first.records.items ++ records ≡ map (λ v. v.items) k.records.items };

    fn visit(&mut self, bytes: &[u8]) -> Result<(), LedgerError> {
        let mut copy = Vec::new(*self.records.allocator());
        copy.extend_from_slice(bytes)?;
        Ok(self.records.push(copy).map_err(|_| LedgerError::NoMemory)?)
    }

    ghost starts = { λ k. append-nil (map (λ v. v.items) k.records.items) };
}

/// Commits one record, and then two. Answers how many were committed, and the disk.
fn run<D: Disk>(alloc: Global, disk: D) -> (usize, D) {
    if !disk.may_be_used() {
        return (0, disk);
    }
    let mut ledger = match Ledger::create(alloc, disk, &[7]) {
        Ok(ledger) => ledger,
        Err((_, disk)) => return (0, disk),
    };
    if ledger.append(b"a").is_err() || ledger.commit().is_err() {
        return (0, ledger.into_disk());
    }
    if ledger.append(b"bc").is_err() || ledger.append(b"").is_err() || ledger.commit().is_err() {
        return (1, ledger.into_disk());
    }
    (3, ledger.into_disk())
}

/// How many records are found, or none where there is no ledger.
fn found<D: Disk + Drop>(alloc: Global, disk: D) -> Option<usize> {
    if !disk.may_be_used() {
        return None;
    }
    let mut kept = Kept {
        records: Vec::new(alloc),
    };
    match Ledger::open(alloc, disk, &mut kept) {
        Ok(_) => Some(kept.records.len()),
        Err(_) => None,
    }
}

#[test]
fn what_was_committed_outlives_a_crash_after_each_call(rt: HostRuntime) -> Result<(), Fail> {
    let alloc = rt.alloc();
    for calls in 0..24 {
        let (committed, mut disk) = run(alloc, Fuse::new(Memory::new(alloc), calls));
        disk.crash();
        let records = found(alloc, disk);
        assert!(rt; committed == 0 || records.is_some(), "after {calls} calls");
        let count = records.unwrap_or(0);
        assert!(rt; count >= committed, "after {calls} calls");
        assert!(rt;
            count == 0 || count == 1 || count == 3,
            "after {calls} calls"
        );
    }
    Ok(())
}

#[test]
fn all_calls_are_made(rt: HostRuntime) -> Result<(), Fail> {
    let alloc = rt.alloc();
    let (committed, disk) = run(alloc, Fuse::new(Memory::new(alloc), 100));
    assert_eq!(rt; committed, 3);
    assert_eq!(rt; found(alloc, disk), Some(3));
    Ok(())
}
