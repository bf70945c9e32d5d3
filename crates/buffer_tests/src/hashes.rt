//! How trace ids are hashed: by the key that the source gives.
use span_ids::TraceId;
use std::hash::BuildHasher;
use std::io;
use std::io::ErrorKind;
use std::random::RandomSource;
use std::test::Fail;
use trace_hash::TraceHashing;

/// A source that gives 0, 1, 2 and so on.
struct Counts;

impl RandomSource for Counts {
    fn fill_bytes(&self, buf: &mut [u8]) -> io::Result<()> {
        for place in 0..buf.len() {
            buf[place] = (place % 256) as u8;
        }
        Ok(())
    }
}

/// A source that gives nothing.
struct Dry;

impl RandomSource for Dry {
    fn fill_bytes(&self, _buf: &mut [u8]) -> io::Result<()> {
        Err(io::Error::from(ErrorKind::Unsupported))
    }
}

/// The number of a trace's id.
fn hash_of(hashing: &TraceHashing, trace: &str) -> Option<u64> {
    let id = TraceId::parse(trace)?;
    Some(hashing.hash_one(id))
}

/// The numbers are SipHash-1-3 of the id's bytes, the last one first, by another program.
#[test]
fn an_id_is_hashed_by_the_key(rt: HostRuntime) -> Result<(), Fail> {
    let hashing = TraceHashing::keyed(&Counts)?;
    let one = hash_of(&hashing, "5b8efff798038103d269b633813fc60c");
    let other = hash_of(&hashing, "5b8efff798038103d269b633813fc60d");
    assert_eq!(rt;
        [one, other],
        [Some(0x8781_2f6f_f5d1_cffb), Some(0xb9c0_9251_5f0f_a96e)]
    );
    Ok(())
}

#[test]
fn without_a_source_there_is_no_key(rt: HostRuntime) -> Result<(), Fail> {
    assert!(rt; TraceHashing::keyed(&Dry).is_err());
    Ok(())
}
