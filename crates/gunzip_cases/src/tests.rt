//! Streams that Python's zlib wrote.

use inflate::{GzipFault, gunzip};
use std::test::Fail;

const STORED: [u8; 25] = [
    31, 139, 8, 0, 0, 0, 0, 0, 4, 3, 1, 2, 0, 253, 255, 104, 105, 172, 42, 147, 216, 2, 0, 0, 0,
];

const FIXED: [u8; 24] = [
    31, 139, 8, 0, 0, 0, 0, 0, 4, 3, 75, 76, 74, 132, 66, 0, 155, 126, 155, 152, 10, 0, 0, 0,
];

const OWN: [u8; 127] = [
    31, 139, 8, 0, 0, 0, 0, 0, 0, 3, 141, 209, 49, 14, 128, 32, 12, 133, 225, 171, 152, 206, 12,
    148, 82, 1, 111, 67, 162, 131, 49, 162, 9, 56, 25, 239, 174, 19, 137, 75, 211, 249, 125, 203,
    159, 119, 67, 201, 251, 2, 19, 212, 51, 151, 193, 130, 129, 109, 45, 51, 76, 214, 64, 109, 185,
    93, 245, 155, 142, 13, 30, 115, 255, 96, 194, 212, 41, 202, 52, 82, 236, 212, 201, 52, 112,
    232, 148, 100, 58, 134, 177, 83, 47, 83, 78, 172, 205, 98, 244, 218, 44, 79, 164, 205, 34, 118,
    218, 44, 23, 80, 155, 133, 73, 253, 22, 90, 225, 173, 23, 167, 154, 193, 169, 2, 2, 0, 0,
];

const TEXT: &[u8; 514] =
    b"{\"name\":\"span 0\",\"kind\":0,\"status\":\"ok\"},{\"name\":\"span 919\",\"kind\":1,\"status\":\"ok\"},{\"name\":\"span 838\",\"kind\":2,\"status\":\"ok\"},{\"name\":\"span 757\",\"kind\":3,\"status\":\"ok\"},{\"name\":\"span 676\",\"kind\":4,\"status\":\"ok\"},{\"name\":\"span 595\",\"kind\":0,\"status\":\"ok\"},{\"name\":\"span 514\",\"kind\":1,\"status\":\"ok\"},{\"name\":\"span 433\",\"kind\":2,\"status\":\"ok\"},{\"name\":\"span 352\",\"kind\":3,\"status\":\"ok\"},{\"name\":\"span 271\",\"kind\":4,\"status\":\"ok\"},{\"name\":\"span 190\",\"kind\":0,\"status\":\"ok\"},{\"name\":\"span 109\",\"kind\":1,\"status\":\"ok\"},";

#[test]
fn reads_a_stored_block(rt: HostRuntime) -> Result<(), Fail> {
    let text = gunzip(rt.alloc(), &STORED, 2)?;
    assert_eq!(rt; text.as_slice(), b"hi".as_slice());
    Ok(())
}

#[test]
fn reads_a_repetition_that_overlaps(rt: HostRuntime) -> Result<(), Fail> {
    let text = gunzip(rt.alloc(), &FIXED, 100)?;
    assert_eq!(rt; text.as_slice(), b"ababababab".as_slice());
    Ok(())
}

#[test]
fn reads_a_block_with_its_own_codes(rt: HostRuntime) -> Result<(), Fail> {
    let text = gunzip(rt.alloc(), &OWN, 1000)?;
    assert_eq!(rt; text.as_slice(), TEXT.as_slice());
    Ok(())
}

#[test]
fn refuses_more_than_the_limit(rt: HostRuntime) {
    assert!(rt; matches!(gunzip(rt.alloc(), &OWN, 100), Err(GzipFault::TooLong)));
}

#[test]
fn refuses_a_stream_that_is_cut(rt: HostRuntime) {
    assert!(rt;
        matches!(
            gunzip(rt.alloc(), &OWN[..100], 1000),
            Err(GzipFault::Broken)
        )
    );
}
