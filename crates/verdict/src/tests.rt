// Examples. The seal is the second program's, of a file of five blocks.
use super::*;
use seal::{Later, later};
use std::test::Fail;
use terms::Site;

const SEAL: &[u8; 46] =
    b"\x01\x00\x01\x01\x02\x00\x04\x00\x00\x00\x05\x03\x00\x20\x4b\x41\x3f\x7b\x65\x45\x7f\x3b\x43\x53\x52\xc3\x14\x20\xaf\xe0\x58\xcd\x33\x84\x08\x37\x59\xdf\x83\xfc\x44\xad\xbd\xa4\xe5\x09";

#[test]
fn a_missing_seal_is_refused(rt: HostRuntime) {
    let verdict = judge(&[], &[]);
    assert!(rt; matches!(verdict, Err(refusal) if refusal.number() == 20));
    assert!(rt; matches!(verdict, Err(refusal) if refusal.site().map_or(0, Site::offset) == 0));
}

#[test]
fn an_empty_slip_is_refused_at_its_first_field(rt: HostRuntime) -> Result<(), Fail> {
    let line = Line(judge(SEAL, &[]));
    assert!(rt; format!(in rt.alloc(); "{line}")?.as_str() == "refused 30 at 0");
    Ok(())
}

#[test]
fn more_blocks_are_later(rt: HostRuntime) {
    let mut fewer = *SEAL;
    fewer[10] = 4;
    assert!(rt; matches!(later(SEAL, &fewer), Ok(Later::First)));
    assert!(rt; matches!(later(&fewer, SEAL), Ok(Later::Second)));
    assert!(rt; matches!(later(SEAL, SEAL), Ok(Later::Same)));
    fewer[10] = 5;
    fewer[45] ^= 1;
    assert!(rt; matches!(later(SEAL, &fewer), Ok(Later::Unrelated)));
}
