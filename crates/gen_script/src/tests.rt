//! That the call does not always answer that memory ran out, which no clause says.

use super::*;
use std::test::Fail;

#[test]
fn a_number_makes_eight_sections(rt: HostRuntime) -> Result<(), Fail> {
    let scripts = gen_scripts(rt.alloc(), 1)?;
    assert_eq!(rt; (scripts.version, scripts.domains.len()), (1, 8));
    let mut lines = Vec::new(rt.alloc());
    for part in scripts.parts.as_slice() {
        lines.push(part.lines.len())?;
    }
    assert_eq!(rt; lines.as_slice(), [1004; 8].as_slice());
    Ok(())
}
