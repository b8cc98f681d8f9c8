use super::*;
use argo_model::{Actor, Line};
use std::alloc::{AllocError, Global};
use std::test::Fail;

fn fault_of(alloc: Global, text: &[u8]) -> Option<(u32, ScriptKind)> {
    match read_scripts(alloc, text) {
        Err(ReadFault::Script(fault)) => Some((fault.line, fault.kind)),
        _ => None,
    }
}

fn repeated(alloc: Global, front: &str, line: &str, times: u32) -> Result<Vec<u8>, AllocError> {
    let mut text = Vec::from_slice(alloc, front.as_bytes())?;
    for _ in 0..times {
        text.extend_from_slice(line.as_bytes())?;
    }
    Ok(text)
}

#[test]
fn a_script_is_read(rt: HostRuntime) -> Result<(), Fail> {
    let text = "argo 1\ndomain 7 pages 2\nvcpu 7\n store 0x10 00fFab\nload 4096 64";
    let scripts = read_scripts(rt.alloc(), text.as_bytes())?;
    assert_eq!(rt; scripts.version, 1);
    assert_eq!(rt; scripts.domains.len(), 1);
    assert_eq!(rt; scripts.domains.get(0).pages, 2);
    assert_eq!(rt; scripts.parts.len(), 1);
    let part = scripts.parts.get(0);
    assert!(rt; matches!(part.actor, Actor::Vcpu(_, 1)));
    assert_eq!(rt; part.lines.len(), 2);
    let Line::Store { at, bytes } = part.lines.get(0) else {
        return Err("the first line is a store".into());
    };
    assert_eq!(rt; *at, 16);
    assert_eq!(rt; bytes.as_slice(), [0, 255, 171].as_slice());
    assert!(rt; matches!(part.lines.get(1), Line::Load { at: 4096, n: 64 }));
    Ok(())
}

#[test]
fn every_line_of_both_formats_is_read(rt: HostRuntime) -> Result<(), Fail> {
    let text =
        "# first\r\nargo 2\ndomain 1 pages 2 off\ndomain\t0x7fef pages 4608\n\nvcpu 1 gen 8193\nstore 0 00\nload 1 1\n\
op 1 2 3 4 18446744073709551615\nawait 1048576\nrecv 4607 0x1000000\ncontrol\ndestroy 1\nreset 1\ncreate 1\nvcpu 1\r";
    let scripts = read_scripts(rt.alloc(), text.as_bytes())?;
    assert_eq!(rt; scripts.version, 2);
    assert_eq!(rt; scripts.domains.len(), 2);
    assert_eq!(rt; scripts.parts.len(), 3);
    assert_eq!(rt; scripts.parts.get(0).lines.len(), 5);
    assert_eq!(rt; scripts.parts.get(1).lines.len(), 3);
    assert_eq!(rt; scripts.parts.get(2).lines.len(), 0);
    Ok(())
}

#[test]
fn faults_have_their_line_and_kind(rt: HostRuntime) {
    let faults = [
        ("", 0, ScriptKind::Header),
        ("\n#argo 1\n argo  01", 3, ScriptKind::Header),
        ("argo 1\ndomain 1 pages 1\nrecv 0 48", 3, ScriptKind::Place),
        ("argo 1\ndomain 1 pages 1\nvcpu x", 3, ScriptKind::Number),
        ("argo 1\ncontrol\nreset 2", 3, ScriptKind::Word),
        ("argo 1\ndomain 0x7ff0 pages 1", 2, ScriptKind::Range),
        (
            "argo 1\ndomain 1 pages 1\ndomain 01 pages 1",
            3,
            ScriptKind::Number,
        ),
        (
            "argo 1\ndomain 1 pages 1\ndomain 0x1 pages 1",
            3,
            ScriptKind::Domain,
        ),
        ("argo 2\ndomain 1 pages 1\nvcpu 1 gen", 3, ScriptKind::Count),
        (
            "argo 2\ndomain 1 pages 1\nvcpu 1 gen 0",
            3,
            ScriptKind::Range,
        ),
    ];
    for (text, line, kind) in faults {
        assert_eq!(rt; fault_of(rt.alloc(), text.as_bytes()), Some((line, kind)));
    }
}

#[test]
fn a_script_has_its_limits(rt: HostRuntime) -> Result<(), Fail> {
    let begun = "argo 1\ndomain 1 pages 1\nvcpu 1\n";
    for (line, most) in [
        ("vcpu 1\n", 63),
        ("load 0 1\n", 8192),
        ("await 131072\n", 8),
    ] {
        let text = repeated(rt.alloc(), begun, line, most)?;
        assert_eq!(rt; fault_of(rt.alloc(), text.as_slice()), None);
        let text = repeated(rt.alloc(), begun, line, most + 1)?;
        let fault = fault_of(rt.alloc(), text.as_slice());
        assert_eq!(rt; fault, Some((most + 4, ScriptKind::Limit)));
    }
    let text = repeated(rt.alloc(), begun, " ", 4_194_304 - 31)?;
    assert_eq!(rt; fault_of(rt.alloc(), text.as_slice()), None);
    let text = repeated(rt.alloc(), begun, " ", 4_194_305 - 31)?;
    assert_eq!(rt;
        fault_of(rt.alloc(), text.as_slice()),
        Some((0, ScriptKind::Size))
    );
    Ok(())
}
