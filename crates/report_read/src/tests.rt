use crate::read_runs;
use argo_base::NoMemory;
use std::alloc::Global;
use std::test::Fail;

// The line of the refusal of a report of format 1, or 0 where it names a schedule.
fn refusal_of(alloc: Global, text: &str) -> Result<u32, NoMemory> {
    match read_runs(alloc, text.as_bytes(), 1)? {
        Ok(_) => Ok(0),
        Err(line) => Ok(line),
    }
}

#[test]
fn a_schedule_is_read(rt: HostRuntime) -> Result<(), Fail> {
    for text in [
        "argo report 1\nschedule\n",
        "argo report 1\nschedule 0*5 1*11\nreply 0 1 ok\n",
        "argo report 1\nschedule 0*5 4294967295*18446744073709551615 0*1\n",
    ] {
        assert_eq!(rt; refusal_of(rt.alloc(), text)?, 0, "at {text}");
    }
    Ok(())
}

#[test]
fn another_first_line_is_refused(rt: HostRuntime) -> Result<(), Fail> {
    for text in [
        "",
        "argo report 2\nschedule\n",
        "argo report 1",
        "argo report 1\r\nschedule\n",
    ] {
        assert_eq!(rt; refusal_of(rt.alloc(), text)?, 1, "at {text}");
    }
    Ok(())
}

#[test]
fn a_schedule_as_no_report_has_it_is_refused(rt: HostRuntime) -> Result<(), Fail> {
    for text in [
        "argo report 1\nschedule",
        "argo report 1\nschedule \n",
        "argo report 1\nschedule 0*5 0*1\n",
        "argo report 1\nschedule 00*5\n",
        "argo report 1\nschedule 0*0\n",
        "argo report 1\nschedule 0*18446744073709551616\n",
        "argo report 1\nschedule 4294967296*1\n",
        "argo report 1\nschedule  0*1\n",
    ] {
        assert_eq!(rt; refusal_of(rt.alloc(), text)?, 2, "at {text}");
    }
    Ok(())
}
