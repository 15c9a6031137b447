// Runs of the search: what stands in the files and in the output where a call fails.
use crate::runs::{Limits, NO_LIMITS, Outcome, ran, untouched};
use crate::texts::{BLOCK_ROAD, PAIR_ROAD, PIT_ROAD, TABLE, TABLE_ROAD};
use roadopt_program::Status;
use std::test::Fail;

const SOLVE: &[&str] = &["solve", "road", "cert"];

const TRIAL: &[&str] = &["trial", "3"];

/// Behind a print that failed the certificate's file holds a valid certificate.
#[test]
fn written_certs(rt: HostRuntime) -> Result<(), Fail> {
    for (road, line) in [
        (PIT_ROAD, "valid cost 300000/1 bound 300000/1\n"),
        (PAIR_ROAD, "valid cost 225000/1 bound 225000/1\n"),
        (BLOCK_ROAD, "valid cost 326000/1 bound 326000/1\n"),
    ] {
        let limits = Limits {
            room: 10,
            ..NO_LIMITS
        };
        let end = ran(rt.alloc(), SOLVE, &[("road", road)], &limits)?;
        let wanted = Outcome {
            has_cert: true,
            has_notes: true,
            sink_faults: 1,
            ..untouched(Status::WriteFault)
        };
        assert_eq!(rt; end.outcome, wanted);
        assert_eq!(rt; end.printed.as_slice(), b"road secti".as_slice());
        let files = [("road", road), ("cert", end.cert.as_slice())];
        let check = ran(rt.alloc(), &["check", "road", "cert"], &files, &NO_LIMITS)?;
        assert_eq!(rt; check.outcome, untouched(Status::Done));
        assert_eq!(rt; check.printed.as_slice(), line.as_bytes());
    }
    Ok(())
}

/// A road whose sections stand in a table: the first two calls read, the third writes.
#[test]
fn failing_calls_by_a_table(rt: HostRuntime) -> Result<(), Fail> {
    let files = [("road", TABLE_ROAD), ("road20.csv", TABLE)];
    for call in [1u64, 2, 3] {
        let limits = Limits {
            store: &[call],
            ..NO_LIMITS
        };
        let end = ran(rt.alloc(), SOLVE, &files, &limits)?;
        let wanted = if call < 3 {
            Outcome {
                read_faults: 1,
                ..untouched(Status::ReadFault)
            }
        } else {
            Outcome {
                has_cert: true,
                has_notes: true,
                write_faults: 1,
                ..untouched(Status::WriteFault)
            }
        };
        assert_eq!(rt; end.outcome, wanted, "at call {call}");
        assert!(rt; end.printed.is_empty(), "at call {call}");
        assert!(rt; end.cert.is_empty(), "at call {call}");
    }
    Ok(())
}

/// A trial reads and writes no file, and puts its line at once.
#[test]
fn calls_of_a_trial(rt: HostRuntime) -> Result<(), Fail> {
    let limits = Limits {
        store: &[1],
        sink: &[2],
        ..NO_LIMITS
    };
    let end = ran(rt.alloc(), TRIAL, &[], &limits)?;
    let status = end.outcome.status;
    let wanted = Outcome {
        has_cert: true,
        has_notes: true,
        ..untouched(status)
    };
    assert_eq!(rt; end.outcome, wanted);
    assert!(rt; matches!(status, Status::Done | Status::Gap));
    assert!(rt;
        end.printed
            .starts_with(b"trial 3 sections 11 stages 2 nodes ")
    );
    Ok(())
}

/// Its one put fails, by its number or where the sink is full.
#[test]
fn failing_puts_of_a_trial(rt: HostRuntime) -> Result<(), Fail> {
    let wanted = Outcome {
        has_cert: true,
        has_notes: true,
        sink_faults: 1,
        ..untouched(Status::WriteFault)
    };
    let limits = Limits {
        sink: &[1],
        ..NO_LIMITS
    };
    let end = ran(rt.alloc(), TRIAL, &[], &limits)?;
    assert_eq!(rt; end.outcome, wanted);
    assert!(rt; end.printed.is_empty());
    let limits = Limits {
        room: 10,
        ..NO_LIMITS
    };
    let end = ran(rt.alloc(), TRIAL, &[], &limits)?;
    assert_eq!(rt; end.outcome, wanted);
    assert_eq!(rt; end.printed.as_slice(), b"trial 3 se".as_slice());
    Ok(())
}
