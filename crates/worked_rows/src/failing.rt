// Runs of each command in which calls of the store and of the sink fail: the first that fails decides how the run ends, and nothing
// that was due before it is undone.
use crate::runs::{Limits, NO_LIMITS, Outcome, ran, untouched};
use crate::texts::{
    BLOCK_CERT, BLOCK_PLAN, BLOCK_PLAN_OFF, BLOCK_REPORT, BLOCK_ROAD, PAIR_CERT, PAIR_MASS,
    PAIR_PLAN, PAIR_PLAN_OFF, PAIR_REPORT, PAIR_ROAD, PAIR_ROAD_DEARER, PIT_REPORT, PIT_ROAD,
    TABLE_ROAD,
};
use roadopt_program::Status;
use std::test::Fail;

const USAGE: &[u8] =
    b"usage: judge ROAD PLAN, check ROAD CERT, replay ROAD CERT, solve ROAD CERT, trial NUMBER, carry ROAD CERT NEW, mass ROAD CERT\n";

/// What stands in the certificate's file before it is written.
const OLD: &[u8] = b"old\n";

/// A run, and what is due for it where no call fails: so many reads and puts, the end, the output, and whether it answers a
/// certificate, which it writes to the file `cert`, and notes of a search.
#[derive(Clone, Copy)]
struct Due {
    name: &'static str,
    words: &'static [&'static str],
    files: &'static [(&'static str, &'static [u8])],
    reads: u8,
    puts: u8,
    status: Status,
    output: &'static [u8],
    has_cert: bool,
    has_notes: bool,
}

/// The commands that answer from two files, each on two roads.
static READING: [Due; 7] = [
    Due {
        name: "judge on two sections",
        words: &["judge", "road", "plan"],
        files: &[("road", PAIR_ROAD), ("plan", PAIR_PLAN)],
        reads: 2,
        puts: 1,
        status: Status::Done,
        output: b"admissible 225000/1\n",
        has_cert: false,
        has_notes: false,
    },
    Due {
        name: "check on two sections",
        words: &["check", "road", "cert"],
        files: &[("road", PAIR_ROAD), ("cert", PAIR_CERT)],
        reads: 2,
        puts: 1,
        status: Status::Done,
        output: b"valid cost 225000/1 bound 225000/1\n",
        has_cert: false,
        has_notes: false,
    },
    Due {
        name: "replay on two sections",
        words: &["replay", "road", "cert"],
        files: &[("road", PAIR_ROAD), ("cert", PAIR_CERT)],
        reads: 2,
        puts: 1,
        status: Status::Done,
        output: PAIR_REPORT,
        has_cert: false,
        has_notes: false,
    },
    Due {
        name: "mass on two sections",
        words: &["mass", "road", "cert"],
        files: &[("road", PAIR_ROAD), ("cert", PAIR_CERT)],
        reads: 2,
        puts: 1,
        status: Status::Done,
        output: PAIR_MASS,
        has_cert: false,
        has_notes: false,
    },
    Due {
        name: "judge on a block",
        words: &["judge", "road", "plan"],
        files: &[("road", BLOCK_ROAD), ("plan", BLOCK_PLAN)],
        reads: 2,
        puts: 1,
        status: Status::Done,
        output: b"admissible 326000/1\n",
        has_cert: false,
        has_notes: false,
    },
    Due {
        name: "check on a block",
        words: &["check", "road", "cert"],
        files: &[("road", BLOCK_ROAD), ("cert", BLOCK_CERT)],
        reads: 2,
        puts: 1,
        status: Status::Done,
        output: b"valid cost 326000/1 bound 326000/1\n",
        has_cert: false,
        has_notes: false,
    },
    Due {
        name: "replay on a block",
        words: &["replay", "road", "cert"],
        files: &[("road", BLOCK_ROAD), ("cert", BLOCK_CERT)],
        reads: 2,
        puts: 1,
        status: Status::Done,
        output: BLOCK_REPORT,
        has_cert: false,
        has_notes: false,
    },
];

/// The commands that write a file, each on three roads.
static WRITING: [Due; 5] = [
    Due {
        name: "solve on one section",
        words: &["solve", "road", "cert"],
        files: &[("road", PIT_ROAD), ("cert", OLD)],
        reads: 1,
        puts: 1,
        status: Status::Done,
        output: PIT_REPORT,
        has_cert: true,
        has_notes: true,
    },
    Due {
        name: "solve on two sections",
        words: &["solve", "road", "cert"],
        files: &[("road", PAIR_ROAD), ("cert", OLD)],
        reads: 1,
        puts: 1,
        status: Status::Done,
        output: PAIR_REPORT,
        has_cert: true,
        has_notes: true,
    },
    Due {
        name: "solve on a block",
        words: &["solve", "road", "cert"],
        files: &[("road", BLOCK_ROAD), ("cert", OLD)],
        reads: 1,
        puts: 1,
        status: Status::Done,
        output: BLOCK_REPORT,
        has_cert: true,
        has_notes: true,
    },
    Due {
        name: "carry on two sections",
        words: &["carry", "road", "given", "cert"],
        files: &[
            ("road", PAIR_ROAD_DEARER),
            ("given", PAIR_CERT),
            ("cert", OLD),
        ],
        reads: 2,
        puts: 1,
        status: Status::Done,
        output: b"carried cost 250000/1 bound 225000/1\n",
        has_cert: true,
        has_notes: false,
    },
    Due {
        name: "carry on a block",
        words: &["carry", "road", "given", "cert"],
        files: &[("road", BLOCK_ROAD), ("given", BLOCK_CERT), ("cert", OLD)],
        reads: 2,
        puts: 1,
        status: Status::Done,
        output: b"carried cost 326000/1 bound 326000/1\n",
        has_cert: true,
        has_notes: false,
    },
];

/// Words and files that are refused.
static REFUSED: [Due; 18] = [
    Due {
        name: "no words",
        words: &[],
        files: &[],
        reads: 0,
        puts: 1,
        status: Status::Usage,
        output: USAGE,
        has_cert: false,
        has_notes: false,
    },
    Due {
        name: "solve a a",
        words: &["solve", "a", "a"],
        files: &[("a", PAIR_ROAD)],
        reads: 0,
        puts: 1,
        status: Status::Usage,
        output: USAGE,
        has_cert: false,
        has_notes: false,
    },
    Due {
        name: "trial 03",
        words: &["trial", "03"],
        files: &[],
        reads: 0,
        puts: 1,
        status: Status::Usage,
        output: USAGE,
        has_cert: false,
        has_notes: false,
    },
    Due {
        name: "judge on an empty road",
        words: &["judge", "road", "plan"],
        files: &[("road", b""), ("plan", PAIR_PLAN)],
        reads: 1,
        puts: 1,
        status: Status::RoadRefused,
        output: b"road refused: F3\n",
        has_cert: false,
        has_notes: false,
    },
    Due {
        name: "check on an empty road",
        words: &["check", "road", "cert"],
        files: &[("road", b""), ("cert", PAIR_CERT)],
        reads: 1,
        puts: 1,
        status: Status::RoadRefused,
        output: b"road refused: F3\n",
        has_cert: false,
        has_notes: false,
    },
    Due {
        name: "replay on an empty road",
        words: &["replay", "road", "cert"],
        files: &[("road", b""), ("cert", PAIR_CERT)],
        reads: 1,
        puts: 1,
        status: Status::RoadRefused,
        output: b"road refused: F3\n",
        has_cert: false,
        has_notes: false,
    },
    Due {
        name: "solve on an empty road",
        words: &["solve", "road", "cert"],
        files: &[("road", b""), ("cert", OLD)],
        reads: 1,
        puts: 1,
        status: Status::RoadRefused,
        output: b"road refused: F3\n",
        has_cert: false,
        has_notes: false,
    },
    Due {
        name: "judge on two sections, a plan that is refused",
        words: &["judge", "road", "plan"],
        files: &[("road", PAIR_ROAD), ("plan", b"plan 0\n")],
        reads: 2,
        puts: 1,
        status: Status::PlanRefused,
        output: b"plan refused: line 1\n",
        has_cert: false,
        has_notes: false,
    },
    Due {
        name: "judge on two sections, a plan that breaks a rule",
        words: &["judge", "road", "plan"],
        files: &[("road", PAIR_ROAD), ("plan", PAIR_PLAN_OFF)],
        reads: 2,
        puts: 1,
        status: Status::PlanBroken,
        output: b"broken P7 stage 1 place 1\n",
        has_cert: false,
        has_notes: false,
    },
    Due {
        name: "judge on a block, a plan that breaks a rule",
        words: &["judge", "road", "plan"],
        files: &[("road", BLOCK_ROAD), ("plan", BLOCK_PLAN_OFF)],
        reads: 2,
        puts: 1,
        status: Status::PlanBroken,
        output: b"broken P7 stage 2 place 2\n",
        has_cert: false,
        has_notes: false,
    },
    Due {
        name: "check on two sections, a certificate that is refused",
        words: &["check", "road", "cert"],
        files: &[("road", PAIR_ROAD), ("cert", BLOCK_CERT)],
        reads: 2,
        puts: 1,
        status: Status::CertRefused,
        output: b"certificate refused: C2 line 4\n",
        has_cert: false,
        has_notes: false,
    },
    Due {
        name: "mass and a further word",
        words: &["mass", "road", "cert", "new"],
        files: &[("road", PAIR_ROAD), ("cert", PAIR_CERT)],
        reads: 0,
        puts: 1,
        status: Status::Usage,
        output: USAGE,
        has_cert: false,
        has_notes: false,
    },
    Due {
        name: "mass on two sections, a certificate that is refused",
        words: &["mass", "road", "cert"],
        files: &[("road", PAIR_ROAD), ("cert", BLOCK_CERT)],
        reads: 2,
        puts: 1,
        status: Status::CertRefused,
        output: b"certificate refused: C2 line 4\n",
        has_cert: false,
        has_notes: false,
    },
    Due {
        name: "replay on two sections, a certificate that is refused",
        words: &["replay", "road", "cert"],
        files: &[("road", PAIR_ROAD), ("cert", BLOCK_CERT)],
        reads: 2,
        puts: 1,
        status: Status::CertRefused,
        output: b"certificate refused: C2 line 4\n",
        has_cert: false,
        has_notes: false,
    },
    Due {
        name: "carry without a third name",
        words: &["carry", "road", "cert"],
        files: &[("road", PAIR_ROAD), ("cert", PAIR_CERT)],
        reads: 0,
        puts: 1,
        status: Status::Usage,
        output: USAGE,
        has_cert: false,
        has_notes: false,
    },
    Due {
        name: "carry onto what is carried",
        words: &["carry", "road", "cert", "cert"],
        files: &[("road", PAIR_ROAD), ("cert", PAIR_CERT)],
        reads: 0,
        puts: 1,
        status: Status::Usage,
        output: USAGE,
        has_cert: false,
        has_notes: false,
    },
    Due {
        name: "carry on an empty road",
        words: &["carry", "road", "given", "cert"],
        files: &[("road", b""), ("given", PAIR_CERT), ("cert", OLD)],
        reads: 1,
        puts: 1,
        status: Status::RoadRefused,
        output: b"road refused: F3\n",
        has_cert: false,
        has_notes: false,
    },
    Due {
        name: "carry on two sections, a certificate that is refused",
        words: &["carry", "road", "given", "cert"],
        files: &[("road", PAIR_ROAD), ("given", BLOCK_CERT), ("cert", OLD)],
        reads: 2,
        puts: 1,
        status: Status::CertRefused,
        output: b"certificate refused: C2 line 4\n",
        has_cert: false,
        has_notes: false,
    },
];

/// Files that aren't there.
static MISSING: [Due; 12] = [
    Due {
        name: "judge without a road",
        words: &["judge", "road", "plan"],
        files: &[("plan", PAIR_PLAN)],
        reads: 1,
        puts: 0,
        status: Status::Missing,
        output: b"",
        has_cert: false,
        has_notes: false,
    },
    Due {
        name: "judge without a plan",
        words: &["judge", "road", "plan"],
        files: &[("road", PAIR_ROAD)],
        reads: 2,
        puts: 0,
        status: Status::Missing,
        output: b"",
        has_cert: false,
        has_notes: false,
    },
    Due {
        name: "check without a road",
        words: &["check", "road", "cert"],
        files: &[("cert", PAIR_CERT)],
        reads: 1,
        puts: 0,
        status: Status::Missing,
        output: b"",
        has_cert: false,
        has_notes: false,
    },
    Due {
        name: "check without a certificate",
        words: &["check", "road", "cert"],
        files: &[("road", PAIR_ROAD)],
        reads: 2,
        puts: 0,
        status: Status::Missing,
        output: b"",
        has_cert: false,
        has_notes: false,
    },
    Due {
        name: "mass without a road",
        words: &["mass", "road", "cert"],
        files: &[("cert", PAIR_CERT)],
        reads: 1,
        puts: 0,
        status: Status::Missing,
        output: b"",
        has_cert: false,
        has_notes: false,
    },
    Due {
        name: "mass without a certificate",
        words: &["mass", "road", "cert"],
        files: &[("road", PAIR_ROAD)],
        reads: 2,
        puts: 0,
        status: Status::Missing,
        output: b"",
        has_cert: false,
        has_notes: false,
    },
    Due {
        name: "replay without a road",
        words: &["replay", "road", "cert"],
        files: &[("cert", PAIR_CERT)],
        reads: 1,
        puts: 0,
        status: Status::Missing,
        output: b"",
        has_cert: false,
        has_notes: false,
    },
    Due {
        name: "replay without a certificate",
        words: &["replay", "road", "cert"],
        files: &[("road", PAIR_ROAD)],
        reads: 2,
        puts: 0,
        status: Status::Missing,
        output: b"",
        has_cert: false,
        has_notes: false,
    },
    Due {
        name: "solve without a road",
        words: &["solve", "road", "cert"],
        files: &[("cert", OLD)],
        reads: 1,
        puts: 0,
        status: Status::Missing,
        output: b"",
        has_cert: false,
        has_notes: false,
    },
    Due {
        name: "solve without a table",
        words: &["solve", "road", "cert"],
        files: &[("road", TABLE_ROAD), ("cert", OLD)],
        reads: 2,
        puts: 0,
        status: Status::Missing,
        output: b"",
        has_cert: false,
        has_notes: false,
    },
    Due {
        name: "carry without a road",
        words: &["carry", "road", "given", "cert"],
        files: &[("given", PAIR_CERT), ("cert", OLD)],
        reads: 1,
        puts: 0,
        status: Status::Missing,
        output: b"",
        has_cert: false,
        has_notes: false,
    },
    Due {
        name: "carry without a certificate",
        words: &["carry", "road", "given", "cert"],
        files: &[("road", PAIR_ROAD), ("cert", OLD)],
        reads: 2,
        puts: 0,
        status: Status::Missing,
        output: b"",
        has_cert: false,
        has_notes: false,
    },
];

/// What is due where the output can't be put: an answer is lost, and a refusal stays one.
fn lost(due: &Due) -> Outcome {
    let status = match due.status {
        Status::Done | Status::Gap => Status::WriteFault,
        refused => refused,
    };
    Outcome {
        has_cert: due.has_cert,
        has_notes: due.has_notes,
        sink_faults: 1,
        cert_kept: !due.has_cert,
        ..untouched(status)
    }
}

/// Each read fails in turn: nothing is printed, and the files are as before.
#[test]
fn failing_reads(rt: HostRuntime) -> Result<(), Fail> {
    for due in READING
        .iter()
        .chain(&WRITING)
        .chain(&REFUSED)
        .chain(&MISSING)
    {
        for call in 1..=due.reads {
            let limits = Limits {
                store: &[u64::from(call)],
                ..NO_LIMITS
            };
            let end = ran(rt.alloc(), due.words, due.files, &limits)?;
            let wanted = Outcome {
                read_faults: 1,
                ..untouched(Status::ReadFault)
            };
            let name = due.name;
            assert_eq!(rt; end.outcome, wanted, "{name} at call {call}");
            assert!(rt; end.printed.is_empty(), "{name} at call {call}");
        }
    }
    Ok(())
}

/// The write fails: nothing is printed, and the files are as before.
#[test]
fn failing_writes(rt: HostRuntime) -> Result<(), Fail> {
    for due in &WRITING {
        let limits = Limits {
            store: &[u64::from(due.reads) + 1],
            ..NO_LIMITS
        };
        let end = ran(rt.alloc(), due.words, due.files, &limits)?;
        let wanted = Outcome {
            has_cert: true,
            has_notes: due.has_notes,
            write_faults: 1,
            ..untouched(Status::WriteFault)
        };
        let name = due.name;
        assert_eq!(rt; end.outcome, wanted, "{name}");
        assert!(rt; end.printed.is_empty(), "{name}");
    }
    Ok(())
}

/// The one put fails: an answer is lost, a refusal keeps its end, and what was written before stands.
#[test]
fn failing_puts(rt: HostRuntime) -> Result<(), Fail> {
    for due in READING.iter().chain(&WRITING).chain(&REFUSED) {
        let limits = Limits {
            sink: &[1],
            ..NO_LIMITS
        };
        let end = ran(rt.alloc(), due.words, due.files, &limits)?;
        let name = due.name;
        assert_eq!(rt; end.outcome, lost(due), "{name}");
        assert!(rt; end.printed.is_empty(), "{name}");
    }
    Ok(())
}

/// The sink is full behind ten bytes, which are the first of what is due.
#[test]
fn full_sinks(rt: HostRuntime) -> Result<(), Fail> {
    for due in READING.iter().chain(&WRITING).chain(&REFUSED) {
        let limits = Limits {
            room: 10,
            ..NO_LIMITS
        };
        let end = ran(rt.alloc(), due.words, due.files, &limits)?;
        let name = due.name;
        assert_eq!(rt; end.outcome, lost(due), "{name}");
        assert_eq!(rt; end.printed.len(), 10, "{name}");
        assert!(rt; due.output.starts_with(end.printed.as_slice()), "{name}");
    }
    Ok(())
}

/// So many calls are made and no more: where each further one would fail, the run ends as is due.
#[test]
fn no_further_calls(rt: HostRuntime) -> Result<(), Fail> {
    for due in READING
        .iter()
        .chain(&WRITING)
        .chain(&REFUSED)
        .chain(&MISSING)
    {
        let limits = Limits {
            store: &[u64::from(due.reads) + u64::from(due.has_cert) + 1],
            sink: &[u64::from(due.puts) + 1],
            ..NO_LIMITS
        };
        let end = ran(rt.alloc(), due.words, due.files, &limits)?;
        let wanted = Outcome {
            has_cert: due.has_cert,
            has_notes: due.has_notes,
            cert_kept: !due.has_cert,
            ..untouched(due.status)
        };
        let name = due.name;
        assert_eq!(rt; end.outcome, wanted, "{name}");
        assert_eq!(rt; end.printed.as_slice(), due.output, "{name}");
    }
    Ok(())
}
