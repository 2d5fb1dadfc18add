// Lists of words: those that are refused, and those that ask for a command, from the table of commands and options.
use command_words::{Audit, Command, Placement, Policy, Rule, Tickets, WordsError, read_words};
use std::alloc::{AllocError, Global};

// Lists that aren't word lists: one a line, with a space between the words.
const REFUSED: &str = "help
serve
serve P Q
serve P --fuel 05
serve P --fuel=5
serve P --chunk 72
serve P --fuel 1 --fuel 1
serve P --max-path 4081
serve P --caps 2=1,1=1
demo 0
demo 1001
demo 1 --fuel 1
Serve P
P serve
--fuel 1 serve P
serve P --fuel
serve --fuel --chunk 64 P
serve P --
serve P -h
serve P --help
serve -P
serve P  --fuel 1
serve P --chunk 48
serve P --max-path 15
serve P --chunks 0
serve P --fuel 1000000001
serve P --backlog 4097
serve P --high 500
serve P --low 900
serve P --caps 8=1
serve P --caps 1=1,
serve P --rule other
serve P --tickets 1=2
serve P --rule graph --tickets 1=2
serve P --rule stride --tickets 1=0
serve P --rule stride --tickets 1=1025
serve P --rule stride --tickets 1000001=1
serve P --rule stride --tickets 2=1,1=1
serve P --rule stride --tickets 1=1,1=1
serve P --rule stride --tickets 1=1,
serve P --rule stride --tickets 1
serve P --rule stride --tickets 1=2=3
serve P --rule stride --tickets 01=2
serve P --knee 1000
build P I C --knee 1
serve P --steps 1
run P I C --steps 1
audit P
audit P L M
audit P L --steps 1000000001
audit P L --rule graph
audit P L --tickets 1=1
audit P L --extra-size 64
audit P L --chunk 64
audit P L --high 500
serve P --chunk 65536 --chunks 1025
serve P --extra 65537
serve P --extra-size 16
serve P --extra-size 40
serve P --extra-size 65552
serve P --extra 1 --extra 2
serve P --chunk 65536 --chunks 1024 --extra 1
serve P --extra 61441 --extra-size 1024
build P I C --extra 1
check P I C --extra-size 64
graph P --extra 0
demo 1 --extra 1
run P I C --chunk 64
build P I
check P I C D";

const PLACEMENT: Placement = Placement {
    chunk: 4096,
    max_path: 2032,
};

const POLICY: Policy = Policy {
    chunks: 1024,
    extra: 0,
    extra_bytes: 64,
    fuel: 10_000_000,
    backlog: 64,
    caps: [0; 8],
    high: 900,
    low: 700,
    rule: Rule::Graph,
    knee: 0,
};

// Returns the words of a line.
fn words_of(alloc: Global, line: &str) -> Result<Vec<String>, AllocError> {
    let mut words = Vec::new(alloc);
    for word in line.split(' ') {
        words.push(String::from_str(alloc, word)?)?;
    }
    Ok(words)
}

// Checks whether the words of a line are refused.
fn is_refused(alloc: Global, line: &str) -> bool {
    let Ok(words) = words_of(alloc, line) else {
        return false;
    };
    let refused = matches!(read_words(alloc, &words), Err(WordsError::NotWords));
    drop(words);
    refused
}

#[test]
fn other_words_are_refused(rt: HostRuntime) {
    let alloc = rt.alloc();
    let none = Vec::new(alloc);
    let mut right = matches!(read_words(alloc, &none), Err(WordsError::NotWords));
    drop(none);
    for line in REFUSED.split('\n') {
        right = right && is_refused(alloc, line);
    }
    assert!(rt; right);
}

// Returns the name of a command.
fn name_of(command: &Command<'_>) -> &'static str {
    match command {
        Command::Serve { .. } => "serve",
        Command::Run { .. } => "run",
        Command::Build { .. } => "build",
        Command::Check { .. } => "check",
        Command::Graph { .. } => "graph",
        Command::Demo { .. } => "demo",
        Command::Audit { .. } => "audit",
        Command::Budget { .. } => "budget",
    }
}

// Returns the names of a command's files, with empty names up to three.
fn files_of<'a>(command: &Command<'a>) -> [&'a str; 3] {
    match *command {
        Command::Serve { source, .. } | Command::Graph { source, .. } => [source, "", ""],
        Command::Run {
            source,
            image,
            certificate,
            ..
        }
        | Command::Build {
            source,
            image,
            certificate,
            ..
        }
        | Command::Check {
            source,
            image,
            certificate,
        }
        | Command::Budget {
            source,
            image,
            certificate,
        } => [source, image, certificate],
        Command::Audit { source, log, .. } => [source, log, ""],
        Command::Demo { .. } => ["", "", ""],
    }
}

// Returns the placement of a command, or the default one if it has none.
fn placement_of(command: &Command<'_>) -> Placement {
    match *command {
        Command::Serve { placement, .. }
        | Command::Build { placement, .. }
        | Command::Graph { placement, .. } => placement,
        _ => PLACEMENT,
    }
}

// Returns the policy of a command, or the default one if it has none.
fn policy_of(command: &Command<'_>) -> Policy {
    match *command {
        Command::Serve { policy, .. } | Command::Run { policy, .. } => policy,
        Command::Audit { options, .. } => options.policy,
        _ => POLICY,
    }
}

// Returns the number of a workload or of an audit's steps, or 0 if a command has none.
fn number_of(command: &Command<'_>) -> u64 {
    match *command {
        Command::Demo { number } => u64::from(number),
        Command::Audit { options, .. } => options.steps,
        _ => 0,
    }
}

// Checks whether two rules of choice are the same.
fn is_same_rule(a: &Rule, b: &Rule) -> bool {
    match (a, b) {
        (Rule::Graph, Rule::Graph) => true,
        (Rule::Stride { tickets }, Rule::Stride { tickets: others }) => {
            tickets.count == others.count && tickets.pairs == others.pairs
        }
        _ => false,
    }
}

// Checks whether two policies are the same.
fn is_same_policy(a: &Policy, b: &Policy) -> bool {
    a.chunks == b.chunks
        && a.extra == b.extra
        && a.extra_bytes == b.extra_bytes
        && a.fuel == b.fuel
        && a.backlog == b.backlog
        && a.caps == b.caps
        && a.high == b.high
        && a.low == b.low
        && is_same_rule(&a.rule, &b.rule)
        && a.knee == b.knee
}

// Checks whether two commands are the same, with the names of their files and their options.
fn is_same(a: &Command<'_>, b: &Command<'_>) -> bool {
    let (here, there) = (placement_of(a), placement_of(b));
    name_of(a) == name_of(b)
        && files_of(a) == files_of(b)
        && number_of(a) == number_of(b)
        && here.chunk == there.chunk
        && here.max_path == there.max_path
        && is_same_policy(&policy_of(a), &policy_of(b))
}

// Checks whether the words of a line ask for this command.
fn asks(alloc: Global, line: &str, want: &Command<'_>) -> bool {
    let Ok(words) = words_of(alloc, line) else {
        return false;
    };
    let asked = match read_words(alloc, &words) {
        Ok(command) => is_same(&command, want),
        Err(_) => false,
    };
    drop(words);
    asked
}

const SERVE: Command<'static> = Command::Serve {
    source: "P",
    placement: PLACEMENT,
    policy: POLICY,
};

const SERVE_SMALL: Command<'static> = Command::Serve {
    source: "P",
    placement: Placement {
        chunk: 64,
        max_path: 48,
    },
    policy: Policy {
        chunks: 128,
        ..POLICY
    },
};

const RUN: Command<'static> = Command::Run {
    source: "P",
    image: "I",
    certificate: "C",
    policy: Policy {
        chunks: 65_536,
        extra: 65_536,
        extra_bytes: 32,
        fuel: 0,
        backlog: 1,
        caps: [0, 3, 0, 0, 0, 0, 0, 1_000_000],
        high: 1,
        low: 0,
        rule: Rule::Graph,
        knee: 0,
    },
};

const BUILD: Command<'static> = Command::Build {
    source: "P",
    image: "I",
    certificate: "C",
    placement: Placement {
        chunk: 96,
        max_path: 32,
    },
};

const CHECK: Command<'static> = Command::Check {
    source: "P",
    image: "I",
    certificate: "C",
};

const GRAPH: Command<'static> = Command::Graph {
    source: "P",
    placement: Placement {
        chunk: 4096,
        max_path: 4080,
    },
};

const DEMO: Command<'static> = Command::Demo { number: 1000 };

const AUDIT: Command<'static> = Command::Audit {
    source: "P",
    log: "L",
    options: AUDIT_OPTIONS,
};

const AUDIT_OPTIONS: Audit = Audit {
    policy: POLICY,
    steps: 1_000_000_000,
};

const AUDIT_OF_FEW_STEPS: Command<'static> = Command::Audit {
    source: "P",
    log: "L",
    options: Audit {
        policy: Policy {
            extra: 65_536,
            fuel: 0,
            caps: [0, 1, 0, 0, 0, 0, 0, 0],
            knee: 999,
            ..POLICY
        },
        steps: 0,
    },
};

// Returns the policy of `--rule stride --knee 500 --tickets 0=3,7=1024`.
fn stride_policy() -> Policy {
    let mut pairs = [(0, 0); 64];
    pairs[0] = (0, 3);
    pairs[1] = (7, 1024);
    Policy {
        rule: Rule::Stride {
            tickets: Tickets { pairs, count: 2 },
        },
        knee: 500,
        ..POLICY
    }
}

// Returns the policy of `--rule stride`, with one ticket for each of the first `threads` threads.
fn one_ticket_each(threads: usize) -> Policy {
    let mut pairs = [(0, 0); 64];
    for thread in 0..threads.min(64) {
        pairs[thread] = (thread as u32, 1);
    }
    Policy {
        rule: Rule::Stride {
            tickets: Tickets {
                pairs,
                count: threads.min(64) as u32,
            },
        },
        ..POLICY
    }
}

// Returns the command `serve P` under a policy.
fn serve_under(policy: Policy) -> Command<'static> {
    Command::Serve {
        source: "P",
        placement: PLACEMENT,
        policy,
    }
}

// Returns the line `serve P --rule stride --tickets 0=1,1=1,..`, with a ticket for each of the first `threads` threads.
fn line_of(alloc: Global, threads: u32) -> Result<String, AllocError> {
    let mut line = String::from_str(alloc, "serve P --rule stride --tickets 0=1")?;
    for thread in 1..threads {
        line.push_str(&format!(in alloc; ",{thread}=1")?)?;
    }
    Ok(line)
}

#[test]
fn tickets_are_given_to_64_threads_at_most(rt: HostRuntime) {
    let alloc = rt.alloc();
    let right = match (line_of(alloc, 64), line_of(alloc, 65)) {
        (Ok(most), Ok(more)) => {
            asks(alloc, &most, &serve_under(one_ticket_each(64))) & is_refused(alloc, &more)
        }
        _ => false,
    };
    assert!(rt; right);
}

#[test]
fn the_rule_of_choices_and_the_knee_are_read(rt: HostRuntime) {
    let alloc = rt.alloc();
    let right = asks(
        alloc,
        "serve P --rule stride --knee 500 --tickets 0=3,7=1024",
        &serve_under(stride_policy()),
    ) & asks(
        alloc,
        "serve --rule stride P",
        &serve_under(one_ticket_each(0)),
    ) & asks(alloc, "serve P --rule graph --knee 0", &SERVE);
    assert!(rt; right);
}

// Returns a policy with this number of chunks of a second size.
fn with_extra(extra: u32, extra_bytes: u32) -> Policy {
    Policy {
        extra,
        extra_bytes,
        ..POLICY
    }
}

// With 1,024 chunks of 4,096 bytes, 61,440 of 1,024 are the maximum of a pool; `run` learns the first size only from
// its certificate, so its words may ask for more.
#[test]
fn chunks_of_a_second_size_are_read(rt: HostRuntime) {
    let alloc = rt.alloc();
    let run = Command::Run {
        source: "P",
        image: "I",
        certificate: "C",
        policy: with_extra(61_441, 1024),
    };
    let right = asks(
        alloc,
        "serve --extra-size 1024 P --extra 61440",
        &serve_under(with_extra(61_440, 1024)),
    ) & asks(
        alloc,
        "serve P --extra-size 32",
        &serve_under(with_extra(0, 32)),
    ) & asks(alloc, "run P I C --extra 61441 --extra-size 1024", &run);
    assert!(rt; right);
}

#[test]
fn word_lists_ask_for_a_command(rt: HostRuntime) {
    let alloc = rt.alloc();
    let right = asks(alloc, "serve P", &SERVE)
        & asks(
            alloc,
            "serve --chunk 64 P --max-path 48 --chunks 128",
            &SERVE_SMALL,
        )
        & asks(
            alloc,
            "run --caps 1=3,7=1000000 P --fuel 0 I --backlog 1 C --high 1 --low 0 --chunks 65536 --extra 65536 --extra-size 32",
            &RUN,
        )
        & asks(alloc, "build P I C --chunk 96", &BUILD)
        & asks(alloc, "check P I C", &CHECK)
        & asks(alloc, "graph --max-path 4080 P", &GRAPH)
        & asks(alloc, "demo 1000", &DEMO)
        & asks(alloc, "audit P L", &AUDIT)
        & asks(
            alloc,
            "audit --steps 0 P --extra 65536 --knee 999 L --caps 1=1 --fuel 0",
            &AUDIT_OF_FEW_STEPS,
        );
    assert!(rt; right);
}
