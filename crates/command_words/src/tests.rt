use crate::{Make, SimWords, WordsFault, sim_words};
use std::alloc::Global;
use std::test::Fail;

const DEFAULTS: SimWords = SimWords {
    seed: 0,
    steps: 1_000_000,
    trace: false,
    json: false,
    make: None,
};

/// What these words give, which stand with a space between them.
fn read(alloc: Global, line: &str) -> Result<Result<SimWords, WordsFault>, Fail> {
    let mut words = Vec::new(alloc);
    for word in line.split(' ') {
        words.push(String::from_str(alloc, word)?)?;
    }
    Ok(sim_words(alloc, words.as_slice()))
}

#[test]
fn reads_no_words(rt: HostRuntime) -> Result<(), Fail> {
    let words: [String; 0] = [];
    assert_eq!(rt; sim_words(rt.alloc(), words.as_slice()), Ok(DEFAULTS));
    Ok(())
}

#[test]
fn reads_seeds(rt: HostRuntime) -> Result<(), Fail> {
    let table = [
        ("--seed 7", 7),
        ("--seed=7", 7),
        ("--seed 007", 7),
        ("--seed 18446744073709551615", u64::MAX),
        ("--seed=00000000000000000009 --", 9),
        ("--", 0),
    ];
    for (line, seed) in table {
        assert_eq!(rt;
            read(rt.alloc(), line)?,
            Ok(SimWords { seed, ..DEFAULTS }),
            "{line}"
        );
    }
    Ok(())
}

#[test]
fn reads_the_other_options(rt: HostRuntime) -> Result<(), Fail> {
    let table = [
        (
            "--steps 4000000 --trace",
            SimWords {
                steps: 4_000_000,
                trace: true,
                ..DEFAULTS
            },
        ),
        (
            "--json --steps=1 --seed 2",
            SimWords {
                seed: 2,
                steps: 1,
                json: true,
                ..DEFAULTS
            },
        ),
        (
            "--make 64",
            SimWords {
                make: Some(Make {
                    sessions: 64,
                    txs: 20,
                }),
                ..DEFAULTS
            },
        ),
        (
            "--txs=100 --make=1 --",
            SimWords {
                make: Some(Make {
                    sessions: 1,
                    txs: 100,
                }),
                ..DEFAULTS
            },
        ),
    ];
    for (line, asked) in table {
        assert_eq!(rt; read(rt.alloc(), line)?, Ok(asked), "{line}");
    }
    Ok(())
}

#[test]
fn refuses_values(rt: HostRuntime) -> Result<(), Fail> {
    let table = [
        "--seed 000000000000000000007",
        "--seed 18446744073709551616",
        "--seed +7",
        "--seed -7",
        "--seed",
        "--seed=",
        "--seed ",
        "--seed --trace",
        "--seed --",
        "--seed 7 8",
        "--steps 0",
        "--steps 4000001",
        "--make 0",
        "--make 65",
        "--make 1 --txs 0",
        "--make 1 --txs 101",
        "--trace=1",
        "--json=",
    ];
    for line in table {
        assert_eq!(rt; read(rt.alloc(), line)?, Err(WordsFault::Usage), "{line}");
    }
    Ok(())
}

#[test]
fn refuses_lines(rt: HostRuntime) -> Result<(), Fail> {
    let table = [
        "",
        "7",
        "-",
        "-h",
        "--help",
        "-V",
        "--version",
        "--se 7",
        "-- --trace",
        "-- --",
        "--seed 7 --seed 7",
        "--seed=7 --seed=8",
        "--trace --trace",
        "--txs 5",
        "--trace --make 2",
        "--json --trace",
        "--make 2 --json",
    ];
    for line in table {
        assert_eq!(rt; read(rt.alloc(), line)?, Err(WordsFault::Usage), "{line}");
    }
    Ok(())
}
