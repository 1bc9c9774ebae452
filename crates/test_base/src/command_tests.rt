//! What no clause says of the command line: that its words are accepted and refused as the tables here say, each case
//! by hand.
use command_words::{Command, Options, command_of, number};
use std::alloc::{AllocError, AllocGlobal, Global};
use std::process::Abort;
use std::test::Fail;

/// Words that are not accepted.
const REFUSED: [&str; 53] = [
    "",
    "--",
    "help",
    "--help",
    "plya",
    "Play",
    "play play",
    "play --",
    "play -t 2",
    "play --thread 2",
    "play --threads",
    "play --threads=",
    "play --threads 0",
    "play --threads 17",
    "play --threads 04",
    "play --threads +4",
    "play --threads 4x",
    "play --threads 4294967297",
    "play --threads == 4",
    "play --threads 2 --threads 2",
    "play --threads=2 --threads 3",
    "play --log --log",
    "play --log=1",
    "play --touched --touched",
    "play --touched=1",
    "load --seed 1 --threads 1 --calls 1 --touched",
    "check --touched",
    "play --opening --log --opening",
    "play --seed 1",
    "load",
    "load --seed 1",
    "load --seed 1 --threads 1",
    "load --seed 1 --threads 1 --calls 1 --calls 1",
    "play --changes --changes",
    "play --differ --log --differ",
    "play --differ=1",
    "load --seed 1 --threads 1 --calls 1 --log",
    "load --seed 1 --threads 1 --calls 1 --changes",
    "load --seed 1 --threads 1 --calls 1 --differ",
    "load --seed 2147483648 --threads 1 --calls 1",
    "load --seed 1 --threads 1 --calls 1048577",
    "load --seed 1 --threads 0 --calls 1",
    "load --seed -1 --threads 1 --calls 1",
    "check play",
    "check --log",
    "check --changes",
    "check --differ",
    "check --threads 1",
    "check --seed 1",
    "check --calls=1",
    "check --opening --opening",
    "check --opening=1",
    "Check",
];

/// Words that are accepted, their options in any order, and what they ask for.
const ACCEPTED: [(&str, Command); 13] = [
    (
        "play",
        Command::Play {
            options: Options {
                opening: false,
                log: false,
                touched: false,
                changes: false,
                differ: false,
            },
            threads: 1,
        },
    ),
    (
        "play --log",
        Command::Play {
            options: Options {
                opening: false,
                log: true,
                touched: false,
                changes: false,
                differ: false,
            },
            threads: 1,
        },
    ),
    (
        "play --threads=4",
        Command::Play {
            options: Options {
                opening: false,
                log: false,
                touched: false,
                changes: false,
                differ: false,
            },
            threads: 4,
        },
    ),
    (
        "play --log --threads 16 --opening",
        Command::Play {
            options: Options {
                opening: true,
                log: true,
                touched: false,
                changes: false,
                differ: false,
            },
            threads: 16,
        },
    ),
    (
        "play --opening --threads=1 --log",
        Command::Play {
            options: Options {
                opening: true,
                log: true,
                touched: false,
                changes: false,
                differ: false,
            },
            threads: 1,
        },
    ),
    (
        "play --touched --threads 2 --log",
        Command::Play {
            options: Options {
                opening: false,
                log: true,
                touched: true,
                changes: false,
                differ: false,
            },
            threads: 2,
        },
    ),
    (
        "play --changes",
        Command::Play {
            options: Options {
                opening: false,
                log: false,
                touched: false,
                changes: true,
                differ: false,
            },
            threads: 1,
        },
    ),
    (
        "play --differ --opening --changes --threads 3",
        Command::Play {
            options: Options {
                opening: true,
                log: false,
                touched: false,
                changes: true,
                differ: true,
            },
            threads: 3,
        },
    ),
    (
        "load --seed 1 --threads 4 --calls 20000",
        Command::Load {
            seed: 1,
            threads: 4,
            calls: 20_000,
        },
    ),
    (
        "load --calls=0 --threads=16 --seed=0",
        Command::Load {
            seed: 0,
            threads: 16,
            calls: 0,
        },
    ),
    (
        "load --threads 1 --calls=1048576 --seed 2147483647",
        Command::Load {
            seed: 2_147_483_647,
            threads: 1,
            calls: 1_048_576,
        },
    ),
    ("check", Command::Check { opening: false }),
    ("check --opening", Command::Check { opening: true }),
];

/// What the words of this text ask for, which spaces are between.
fn asked(alloc: Global, text: &str) -> Result<Option<Command>, AllocError> {
    let mut words = Vec::new(alloc);
    for word in text.split_whitespace() {
        words.push(String::from_str(alloc, word)?)?;
    }
    Ok(command_of(&words))
}

/// Fails the test unless these words ask for this.
fn ask(rt: &(impl Abort + AllocGlobal), text: &str, wanted: Option<Command>) -> Result<(), Fail> {
    let found = asked(rt.alloc(), text)?;
    assert_eq!(rt; found, wanted, "{text}");
    Ok(())
}

#[test]
fn words_ask_for_a_command_with_its_options_in_any_order(rt: HostRuntime) -> Result<(), Fail> {
    for (text, command) in ACCEPTED {
        ask(&rt, text, Some(command))?;
    }
    Ok(())
}

#[test]
fn other_words_are_not_accepted(rt: HostRuntime) -> Result<(), Fail> {
    for text in REFUSED {
        ask(&rt, text, None)?;
    }
    Ok(())
}

#[test]
fn a_number_of_400_digits_is_not_accepted(rt: HostRuntime) -> Result<(), Fail> {
    let alloc = rt.alloc();
    let mut text = String::from_str(alloc, "play --threads ")?;
    for _ in 0..400 {
        text.push('1')?;
    }
    ask(&rt, text.as_str(), None)
}

/// Texts, and the number that each is, if it is one.
const NUMBERS: [(&str, Option<u32>); 9] = [
    ("0", Some(0)),
    ("907", Some(907)),
    ("4294967295", Some(4_294_967_295)),
    ("4294967296", None),
    ("", None),
    ("07", None),
    ("+7", None),
    ("-7", None),
    ("7 ", None),
];

#[test]
fn a_number_has_no_sign_and_no_zeros_before_it(rt: HostRuntime) {
    for (text, wanted) in NUMBERS {
        assert_eq!(rt; number(text), wanted, "{text}");
    }
}
