//! What the words of the command line ask for: a log to be rewritten, of one process or of the program, with every line
//! read or not; or help. `AskFor` in `specs/Words.antt` says it by what is written. Reading the words takes no memory.

ghost use Rattle.std.specs.Prelude.{◌≡◌, ℕ, ◌<◌, ◌≤◌, ◌^◌, List, map, drop, length, Bool, Option, Some, IfSome, IsNone, decimal};
ghost use Rattle.std.specs.Bool.{Decides};
ghost use Rattle.std.specs.String.{string_bytes};
ghost use Rattle.strace_lines.specs.declared.words.Asked.{Asked};
ghost use Rattle.strace_lines.specs.declared.words.Given.{Given};
ghost use Rattle.strace_lines.specs.Words.{AskForHelp, AskFor, AskForOne, AskToRewrite, RefusesWords};
ghost use Rattle.strace_lines.specs.Words.{BeginsWithOption, Adds, IsAsked};

use command_words::number;

/// What the words ask for.
#[derive(Clone, Copy, Debug, PartialEq, Eq)]
pub enum Asked {
    /// Help.
    Help,
    /// A log to be rewritten.
    Rewrite {
        /// The process whose lines are written; the program's where none is named.
        process: Option<u32>,
        /// Every line of a call has to be read.
        strict: bool,
    },
}

/// An option, as it is given by one word or two.
#[derive(Clone, Copy, Debug, PartialEq, Eq)]
pub enum Given {
    /// `--strict`.
    Strict,
    /// `--process N`.
    Process(u32),
}

/// The option that words begin with, and how many words it takes.
#[derive(Clone, Copy, Debug, PartialEq, Eq)]
struct Head {
    given: Given,
    words: usize,
}

/// Whether help is asked for.
fn asks_for_help(words: &[String]) -> bool
    ensures { Decides result (AskForHelp (map string_bytes words.now)) }
{
    'words: for word in words {
        if word.as_str() == "--help" {
            return true;
        }
        if word.as_str() == "-h" {
            return true;
        }
    }
    false
}

/// The option that the words begin with.
fn head_of(words: &[String]) -> Option<Head>
    ensures some { IfSome result (λ head. 0 < head.words) }
    ensures within { IfSome result (λ head. head.words ≤ length words.now) }
    ensures begins { IfSome result (λ head.
        BeginsWithOption head.given (drop head.words (map string_bytes words.now)) (map string_bytes words.now)) }
    ensures none { IsNone result → (given : Given) (rest : List (List ℕ)) → ¬ BeginsWithOption given rest (map string_bytes words.now) }
{
    let (first, rest) = words.split_first()?;
    let word = first.as_str();
    if word == "--strict" {
        return Some(Head {
            given: Given::Strict,
            words: 1,
        });
    }
    if let Some(value) = word.strip_prefix("--process=") {
        let process = number(value)?;
        return Some(Head {
            given: Given::Process(process),
            words: 1,
        });
    }
    if word != "--process" {
        return None;
    }
    let value = rest.first()?;
    let process = number(value.as_str())?;
    Some(Head {
        given: Given::Process(process),
        words: 2,
    })
}

/// What options ask for, each at most once.
#[derive(Clone, Copy)]
struct Options {
    process: Option<u32>,
    strict: bool,
}

impl Options {
    /// These and one option more, which was not given yet.
    fn with(self, given: Given) -> Option<Options>
        ensures added { IfSome result (Adds self given) }
        ensures again { IsNone result → IsAsked self given }
    {
        match given {
            Given::Strict if !self.strict => Some(Options {
                process: self.process,
                strict: true,
            }),
            Given::Process(number) if self.process.is_none() => Some(Options {
                process: Some(number),
                strict: self.strict,
            }),
            _ => None,
        }
    }
}

/// What words ask for that are all options.
fn options_of(words: &[String]) -> Option<Options>
    ensures asked { IfSome result (λ asked. AskToRewrite (map string_bytes words.now) asked.process asked.strict) }
    ensures only { (process : Option ℕ) (strict : Bool) → AskToRewrite (map string_bytes words.now) process strict
        → result ≡ Some (record { process = process; strict = strict }) }
{
    let mut options = Options {
        process: None,
        strict: false,
    };
    let mut rest = words;
    'options: while !rest.is_empty() {
        let head = head_of(rest)?;
        options = options.with(head.given)?;
        rest = &rest[head.words..];
    }
    Some(options)
}

/// What the words ask for, or `None` where they are not accepted.
pub fn asked_of(words: &[String]) -> Option<Asked>
    ensures spelled { IfSome result (AskFor (map string_bytes words.now)) }
    ensures only { (asked : Asked) → AskFor (map string_bytes words.now) asked → result ≡ Some asked }
    ensures refused { IsNone result → RefusesWords (map string_bytes words.now) }
    ensures one { AskForOne (map string_bytes words.now) }
{
    if asks_for_help(words) {
        return Some(Asked::Help);
    }
    let options = options_of(words)?;
    Some(Asked::Rewrite {
        process: options.process,
        strict: options.strict,
    })
}
