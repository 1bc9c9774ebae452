//! What the words of the command line ask for: `play`, `load` or `check`, each with its options in any order, none of
//! them twice. `AskFor` says it by what is written, and the words are this project's own profile. A reader may rely on
//! an answer exactly where some spelling fits, and on there being no more than one. Reading the words takes no memory.
ghost use Rattle.std.specs.Prelude.{◌≡◌, ℕ, ◌+◌, ◌-◌, ◌<◌, ◌≤◌, ◌^◌, ◌↔◌, map, drop, codes, List, [], length, Some, None, false, IsTrue, IfSome, IsNone};
ghost use Rattle.std.specs.Fmt.{decimal};
ghost use Rattle.std.specs.String.{string_bytes};
ghost use Rattle.command_words.specs.Commands.{AskFor, RefusesWords, AskForOne, HasRanges, IsCommand, DoAsk};
ghost use Rattle.command_words.specs.Commands.{BeginsWithOption, IsFlag, IsNamed, IsNumbered, HasNumberInRange, Adds, IsAsked};
ghost use Rattle.command_words.specs.declared.commands.Asked.{Asked};
ghost use Rattle.command_words.specs.declared.commands.Command.{Command};
ghost use Rattle.command_words.specs.declared.commands.Given.{Given};

/// What `play` does besides playing the lines.
#[derive(Clone, Copy, Debug, PartialEq, Eq)]
pub struct Options {
    /// The input begins with maps lines, up to the first empty line.
    pub opening: bool,
    /// The log is written before the maps.
    pub log: bool,
    /// How many pages were touched is written behind the summary.
    pub touched: bool,
    /// The changes that each call made are written before the maps.
    pub changes: bool,
    /// The lines of the log whose reply isn't the recorded one are written before the maps, and no others of it.
    pub differ: bool,
}

/// What the words of the command line ask for.
#[derive(Clone, Copy, Debug, PartialEq, Eq)]
pub enum Command {
    /// Plays the input.
    Play {
        /// What the input begins with, and what is written.
        options: Options,
        /// On how many threads: 1 to 16.
        threads: u32,
    },
    /// Plays made calls.
    Load {
        /// What they are made from: at most 2,147,483,647.
        seed: u32,
        /// On how many threads: 1 to 16.
        threads: u32,
        /// How many: at most 1,048,576.
        calls: u32,
    },
    /// Says whether the input is the log of a legal history.
    Check {
        /// The input begins with maps lines, up to the first empty line.
        opening: bool,
    },
}

/// An option, as it is given by one word or two.
#[derive(Clone, Copy, Debug, PartialEq, Eq)]
pub enum Given {
    /// `--opening`.
    Opening,
    /// `--log`.
    Log,
    /// `--touched`.
    Touched,
    /// `--changes`.
    Changes,
    /// `--differ`.
    Differ,
    /// `--threads N`.
    Threads(u32),
    /// `--seed N`.
    Seed(u32),
    /// `--calls N`.
    Calls(u32),
}

/// What options ask for, each at most once.
#[derive(Clone, Copy, Debug, PartialEq, Eq)]
pub struct Asked {
    /// `--opening` is among them.
    pub opening: bool,
    /// `--log` is among them.
    pub log: bool,
    /// `--touched` is among them.
    pub touched: bool,
    /// `--changes` is among them.
    pub changes: bool,
    /// `--differ` is among them.
    pub differ: bool,
    /// The number of `--threads`.
    pub threads: Option<u32>,
    /// The number of `--seed`.
    pub seed: Option<u32>,
    /// The number of `--calls`.
    pub calls: Option<u32>,
}

/// The option that words begin with.
#[derive(Clone, Copy, Debug, PartialEq, Eq)]
struct Head {
    given: Given,
    /// How many words it takes.
    words: usize,
}

/// What the words ask for, or `None` where they are not accepted.
pub fn command_of(words: &[String]) -> Option<Command>
    ensures spelled { IfSome result (AskFor (map string_bytes words.now)) }
    ensures only { (command : Command) → AskFor (map string_bytes words.now) command → result ≡ Some command }
    ensures in_range { IfSome result HasRanges }
    ensures refused { IsNone result → RefusesWords (map string_bytes words.now) }
    ensures one { AskForOne (map string_bytes words.now) }
{
    let (name, rest) = words.split_first()?;
    let asked = asked_of(rest)?;
    command_named(name.as_str(), asked)
}

/// What the first word makes of the options behind it.
fn command_named(name: &str, asked: Asked) -> Option<Command>
    ensures is { IfSome result (IsCommand name.now asked) }
    ensures only { (command : Command) → IsCommand name.now asked command → result ≡ Some command }
{
    if name == "play" {
        play(asked)
    } else if name == "load" {
        load(asked)
    } else if name == "check" {
        check(asked)
    } else {
        None
    }
}

/// What `play` makes of the options behind it.
fn play(asked: Asked) -> Option<Command>
    ensures is { IfSome result (IsCommand (codes "play") asked) }
    ensures only { (command : Command) → IsCommand (codes "play") asked command → result ≡ Some command }
{
    if asked.seed.is_some() {
        return None;
    }
    if asked.calls.is_some() {
        return None;
    }
    Some(Command::Play {
        options: Options {
            opening: asked.opening,
            log: asked.log,
            touched: asked.touched,
            changes: asked.changes,
            differ: asked.differ,
        },
        threads: asked.threads.unwrap_or(1),
    })
}

/// What `load` makes of the options behind it.
fn load(asked: Asked) -> Option<Command>
    ensures is { IfSome result (IsCommand (codes "load") asked) }
    ensures only { (command : Command) → IsCommand (codes "load") asked command → result ≡ Some command }
{
    if asked.opening {
        return None;
    }
    if asked.log {
        return None;
    }
    if asked.touched {
        return None;
    }
    if asked.changes {
        return None;
    }
    if asked.differ {
        return None;
    }
    let seed = asked.seed?;
    let threads = asked.threads?;
    let calls = asked.calls?;
    Some(Command::Load {
        seed,
        threads,
        calls,
    })
}

/// What `check` makes of the options behind it.
fn check(asked: Asked) -> Option<Command>
    ensures is { IfSome result (IsCommand (codes "check") asked) }
    ensures only { (command : Command) → IsCommand (codes "check") asked command → result ≡ Some command }
{
    if asked.log {
        return None;
    }
    if asked.touched {
        return None;
    }
    if asked.changes {
        return None;
    }
    if asked.differ {
        return None;
    }
    if asked.threads.is_some() {
        return None;
    }
    if asked.seed.is_some() {
        return None;
    }
    if asked.calls.is_some() {
        return None;
    }
    let opening = asked.opening;
    Some(Command::Check { opening })
}

/// What the words ask for, which are all options.
fn asked_of(words: &[String]) -> Option<Asked>
    ensures asked { IfSome result (DoAsk (map string_bytes words.now)) }
    ensures only { (asked : Asked) → DoAsk (map string_bytes words.now) asked → result ≡ Some asked }
{
    let mut asked = Asked {
        opening: false,
        log: false,
        touched: false,
        changes: false,
        differ: false,
        threads: None,
        seed: None,
        calls: None,
    };
    let mut rest = words;
    while !rest.is_empty() {
        let head = head_of(rest)?;
        asked = asked.with(head.given)?;
        rest = &rest[head.words..];
    }
    Some(asked)
}

impl Asked {
    /// This and one option more, which was not asked for yet.
    fn with(self, given: Given) -> Option<Asked>
        ensures added { IfSome result (Adds self given) }
        ensures again { IsNone result → IsAsked self given }
    {
        let mut asked = self;
        match given {
            Given::Opening if !self.opening => asked.opening = true,
            Given::Log if !self.log => asked.log = true,
            Given::Touched if !self.touched => asked.touched = true,
            Given::Changes if !self.changes => asked.changes = true,
            Given::Differ if !self.differ => asked.differ = true,
            Given::Threads(number) if self.threads.is_none() => asked.threads = Some(number),
            Given::Seed(number) if self.seed.is_none() => asked.seed = Some(number),
            Given::Calls(number) if self.calls.is_none() => asked.calls = Some(number),
            _ => return None,
        }
        Some(asked)
    }
}

/// The option that the words begin with.
fn head_of(words: &[String]) -> Option<Head>
    ensures some { IfSome result (λ head. 0 < head.words) }
    ensures within { IfSome result (λ head. head.words ≤ length words.now) }
    ensures begins { IfSome result (λ head.
        BeginsWithOption head.given (drop head.words (map string_bytes words.now)) (map string_bytes words.now)) }
    ensures none { IsNone result
        → (given : Given) (rest : List (List ℕ)) → ¬ BeginsWithOption given rest (map string_bytes words.now) }
{
    let (first, rest) = words.split_first()?;
    let word = first.as_str();
    if let Some((name, value)) = word.split_once('=') {
        let given = numbered(name, value)?;
        return Some(Head { given, words: 1 });
    }
    if let Some(given) = flag(word) {
        return Some(Head { given, words: 1 });
    }
    let value = rest.first()?;
    let given = numbered(word, value.as_str())?;
    Some(Head { given, words: 2 })
}

/// The option with this name that takes no number.
fn flag(name: &str) -> Option<Given>
    ensures is { IfSome result (IsFlag name.now) }
    ensures none { IsNone result → (given : Given) → ¬ IsFlag name.now given }
{
    if name == "--opening" {
        Some(Given::Opening)
    } else if name == "--log" {
        Some(Given::Log)
    } else if name == "--touched" {
        Some(Given::Touched)
    } else if name == "--changes" {
        Some(Given::Changes)
    } else if name == "--differ" {
        Some(Given::Differ)
    } else {
        None
    }
}

/// The option with this name, and with the number of this text.
fn numbered(name: &str, value: &str) -> Option<Given>
    ensures is { IfSome result (IsNumbered name.now value.now) }
    ensures none { IsNone result → (given : Given) → ¬ IsNumbered name.now value.now given }
{
    let number = number(value)?;
    let given = named(name, number)?;
    if is_in_range(given) {
        Some(given)
    } else {
        None
    }
}

/// The option with this name that takes this number.
fn named(name: &str, number: u32) -> Option<Given>
    ensures is { IfSome result (IsNamed name.now number) }
    ensures none { IsNone result → (given : Given) → ¬ IsNamed name.now number given }
{
    if name == "--threads" {
        Some(Given::Threads(number))
    } else if name == "--seed" {
        Some(Given::Seed(number))
    } else if name == "--calls" {
        Some(Given::Calls(number))
    } else {
        None
    }
}

/// Whether an option may be given its number.
fn is_in_range(given: Given) -> bool
    ensures { IsTrue result ↔ HasNumberInRange given }
{
    match given {
        Given::Opening | Given::Log | Given::Touched | Given::Changes | Given::Differ => true,
        Given::Threads(number) => 1 <= number && number <= 16,
        Given::Seed(number) => number <= 2_147_483_647,
        Given::Calls(number) => number <= 1_048_576,
    }
}

/// The number that is printed as this text: of 32 bits, in decimal digits, without a sign or zeros before it.
pub fn number(text: &str) -> Option<u32>
    ensures is { IfSome result (λ n. text.now ≡ decimal n) }
    ensures none { IsNone result → (n : ℕ) → n < 2 ^ 32 → ¬ (text.now ≡ decimal n) }
{
    let Ok(number) = text.parse::<u32>() else {
        return None;
    };
    let mut buffer = itoa::Buffer::new();
    if buffer.format(number) == text {
        Some(number)
    } else {
        None
    }
}
