// The words of the command line.
ghost use Rattle.std.specs.Prelude.{◌≡◌, ◌<◌, ◌≤◌, length, None, Some, IfOk, IfSome, ℕ, if◌then◌else◌};
ghost use Rattle.std.specs.Str.Parse.{digits_value};
ghost use Rattle.elpi_cli.specs.Words.{texts, command, most_size, take_word, take_first, take_option_or_file, asks_for, is_number, number_within, IsCommand, AreBelow, IsWithin};

use ref_terms::Sequence;
use std::alloc::{AllocError, AllocFailed, Global};

// How many files may be named.
const MAX_FILES: usize = 16;

// How many digits a number has at most.
const MAX_DIGITS: usize = 10;

/// How many steps a run may make where no number is given.
pub const STEPS: u64 = 1_000_000;

// The greatest number of steps.
const MAX_STEPS: u64 = 1_000_000_000;

// The greatest limit on answers.
const MAX_ANSWERS: u64 = 1_000_000;

// The greatest size of the program that comes with the interpreter.
const MAX_SIZE: u64 = 100_000;

/// What a command line asks for. Query and files are indices into the words.
#[derive(Debug, Drop)]
pub enum Command {
    /// A query over files, in at most so many steps, up to so many answers; 0 leaves the limit out.
    Run {
        steps: u64,
        answers: u64,
        query: usize,
        files: Sequence<usize>,
    },
    /// The program that comes with the interpreter, of this size.
    Gen(u32),
}

/// Why words give no command.
#[derive(Clone, Copy, Debug, PartialEq, Eq)]
pub enum WordsStop {
    /// The word of this index can't stand there, or is missing.
    BadWord(usize),
    Memory,
}

impl From<AllocFailed<usize>> for WordsStop {
    ghost use Rattle.elpi_cli.specs.declared.words.WordsStop.TheVariants.{Memory};

    ghost from_gives = { λ _ e. e ≡ Memory };

    fn from(_: AllocFailed<usize>) -> Self {
        WordsStop::Memory
    }
}

/// Which word comes next.
#[derive(Clone, Copy, Debug, PartialEq, Eq)]
pub enum Place {
    First,
    OptionOrFile,
    QueryValue,
    StepsValue,
    AnswersValue,
    GenSize,
    End,
}

/// What the words so far have said.
#[derive(Debug, Drop)]
pub struct Reading {
    pub place: Place,
    pub query: Option<usize>,
    pub steps: Option<u64>,
    pub answers: Option<u64>,
    pub files: Sequence<usize>,
    pub size: Option<u32>,
}

// The value of a number of one to ten digits; none where the word is none.
fn number_of(word: &[u8]) -> Option<u64>
    ensures { result ≡ (if is_number word.now then Some (digits_value 10 word.now) else None) }
{
    if word.is_empty() || word.len() > MAX_DIGITS {
        return None;
    }
    let mut value = 0;
    for i in 0..word.len() {
        let digit = word[i];
        if !digit.is_ascii_digit() {
            return None;
        }
        value = value * 10 + u64::from(digit - b'0');
    }
    Some(value)
}

// The number that the word is, from `least` to `most`.
fn number_within(least: u64, most: u64, word: &[u8]) -> Option<u64>
    ensures value { result ≡ number_within least most word.now }
    ensures bounded { IfSome result (λ number. number ≤ most) }
{
    match number_of(word) {
        Some(number) if least <= number && number <= most => Some(number),
        _ => None,
    }
}

// The size that the word is.
fn size_of(word: &[u8]) -> Option<u32>
    ensures { result ≡ number_within 0 most_size word.now }
{
    match number_within(0, MAX_SIZE, word) {
        Some(number) => Some(number as u32),
        None => None,
    }
}

impl Reading {
    ghost use Rattle.std.specs.Prelude.{◌≡◌, Some, None, IfOk, OnOk, OnErr, if◌then◌else◌, MatchResult, MatchBool};

    // Takes one more word, or answers false where it can't stand there.
    fn take(&mut self, index: usize, word: &[u8]) -> Result<bool, AllocFailed<usize>>
        ensures taken { IfOk result (λ taken. take_word self.old index word.now ≡ (if taken then Some self.new else None)) }
        ensures below { (count : ℕ) → index < count → AreBelow count self.old → AreBelow count self.new }
    {
        match self.place {
            Place::First => return Ok(self.take_first(word)),
            Place::QueryValue => {
                self.query = Some(index);
                self.place = Place::OptionOrFile;
            }
            Place::StepsValue => {
                let Some(steps) = number_within(1, MAX_STEPS, word) else {
                    return Ok(false);
                };
                self.steps = Some(steps);
                self.place = Place::OptionOrFile;
            }
            Place::AnswersValue => {
                let Some(answers) = number_within(0, MAX_ANSWERS, word) else {
                    return Ok(false);
                };
                self.answers = Some(answers);
                self.place = Place::OptionOrFile;
            }
            Place::GenSize => {
                let Some(size) = size_of(word) else {
                    return Ok(false);
                };
                self.size = Some(size);
                self.place = Place::End;
            }
            Place::End => return Ok(false),
            Place::OptionOrFile => return self.take_option_or_file(index, word),
        }
        Ok(true)
    }

    // The same where the command's name stands.
    fn take_first(&mut self, word: &[u8]) -> bool
        ensures taken { take_first self.old word.now ≡ (if result then Some self.new else None) }
        ensures below { (count : ℕ) → AreBelow count self.old → AreBelow count self.new }
    {
        if word == b"run".as_slice() {
            self.place = Place::OptionOrFile;
            return true;
        }
        if word == b"gen".as_slice() {
            self.place = Place::GenSize;
            return true;
        }
        false
    }

    // The same where an option or a file name stands.
    fn take_option_or_file(&mut self, index: usize, word: &[u8]) -> Result<bool, AllocFailed<usize>>
        ensures taken { IfOk result (λ taken. take_option_or_file self.old index word.now ≡ (if taken then Some self.new else None)) }
        ensures below { (count : ℕ) → index < count → AreBelow count self.old → AreBelow count self.new }
    {
        if word == b"--query".as_slice() {
            let is_given = self.query.is_some();
            return Ok(self.ask_for(Place::QueryValue, is_given));
        }
        if word == b"--steps".as_slice() {
            let is_given = self.steps.is_some();
            return Ok(self.ask_for(Place::StepsValue, is_given));
        }
        if word == b"--answers".as_slice() {
            let is_given = self.answers.is_some();
            return Ok(self.ask_for(Place::AnswersValue, is_given));
        }
        if word.starts_with(b"--") || self.files.len() >= MAX_FILES {
            return Ok(false);
        }
        self.files.push(index)?;
        Ok(true)
    }

    // The next word is the value of an option, unless this was given before.
    fn ask_for(&mut self, value: Place, is_given: bool) -> bool
        ensures taken { asks_for value is_given self.old ≡ (if result then Some self.new else None) }
        ensures below { (count : ℕ) → AreBelow count self.old → AreBelow count self.new }
    {
        if is_given {
            return false;
        }
        self.place = value;
        true
    }
}

/// Reads the words of a command line.
pub fn read_words(alloc: Global, words: &[String]) -> Result<Command, WordsStop>
    ensures command { IsCommand (command (texts words.now)) result }
    ensures within { IfOk result (IsWithin (length words.now)) }
{
    let mut reading = Reading {
        place: Place::First,
        query: None,
        steps: None,
        answers: None,
        files: Sequence::new(alloc),
        size: None,
    };
    for (index, word) in words.iter().enumerate() {
        if !reading.take(index, word.as_bytes())? {
            return Err(WordsStop::BadWord(index));
        }
    }
    match reading.place {
        Place::OptionOrFile => match reading.query {
            Some(query) => Ok(Command::Run {
                steps: reading.steps.unwrap_or(STEPS),
                answers: reading.answers.unwrap_or(0),
                query,
                files: reading.files,
            }),
            None => Err(WordsStop::BadWord(words.len())),
        },
        Place::End => match reading.size {
            Some(size) => Ok(Command::Gen(size)),
            None => Err(WordsStop::BadWord(words.len())),
        },
        _ => Err(WordsStop::BadWord(words.len())),
    }
}
