use crate::failures::Failure;
use crate::push::push;
use cap_text::read_dec;
use run_history::Pairing;
use std::alloc::Global;

/// What the words ask for: the files of the pictures, the file of a stored log, whether the run is repeated, and the
/// words of the run.
#[derive(Drop)]
pub struct Wanted {
    /// The file for the timeline.
    pub timeline: Option<String>,
    /// The file for the blocking graph.
    pub graph: Option<String>,
    /// The file of a stored log.
    pub log: Option<String>,
    /// Whether the run is repeated along its log, for the reasons for its choices and the holders of resources.
    pub why: bool,
    /// The request whose parts are shown, by its number from 1 in the order in which requests came.
    pub request: Option<u64>,
    /// How outputs answer requests, if that is given.
    pub answers: Option<Pairing>,
    /// The first clock of the window that is shown.
    pub from: Option<u64>,
    /// The last clock of the window that is shown.
    pub to: Option<u64>,
    /// Whether the usage is shown.
    pub help: bool,
    /// The words of the run.
    pub words: Vec<String>,
}

/// What the next word is.
#[derive(Clone, Copy)]
enum Next {
    /// An option, or the first word of the run.
    Any,
    Timeline,
    Graph,
    Log,
    Request,
    From,
    To,
    Answers,
    Word,
}

impl Wanted {
    /// Reads these words.
    ///
    /// # Errors
    ///
    /// `Words` if a number is malformed, or a window ends before it begins.
    pub fn read(alloc: Global, words: Vec<String>) -> Result<Wanted, Failure> {
        let mut wanted = Wanted {
            timeline: None,
            graph: None,
            log: None,
            why: false,
            request: None,
            answers: None,
            from: None,
            to: None,
            help: false,
            words: Vec::new(alloc),
        };
        match wanted.take_all(words) {
            Ok(()) => Ok(wanted),
            Err(failure) => {
                drop(wanted);
                Err(failure)
            }
        }
    }

    /// Reads all words.
    fn take_all(&mut self, words: Vec<String>) -> Result<(), Failure> {
        let mut next = Next::Any;
        for word in words {
            next = match next {
                Next::Any => self.begin(word)?,
                Next::Timeline => {
                    self.timeline = Some(word);
                    Next::Any
                }
                Next::Graph => {
                    self.graph = Some(word);
                    Next::Any
                }
                Next::Log => {
                    self.log = Some(word);
                    Next::Any
                }
                Next::Request => {
                    self.request = Some(number_in(word.as_str(), 1)?);
                    Next::Any
                }
                Next::Answers => {
                    self.answers = Some(pairing_in(word.as_str())?);
                    Next::Any
                }
                Next::From => {
                    self.from = Some(number_in(word.as_str(), 0)?);
                    Next::Any
                }
                Next::To => {
                    self.to = Some(number_in(word.as_str(), 1)?);
                    Next::Any
                }
                Next::Word => {
                    push(&mut self.words, word)?;
                    Next::Word
                }
            };
        }
        if self.has_window() {
            Ok(())
        } else {
            Err(Failure::Words)
        }
    }

    /// Checks that a given window doesn't end before it begins.
    fn has_window(&self) -> bool {
        match (self.from, self.to) {
            (Some(from), Some(to)) => from <= to,
            _ => true,
        }
    }

    /// Reads a word that may be one of the report's options; the first that isn't begins the words of the run.
    fn begin(&mut self, word: String) -> Result<Next, Failure> {
        match word.as_str() {
            "--timeline" => Ok(Next::Timeline),
            "--graph" => Ok(Next::Graph),
            "--log" => Ok(Next::Log),
            "--request" => Ok(Next::Request),
            "--answers" => Ok(Next::Answers),
            "--from" => Ok(Next::From),
            "--to" => Ok(Next::To),
            "--help" => {
                self.help = true;
                Ok(Next::Any)
            }
            "--why" => {
                self.why = true;
                Ok(Next::Any)
            }
            _ => {
                push(&mut self.words, word)?;
                Ok(Next::Word)
            }
        }
    }
}

/// Returns the number of a word, at least `least`.
fn number_in(word: &str, least: u64) -> Result<u64, Failure> {
    match read_dec(word.as_bytes(), u64::MAX) {
        Ok(number) if number >= least => Ok(number),
        _ => Err(Failure::Words),
    }
}

/// Returns how outputs answer requests, by its word.
fn pairing_in(word: &str) -> Result<Pairing, Failure> {
    match word {
        "first" => Ok(Pairing::First),
        "value" => Ok(Pairing::Value),
        _ => Err(Failure::Words),
    }
}
