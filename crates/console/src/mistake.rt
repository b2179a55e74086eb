// What can be wrong with a line of a script.
ghost use Rattle.std.specs.Prelude.{◌≡◌, Some};
ghost use Rattle.console.specs.Mistakes.{hex_mistake, said, trouble, trouble_text};
ghost use Rattle.console.specs.declared.mistake.Mistake.TheVariants.{NoMemory};

use hex::FromHexError;
use std::alloc::{AllocError, AllocFailed};
use std::error::Error;
use std::fmt;

#[derive(Clone, Copy, PartialEq, Eq, Debug)]
pub enum Mistake {
    NoFirstLine,
    FirstLine,
    NoTree,
    NoKind,
    LongSlice,
    NoCall,
    Arguments,
    NoNumber,
    Components,
    Component,
    NoHex,
    NoText,
    NoMemory,
}

impl Mistake {
    // The mistake, in a line of this number.
    pub fn at(self, line: usize) -> Trouble
        ensures { result ≡ trouble line self }
    {
        Trouble {
            line,
            mistake: self,
        }
    }
}

// `thiserror` writes no contract of the text, so the words stand here.
impl fmt::Display for Mistake {
    ghost output = { λ m. Some (said m) };

    fn fmt<W: fmt::Write>(&self, f: &mut fmt::Formatter<W>) -> fmt::Result {
        f.write_str(match self {
            Mistake::NoFirstLine => "the script is empty",
            Mistake::FirstLine => "a script begins with a line `tree KIND` or `tree KIND A B C D`",
            Mistake::NoTree => "only tree scripts are taken",
            Mistake::NoKind => "the kind is none of 1, 2 and 3",
            Mistake::LongSlice => "a length is no number or above 4096",
            Mistake::NoCall => "no call has this name",
            Mistake::Arguments => "a wrong number of arguments",
            Mistake::NoNumber => "an argument is no number or too large",
            Mistake::Components => "a wrong number of components",
            Mistake::Component => "a component is no number or beyond the carry limit",
            Mistake::NoHex => "the bytes are no pairs of hex digits",
            Mistake::NoText => "the line is no text",
            Mistake::NoMemory => "there is no memory for it",
        })
    }
}

impl Error for Mistake {}

impl From<AllocError> for Mistake {
    ghost from_gives = { λ _ r. r ≡ NoMemory };

    fn from(_error: AllocError) -> Mistake {
        Mistake::NoMemory
    }
}

impl<T: Drop> From<AllocFailed<T>> for Mistake {
    ghost from_gives = { λ _ r. r ≡ NoMemory };

    fn from(_error: AllocFailed<T>) -> Mistake {
        Mistake::NoMemory
    }
}

// No bytes are read from a word: for want of memory, or since it is no pairs of digits.
impl From<FromHexError> for Mistake {
    ghost from_gives = { λ e r. r ≡ hex_mistake e };

    fn from(error: FromHexError) -> Mistake {
        match error {
            FromHexError::OutOfMemory => Mistake::NoMemory,
            _ => Mistake::NoHex,
        }
    }
}

// A mistake, and the number of its line, from 1.
#[derive(Clone, Copy, PartialEq, Eq, Debug)]
pub struct Trouble {
    pub line: usize,
    pub mistake: Mistake,
}

impl fmt::Display for Trouble {
    ghost output = { λ t. Some (trouble_text t) };

    fn fmt<W: fmt::Write>(&self, f: &mut fmt::Formatter<W>) -> fmt::Result {
        let line = self.line;
        let mistake = self.mistake;
        write!(f, "line {line}: {mistake}")
    }
}

impl Error for Trouble {}
