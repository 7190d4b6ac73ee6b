ghost use Rattle.std.specs.Prelude.{◌≡◌, Some, IfOk, string_bytes};
ghost use Rattle.people_names.specs.Keys.{is_printable, printable_part};

use crate::keys::NamesKey;
use std::alloc::{AllocError, Global};
use std::fmt;
use std::marker::Model;
use thiserror::Error;

/// Why a text isn't one of names: the first fault, in the order of these variants, but that the faults of `jobs` come
/// before those of `machines`, place by place, and those before that of the clock. Places are numbered from 0.
#[derive(Debug, Drop, Error)]
pub enum NamesFault {
    /// The bytes aren't a TOML document.
    #[error("NotToml")]
    NotToml,
    /// This key, the least one, isn't one of a text of names.
    #[error("UnknownKey key {key}")]
    UnknownKey { key: KeyText },
    /// The value of the key isn't an array.
    #[error("NotArray key {key}")]
    NotArray { key: NamesKey },
    /// The element isn't a text.
    #[error("NotText key {key} place {place}")]
    NotText { key: NamesKey, place: usize },
    /// The text can't be a name.
    #[error("BadName key {key} place {place}")]
    BadName { key: NamesKey, place: usize },
    /// The name is one of those before it.
    #[error("NameTwice key {key} place {place}")]
    NameTwice { key: NamesKey, place: usize },
    /// What the clock says at moment 0 isn't `HH:MM` or `HH:MM:SS`.
    #[error("BadClock")]
    BadClock,
    /// There are more names than the shop has jobs, or machines.
    #[error("TooManyNames key {key}")]
    TooManyNames { key: NamesKey },
    /// Out of memory.
    #[error("Memory")]
    Memory,
}

impl From<AllocError> for NamesFault {
    ghost use Rattle.std.specs.Prelude.{◌≡◌};
    ghost use Rattle.people_names.specs.declared.names_fault.NamesFault.TheVariants.{Memory};

    ghost from_gives = { λ _ fault. fault ≡ Memory };

    fn from(_error: AllocError) -> NamesFault {
        NamesFault::Memory
    }
}

impl From<toml::de::Error> for NamesFault {
    ghost use Rattle.people_names.specs.Answers.{IsFaultOf};

    ghost from_gives = { λ error fault. IsFaultOf error fault };

    fn from(error: toml::de::Error) -> NamesFault {
        match error {
            error if error.is_memory() => NamesFault::Memory,
            _ => NamesFault::NotToml,
        }
    }
}

/// A key as a fault prints it: its bytes up to the first one that isn't printable ASCII.
#[derive(Debug, Drop)]
pub struct KeyText {
    text: String,
}

impl Model for KeyText {
    ghost use Rattle.std.specs.Prelude.{ℕ, List, string_bytes};

    ghost Value = { List ℕ };

    ghost view = { λ key. string_bytes key.text };
}

impl KeyText {
    /// What a fault prints of this key.
    pub(crate) fn of(alloc: Global, key: &str) -> Result<KeyText, AllocError>
        ensures { IfOk result (λ printed. printed ≡ printable_part key.now) }
    {
        let text = printable_part(alloc, key.as_bytes())?;
        Ok(KeyText { text })
    }

    /// The bytes that are printed.
    pub fn as_str(&self) -> &str
        ensures { result.now ≡ self.now }
    {
        self.text.as_str()
    }
}

impl fmt::Display for KeyText {
    ghost use Rattle.std.specs.Prelude.{Some};

    ghost output = { λ key. Some key };

    fn fmt<W: fmt::Write>(&self, f: &mut fmt::Formatter<W>) -> fmt::Result {
        f.write_str(self.text.as_str())
    }
}

fn is_printable(byte: u8) -> bool
    ensures { result ≡ is_printable byte }
{
    byte == b' ' || byte.is_ascii_graphic()
}

/// The bytes before the first one that isn't printable.
fn printable_part(alloc: Global, bytes: &[u8]) -> Result<String, AllocError>
    ensures { IfOk result (λ text. string_bytes text ≡ printable_part bytes.now) }
{
    let mut text = String::new(alloc);
    for byte in bytes {
        if !is_printable(*byte) {
            return Ok(text);
        }
        text.push(char::from(*byte))?;
    }
    Ok(text)
}
