//! What words that choose no command come to.

use command_answers::{Answer, Answered, CommandFault, GOOD};
use command_words::WordsFault;

/// What follows words that choose no command.
#[derive(Drop)]
pub(crate) enum Unchosen {
    /// Help or the version that was asked for is a good answer, and out of memory is a fault.
    Ends(Answered),
    /// What is wrong with the words.
    Usage(String),
}

impl From<WordsFault> for Unchosen {
    ghost use Rattle.command_run.specs.Unchosen.{Comes};

    ghost from_gives = { λ fault unchosen. Comes fault unchosen };

    fn from(fault: WordsFault) -> Unchosen {
        match fault {
            WordsFault::Usage { help: true, text } => {
                Unchosen::Ends(Ok(Answer {
                    text: text.into_bytes(),
                    status: GOOD,
                }))
            }
            WordsFault::Usage { help: false, text } => Unchosen::Usage(text),
            WordsFault::Memory => Unchosen::Ends(Err(CommandFault::Memory)),
        }
    }
}
