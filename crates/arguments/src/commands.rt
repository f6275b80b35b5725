// The commands, by the words that say them, and how many words each takes behind it.

// The option that asks for answers in JSON.
pub const JSON_OPTION: &[u8] = b"--json";

// What a word asks for: the commands on files, and the two that tell of the command itself and take no file.
#[derive(Clone, Copy, PartialEq, Eq)]
pub enum Command {
    Check,
    Show,
    Get,
    Acknowledge,
    Frames,
    Lines,
    Help,
    Version,
}

// Whether a word asks for help, wherever it is asked.
pub fn is_help(word: &[u8]) -> bool {
    matches!(word, b"--help" | b"-h")
}

impl Command {
    // The command that a word says.
    pub(crate) fn of(word: &[u8]) -> Option<Command> {
        match word {
            b"check" => Some(Command::Check),
            b"frames" => Some(Command::Frames),
            b"show" => Some(Command::Show),
            b"get" => Some(Command::Get),
            b"lines" => Some(Command::Lines),
            b"ack" => Some(Command::Acknowledge),
            b"help" | b"--help" | b"-h" => Some(Command::Help),
            b"--version" => Some(Command::Version),
            _ => None,
        }
    }

    // Whether a command takes any number of files.
    pub fn takes_files(self) -> bool {
        matches!(self, Command::Check | Command::Frames)
    }

    // Whether a command takes the option --json.
    pub(crate) fn takes_json(self) -> bool {
        matches!(
            self,
            Command::Check | Command::Frames | Command::Show | Command::Get
        )
    }

    // Whether a command takes so many words: a file or more to check or to take frames from, one to show, one to get an
    // element or its lines from with an address of one to five words behind its name, one to acknowledge with two, and
    // none to tell of itself.
    pub(crate) fn takes_words(self, count: usize) -> bool {
        match self {
            Command::Check | Command::Frames => 1 <= count,
            Command::Show => count == 1,
            Command::Get | Command::Lines => (2 <= count) & (count <= 6),
            Command::Acknowledge => count == 3,
            Command::Help | Command::Version => count == 0,
        }
    }
}
