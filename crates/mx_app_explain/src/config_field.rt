//! Places of a configuration's line, and what is wanted there.

ghost use Rattle.std.specs.Prelude.{◌≡◌, option_map};
ghost use Rattle.mx_app_explain.specs.ConfigFields.{key_word, value_name, wanted_at, words_before};

/// The words of a service's line that have a value after them.
#[derive(Clone, Copy)]
pub enum Key {
    Traps,
    Send,
    Calls,
    Level,
    Best,
    Quantum,
    Restarts,
}

impl Key {
    /// The word itself.
    pub fn word(self) -> &'static str
        ensures { result.now ≡ key_word self }
    {
        match self {
            Key::Traps => "traps",
            Key::Send => "send",
            Key::Calls => "calls",
            Key::Level => "level",
            Key::Best => "best",
            Key::Quantum => "quantum",
            Key::Restarts => "restarts",
        }
    }
}

/// A place of a line.
#[derive(Clone, Copy)]
pub enum Field {
    /// The line's first word.
    Item,
    /// The number after `cpus`, `others`, `log`, `rules`.
    Cpus,
    Others,
    Log,
    Rules,
    /// What is after that number.
    ItemEnd,
    /// A service's name, and its program's file.
    Name,
    File,
    /// A word of a service's line, and the value after it.
    Key(Key),
    Value(Key),
    /// What is after all words of a service's line.
    ServiceEnd,
}

impl Field {
    /// How many words of the line are before this place.
    pub fn words_before(self) -> usize
        ensures { result ≡ words_before self }
    {
        match self {
            Field::Item => 0,
            Field::Cpus | Field::Others | Field::Log | Field::Rules | Field::Name => 1,
            Field::ItemEnd | Field::File => 2,
            Field::Key(Key::Traps) => 3,
            Field::Value(Key::Traps) => 4,
            Field::Key(Key::Send) => 5,
            Field::Value(Key::Send) => 6,
            Field::Key(Key::Calls) => 7,
            Field::Value(Key::Calls) => 8,
            Field::Key(Key::Level) => 9,
            Field::Value(Key::Level) => 10,
            Field::Key(Key::Best) => 11,
            Field::Value(Key::Best) => 12,
            Field::Key(Key::Quantum) => 13,
            Field::Value(Key::Quantum) => 14,
            Field::Key(Key::Restarts) => 15,
            Field::Value(Key::Restarts) => 16,
            Field::ServiceEnd => 17,
        }
    }

    /// What a value is called. None for a word of the form itself.
    pub fn value_name(self) -> Option<&'static str>
        ensures { option_map (λ s. s.now) result ≡ value_name self }
    {
        match self {
            Field::Cpus => Some("cpus"),
            Field::Others => Some("others"),
            Field::Log => Some("log"),
            Field::Rules => Some("rules"),
            Field::Name => Some("NAME"),
            Field::File => Some("FILE"),
            Field::Value(key) => Some(key.word()),
            Field::Item | Field::ItemEnd | Field::Key(_) | Field::ServiceEnd => None,
        }
    }

    /// What is wanted here.
    pub fn wanted_text(self) -> &'static str
        ensures { result.now ≡ wanted_at self }
    {
        match self {
            Field::Item => "cpus, others, log, rules or service",
            Field::Cpus => "1 to 8",
            Field::Others => "1 to 4",
            Field::Log => "1 to 1048576",
            Field::Rules => "1 or 2",
            Field::Name =>
                "a letter or _, and then letters, digits and _, at most 8 in all, and no register or size",
            Field::File => "the name of the program's file, without spaces, tabs and quotes",
            Field::Key(key) => key.word(),
            Field::Value(Key::Traps | Key::Send | Key::Calls) => {
                "1 to 8 hexadecimal digits, without 0x"
            }
            Field::Value(Key::Level) => "0 to 14",
            Field::Value(Key::Best) => "0 to the level",
            Field::Value(Key::Quantum) => "1 to 65535",
            Field::Value(Key::Restarts) => "0 to 1048575",
            Field::ItemEnd | Field::ServiceEnd => "the end of the line",
        }
    }
}
