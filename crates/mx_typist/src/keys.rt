//! Which keys are commands.

ghost use Rattle.std.specs.Prelude.{◌≡◌};
ghost use Rattle.mx_typist.specs.Keys.{pending_after, wanted_of};

/// The key before a command: Ctrl-A.
const PREFIX: u8 = 1;

/// What was typed of a command.
#[derive(Clone, Copy, Debug, PartialEq, Eq)]
pub enum Pending {
    /// Nothing: the next key is typed into the machine, unless it is Ctrl-A.
    Nothing,
    /// Ctrl-A: the next key says what is wanted.
    Command,
    /// Ctrl-A and k: the next key is a slot.
    Slot,
}

/// What a key asks for.
#[derive(Clone, Copy, Debug, PartialEq, Eq)]
pub enum Wanted {
    /// Nothing yet: it is the front of a command.
    More,
    /// That this byte is typed into the machine.
    Key(u8),
    /// That the process of a slot is killed.
    Kill(u8),
    /// A tick of the clock.
    Tick,
    /// What the commands are.
    Help,
    /// The end of the session.
    End,
    /// It is no command.
    Unknown,
}

/// What the key after Ctrl-A asks for.
fn command_of(key: u8) -> Wanted
    ensures { result ≡ wanted_of Pending.Command key }
{
    match key {
        b'k' => Wanted::More,
        b't' => Wanted::Tick,
        b'x' => Wanted::End,
        b'?' => Wanted::Help,
        b'a' | PREFIX => Wanted::Key(PREFIX),
        _ => Wanted::Unknown,
    }
}

/// The slot that a key names: 0 to 9, and a to v for 10 to 31.
fn slot_of(key: u8) -> Wanted
    ensures { result ≡ wanted_of Pending.Slot key }
{
    match key {
        b'0'..=b'9' => Wanted::Kill(key - b'0'),
        b'a'..=b'v' => Wanted::Kill(key - b'a' + 10),
        _ => Wanted::Unknown,
    }
}

impl Pending {
    /// What a key asks for, after this.
    pub fn wanted(self, key: u8) -> Wanted
        ensures { result ≡ wanted_of self key }
    {
        match self {
            Pending::Nothing => {
                if key == PREFIX {
                    Wanted::More
                } else {
                    Wanted::Key(key)
                }
            }
            Pending::Command => command_of(key),
            Pending::Slot => slot_of(key),
        }
    }

    /// What was typed of a command, after a key more.
    pub fn after(self, key: u8) -> Pending
        ensures { result ≡ pending_after self key }
    {
        match self {
            Pending::Nothing if key == PREFIX => Pending::Command,
            Pending::Command if key == b'k' => Pending::Slot,
            _ => Pending::Nothing,
        }
    }
}
