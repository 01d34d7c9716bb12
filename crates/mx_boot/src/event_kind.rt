//! The first words of lines: each names what its line is about.

ghost use Rattle.std.specs.Prelude.{◌≡◌, find, option_copied};
ghost use Rattle.std.specs.Str.{bytes_eq};
ghost use Rattle.mx_boot.specs.declared.event_kind.EventKind.{EventKind};
ghost use Rattle.mx_boot.specs.EventKinds.{event_word, event_kind_of};

/// What a line of a script or of a history is about.
#[derive(Clone, Copy, Debug, PartialEq, Eq)]
pub enum EventKind {
    Step,
    Take,
    Back,
    Line,
    Tick,
    Kill,
    Respawn,
}

/// All kinds.
const EVENT_KINDS: [EventKind; 7] = [
    EventKind::Step,
    EventKind::Take,
    EventKind::Back,
    EventKind::Line,
    EventKind::Tick,
    EventKind::Kill,
    EventKind::Respawn,
];

impl EventKind {
    /// The word that begins a line about it.
    fn word(self) -> &'static [u8]
        ensures { result.now ≡ event_word self }
    {
        match self {
            EventKind::Step => b"step",
            EventKind::Take => b"take",
            EventKind::Back => b"back",
            EventKind::Line => b"line",
            EventKind::Tick => b"tick",
            EventKind::Kill => b"kill",
            EventKind::Respawn => b"respawn",
        }
    }
}

/// The first of these kinds that a word is.
fn first_named<'a>(kinds: &'a [EventKind], word: &[u8]) -> Option<&'a EventKind>
    ensures { option_copied result ≡ find (λ v. bytes_eq word.now (event_word v)) kinds.now }
{
    kinds.iter().find(|kind| word == kind.word())
}

/// The kind of a script's line that a word is.
#[tactic(auto, unfolding(crate::specs::EventKinds::event_kind_of))]
pub fn event_kind_named(word: &[u8]) -> Option<EventKind>
    ensures { result ≡ event_kind_of word.now }
{
    first_named(&EVENT_KINDS, word).copied()
}
