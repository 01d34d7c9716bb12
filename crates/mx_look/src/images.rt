//! A glance at an image: its registers of a trap, and its message.

ghost use Rattle.std.specs.Prelude.{◌≡◌, ◌+◌, ◌≤◌};
ghost use Rattle.mx_look.specs.Images.{word_at, nine_words, message_at, image_glance};

use mx_exec::Image;
use mx_mem::{MESSAGE_SIZE, Segment};
use mx_word::{Register, read_dword};

/// What is looked at of an image: the registers of a trap and of its result, the length of its memory, and
/// the nine words of the message at its buffer (source, type, p0 to p6), if they lie inside its memory.
#[derive(Clone, Copy)]
pub struct ImageGlance {
    pub eax: u32,
    pub ecx: u32,
    pub limit: usize,
    pub words: Option<[u32; 9]>,
}

/// The word at a place of a message.
fn word_at(message: &[u8; MESSAGE_SIZE], at: usize) -> u32
    requires { at + 4 ≤ 36 }
    ensures { result ≡ word_at message.now at }
{
    read_dword(&message[at..])
}

/// The nine words of a message.
#[tactic(auto, unfolding(crate::specs::Images::nine_words))]
fn nine_words(message: &[u8; MESSAGE_SIZE]) -> [u32; 9]
    ensures { result ≡ nine_words message.now }
{
    [
        word_at(message, 0),
        word_at(message, 4),
        word_at(message, 8),
        word_at(message, 12),
        word_at(message, 16),
        word_at(message, 20),
        word_at(message, 24),
        word_at(message, 28),
        word_at(message, 32),
    ]
}

/// The words of the message at an address, if they lie inside.
#[tactic(auto, unfolding(crate::specs::Images::message_at))]
fn message_at(memory: &Segment, at: u32) -> Option<[u32; 9]>
    ensures { result ≡ message_at memory.now at }
{
    if memory.limit() < at as usize + MESSAGE_SIZE {
        return None;
    }
    Some(nine_words(&memory.message(at)))
}

/// What is looked at of an image.
#[tactic(auto, unfolding(crate::specs::Images::image_glance))]
pub(crate) fn image_glance(image: &Image) -> ImageGlance
    ensures { result ≡ image_glance image.now }
{
    ImageGlance {
        eax: image.register(Register::Eax),
        ecx: image.register(Register::Ecx),
        limit: image.memory.limit(),
        words: message_at(&image.memory, image.register(Register::Ebx)),
    }
}
