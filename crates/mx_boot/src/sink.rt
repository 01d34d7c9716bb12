//! What takes bytes.
//!
//! # No sink over a file
//!
//! A contract can't state what a file took. So a history is saved as one text in memory, which is
//! then written. Each error of a writer, an interruption too, is the sink's failure: nothing is
//! tried again.

ghost use Rattle.std.specs.Prelude.{◌≡◌, ◌<◌, ◌∷◌, [], ℕ, Bool, false, List, IsSome, Some, length};
ghost use Rattle.mx_boot.specs.Taking.{SinkTakes};

use std::io::Write;

/// A sink has failed: it takes nothing any more.
#[derive(Clone, Copy, Debug, PartialEq, Eq)]
pub struct SinkFault;

/// What takes bytes, and may fail. `Over` is one. Contracts use the trait to state which bytes were
/// taken before a failure.
pub trait Sink {
    ghost taken: { Self → List ℕ };

    ghost has_failed: { Self → Bool };

    /// Takes some of the bytes from their front on, and answers how many. It has failed if it
    /// answers an error, or none.
    fn put(&mut self, bytes: &[u8]) -> Result<usize, SinkFault>
        requires whole { has_failed self.old ≡ false }
        requires some { 0 < length bytes.now }
        ensures { SinkTakes (taken self.old) (taken self.new) (has_failed self.new) bytes.now
            result };
}

/// A sink over a writer whose contents contracts can state, as a `Vec`. What the sink took is what
/// its writer holds.
#[derive(Drop)]
pub struct Over<W: Write> {
    writer: W,
    has_failed: bool,
    ghost known: { IsSome (W.contents writer) },
}

impl<W: Write> Over<W> {
    /// A sink over a writer that holds nothing yet.
    pub fn new(writer: W) -> Over<W>
        requires { W.contents writer ≡ Some [] }
        ensures writer { result.writer ≡ writer }
        ensures whole { result.has_failed ≡ false }
    {
        Over {
            writer,
            has_failed: false,
        }
    }

    /// The writer, with what the sink took.
    pub fn into_writer(self) -> W
        ensures { result ≡ self.writer }
    {
        self.writer
    }
}

impl<W: Write> Sink for Over<W> {
    ghost use Rattle.std.specs.Prelude.{[], unwrap_or};

    ghost taken = { λ sink. unwrap_or (W.contents sink.writer) [] };

    ghost has_failed = { λ sink. sink.has_failed };

    #[tactic(auto, using(crate::proofs::Held::holds_more, crate::proofs::Held::holds_still, crate::proofs::Held::is_known, crate::proofs::Held::stays_known))]
    fn put(&mut self, bytes: &[u8]) -> Result<usize, SinkFault> {
        match self.writer.write(bytes) {
            Ok(count) => {
                self.has_failed = count == 0;
                Ok(count)
            }
            Err(_) => {
                self.has_failed = true;
                Err(SinkFault)
            }
        }
    }
}
