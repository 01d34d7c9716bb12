//! The classes of figures, whose colours the style sheet has.

ghost use Rattle.std.specs.Prelude.{◌≡◌};
ghost use Rattle.mx_app_draw.specs.Classes.{bar_class, arrow_class, label_class, anchor_word};

use crate::values::{Anchor, ArrowKind, BarKind, LabelKind};

pub(crate) fn bar_class(kind: BarKind) -> &'static [u8]
    ensures { result.now ≡ bar_class kind }
{
    match kind {
        BarKind::Band => b"band",
        BarKind::Grid => b"grid",
        BarKind::Out => b"out",
        BarKind::Doomed => b"doomed",
        BarKind::Ready => b"ready",
        BarKind::Sending => b"sending",
        BarKind::Awaiting => b"awaiting",
        BarKind::Receiving => b"receiving",
    }
}

pub(crate) fn arrow_class(kind: ArrowKind) -> &'static [u8]
    ensures { result.now ≡ arrow_class kind }
{
    match kind {
        ArrowKind::Message => b"message",
        ArrowKind::Notification => b"notify",
        ArrowKind::Pending => b"pending",
        ArrowKind::Kill => b"kill",
        ArrowKind::Respawn => b"respawn",
    }
}

pub(crate) fn label_class(kind: LabelKind) -> &'static [u8]
    ensures { result.now ≡ label_class kind }
{
    match kind {
        LabelKind::Title => b"title",
        LabelKind::Axis => b"axis",
        LabelKind::Name => b"name",
        LabelKind::End => b"end",
        LabelKind::Cpu => b"cpu",
        LabelKind::Note => b"note",
        LabelKind::Call => b"call",
        LabelKind::Bad => b"bad",
        LabelKind::Character => b"char",
        LabelKind::Byte => b"byte",
        LabelKind::Refused => b"refused",
        LabelKind::Key => b"key",
    }
}

pub(crate) fn anchor_word(anchor: Anchor) -> &'static [u8]
    ensures { result.now ≡ anchor_word anchor }
{
    match anchor {
        Anchor::Start => b"start",
        Anchor::Middle => b"middle",
        Anchor::End => b"end",
    }
}
