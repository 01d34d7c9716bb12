//! Parts of the schedules that are explored.

ghost use Rattle.std.specs.Prelude.{◌≡◌, option_map};
ghost use Rattle.mx_app_command.specs.Parts.{part_asked, part_by, part_said, whole_part};

use mx_text::number_up_to;

/// A part of the schedules that are explored: how many parts come before it, and how many after it.
#[derive(Clone, Copy)]
pub struct SchedulePart {
    pub before: u32,
    pub after: u32,
}

/// All schedules.
pub(crate) const WHOLE: SchedulePart = SchedulePart {
    before: 0,
    after: 0,
};

/// Part `index` of `count`, if there is one.
fn part_by(index: Option<u32>, count: Option<u32>) -> Option<SchedulePart>
    ensures { result ≡ part_by index count }
{
    match (index, count) {
        (Some(index), Some(count)) if index < count => Some(SchedulePart {
            before: index,
            after: count - index - 1,
        }),
        _ => None,
    }
}

/// The part that a word names, as `1/4`.
fn part_said(text: &str) -> Option<SchedulePart>
    ensures { result ≡ part_said text.now }
{
    match text.split_once('/') {
        None => None,
        Some((index, count)) => part_by(
            number_up_to(index.as_bytes(), 10, u32::MAX),
            number_up_to(count.as_bytes(), 10, u32::MAX),
        ),
    }
}

/// The part that a word names; without one it is all.
pub(crate) fn part_asked(text: Option<&str>) -> Option<SchedulePart>
    ensures { result ≡ part_asked (option_map (λ s. s.now) text.entry) }
{
    match text {
        None => Some(WHOLE),
        Some(text) => part_said(text),
    }
}
