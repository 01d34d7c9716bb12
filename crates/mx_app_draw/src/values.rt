//! What is drawn: bars, arrows, glyphs and texts. Coordinates are whole numbers, from the top left.

use crate::scene_values::Standing;
use mx_proc::Rules;

/// What a viewer shows when it is asked about a value. A place counts the steps of a scene from 0.
#[derive(Clone, Copy)]
pub enum Hint {
    Nothing,
    /// The line of the record at a place.
    Record(u32),
    /// At a place, the line of a slot whose process does something else.
    Change(u32, u32),
    /// At a place, the line of what a slot got.
    Delivery(u32, u32),
    /// At a place, the line of a notification that becomes pending for a slot. The last number is
    /// the place of its source among the pending bits: HARDWARE, CLOCK, slot 0 and up.
    Kept(u32, u32, u32),
    /// At a place, the line of a byte of the console.
    Console(u32),
    /// What a process does after the record of this number.
    Standing(Standing, u32),
}

/// What a rectangle shows.
#[derive(Clone, Copy)]
pub enum BarKind {
    /// The ground of a row.
    Band,
    /// The line of a record's number.
    Grid,
    Out,
    Doomed,
    Ready,
    Sending,
    Awaiting,
    Receiving,
}

/// A rectangle. Its top left corner is at `x` and `y`.
#[derive(Clone, Copy)]
pub struct Bar {
    pub kind: BarKind,
    pub x: u32,
    pub y: u32,
    pub width: u32,
    pub height: u32,
    pub hint: Hint,
}

/// What goes from one row to another.
#[derive(Clone, Copy)]
pub enum ArrowKind {
    Message,
    Notification,
    /// A pending notification.
    Pending,
    Kill,
    Respawn,
}

/// A line at `x` from `y` to `to`.
#[derive(Clone, Copy)]
pub struct Arrow {
    pub kind: ArrowKind,
    pub x: u32,
    pub y: u32,
    pub to: u32,
    pub hint: Hint,
}

/// What a small figure shows.
#[derive(Clone, Copy)]
pub enum GlyphKind {
    Tick,
    /// An interrupt line is raised.
    Line,
    Death,
    Birth,
}

/// A small figure around a point.
#[derive(Clone, Copy)]
pub struct Glyph {
    pub kind: GlyphKind,
    pub x: u32,
    pub y: u32,
    pub hint: Hint,
}

/// What a process did on its processor.
#[derive(Clone, Copy)]
pub enum Deed {
    /// It used up its budget.
    Spent,
    /// It made fewer steps than its budget, and nothing stopped it.
    Early,
    /// An exception with this vector.
    Fault(u8),
    /// A trap with this number of a call.
    Call(u32),
    /// A SENDREC to SYSTEM with this type, in a machine of these rules.
    Kernel(Rules, u32),
}

/// How it ended: with an error, or not made since its process was killed.
#[derive(Clone, Copy)]
pub enum Manner {
    Plain,
    Wrong,
    Unmade,
}

/// What the legend explains.
#[derive(Clone, Copy)]
pub enum Item {
    Out,
    Doomed,
    Ready,
    Sending,
    Calling,
    Awaiting,
    Receiving,
    Message,
    Notification,
    Pending,
    Tick,
    Line,
    Death,
    Birth,
    Wrong,
    Unmade,
}

/// What is written.
#[derive(Clone, Copy)]
pub enum Text {
    /// Which records these are, of how many, with how many services and processors.
    Title,
    Outside,
    Console,
    Number(u32),
    /// A result with its sign.
    Outcome(u32),
    /// A name and an endpoint.
    Who(Standing),
    /// A name, an endpoint, and what the process does.
    Standing(Standing),
    /// How many bytes the console has.
    Bytes(u32),
    Deed(Deed, Manner),
    Killed,
    Character(u8),
    /// Two hexadecimal digits.
    Hexadecimal(u8),
    /// The line of the record that is refused, and why.
    Refused,
    Key(Item),
}

/// What a text is for.
#[derive(Clone, Copy)]
pub enum LabelKind {
    Title,
    /// The number of a record.
    Axis,
    /// The name of a row.
    Name,
    /// What is at the end of a row.
    End,
    /// The number of a processor.
    Cpu,
    Note,
    /// What a process did.
    Call,
    /// An error or a death.
    Bad,
    /// A byte of the console that is a character, and one that isn't.
    Character,
    Byte,
    Refused,
    Key,
}

/// Which point of a text is at its place.
#[derive(Clone, Copy)]
pub enum Anchor {
    Start,
    Middle,
    End,
}

/// A text, on a line at `y`.
#[derive(Clone, Copy)]
pub struct Label {
    pub kind: LabelKind,
    pub x: u32,
    pub y: u32,
    pub anchor: Anchor,
    pub text: Text,
    pub hint: Hint,
}

/// One thing that is drawn.
#[derive(Clone, Copy)]
pub enum Value {
    Bar(Bar),
    Arrow(Arrow),
    Glyph(Glyph),
    Label(Label),
}

/// A picture: how wide and how high its paper is, and what is drawn on it, later values over earlier
/// ones.
#[derive(Drop)]
pub struct Drawing {
    pub width: u32,
    pub height: u32,
    pub values: Vec<Value>,
}
