//! Where the figures are, in pixels from the top left corner. A strip has a column for each of its records,
//! at most 40. Its rows are, from the top: outside, one for each service, the console.

ghost use Rattle.std.specs.Prelude.{◌≡◌, ◌<◌, ◌≤◌, ◌+◌};
ghost use Rattle.mx_app_draw.specs.Layout.{column, row, rows, row_of, strip_top, strip_count, paper_width, items_abreast, legend_top, paper_height, strip_at, toward};

/// How many records a strip has at most.
pub(crate) const STRIP_RECORDS: u32 = 40;

/// A strip: the index of its first transition in the list, the number of its transitions, and its top.
#[derive(Clone, Copy)]
pub(crate) struct Strip {
    pub(crate) place: u32,
    pub(crate) count: u32,
    pub(crate) top: u32,
}

/// Where a record is drawn: the index of its transition in the list, the `x` of its column, the top of
/// its strip, and how many services the strip has.
#[derive(Clone, Copy)]
pub(crate) struct Origin {
    pub(crate) place: u32,
    pub(crate) x: u32,
    pub(crate) top: u32,
    pub(crate) services: u32,
}

/// Where a column is: its `x`. Column 0 is at 120, and each next column is 28 further right.
pub(crate) fn column(index: u32) -> u32
    requires { index ≤ 42 }
    ensures { result ≡ column index }
{
    120 + 28 * index
}

/// The middle of a row: its `y`.
pub(crate) fn row(top: u32, index: u32) -> u32
    requires top { top ≤ 30000 }
    requires index { index ≤ 33 }
    ensures { result ≡ row top index }
{
    top + 40 + 32 * index
}

/// How many rows a strip has.
pub(crate) fn rows(services: u32) -> u32
    requires { services ≤ 32 }
    ensures { result ≡ rows services }
{
    services + 2
}

/// The number of a slot's row, or 0, the row `outside`, if the slot is no service.
pub(crate) fn row_of(services: u32, slot: u32) -> u32
    ensures row { result ≡ row_of services slot }
    ensures within { result ≤ services }
{
    if slot < services { 1 + slot } else { 0 }
}

/// The height where an arrow from the height `from` to the middle of a row, `to`, ends: 4 pixels before it
/// gets there.
pub(crate) fn toward(from: u32, to: u32) -> u32
    requires below { 40 ≤ to }
    requires to { to ≤ 60000 }
    ensures { result ≡ toward from to }
{
    if from < to { to - 4 } else { to + 4 }
}

/// How many strips `count` records need, at least 1.
pub(crate) fn strip_count(count: u32) -> u32
    requires { count ≤ 1000 }
    ensures count { result ≡ strip_count count }
    ensures few { result ≤ 25 }
{
    ((count + STRIP_RECORDS - 1) / STRIP_RECORDS).max(1)
}

/// The top of strip `index`. If `index` is the number of strips, that is the top of the legend.
#[tactic(auto, using(crate::proofs::Within::strips_within))]
pub(crate) fn strip_top(services: u32, index: u32) -> u32
    requires services { services ≤ 32 }
    requires index { index ≤ 25 }
    ensures top { result ≡ strip_top services index }
    ensures within { result ≤ 30000 }
{
    32 + index * (32 * rows(services) + 40)
}

/// Strip `index` of a picture of `count` records.
pub(crate) fn strip_at(services: u32, count: u32, index: u32) -> Strip
    requires services { services ≤ 32 }
    requires count { count ≤ 1000 }
    requires index { index < strip_count count }
    ensures { result ≡ strip_at services count index }
{
    let place = STRIP_RECORDS * index;
    Strip {
        place,
        count: count.saturating_sub(place).min(STRIP_RECORDS),
        top: strip_top(services, index),
    }
}

/// The width of the paper for `count` records, in pixels.
pub(crate) fn paper_width(count: u32) -> u32
    ensures width { result ≡ paper_width count }
    ensures within { result ≤ 1468 }
    ensures wide { 684 ≤ result }
{
    column(count.min(STRIP_RECORDS).max(12) + 1) + 200
}

/// How many items of the legend are side by side.
pub(crate) fn items_abreast(count: u32) -> u32
    ensures abreast { result ≡ items_abreast count }
    ensures some { 4 ≤ result }
    ensures few { result ≤ 10 }
{
    (paper_width(count) - 16) / 136
}

/// The top of the legend.
pub(crate) fn legend_top(services: u32, count: u32) -> u32
    requires services { services ≤ 32 }
    requires count { count ≤ 1000 }
    ensures top { result ≡ legend_top services count }
    ensures within { result ≤ 30000 }
{
    strip_top(services, strip_count(count))
}

/// The height of the paper for `count` records, in pixels.
#[tactic(auto, using(crate::proofs::Within::quotient_within))]
pub(crate) fn paper_height(services: u32, count: u32) -> u32
    requires services { services ≤ 32 }
    requires count { count ≤ 1000 }
    ensures height { result ≡ paper_height services count }
    ensures within { result ≤ 32767 }
{
    let abreast = items_abreast(count);
    legend_top(services, count) + 12 + 24 * ((abreast + 15) / abreast)
}
