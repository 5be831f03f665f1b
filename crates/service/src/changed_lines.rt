//! The lines of an answer to a question of which prefixes changed.

ghost use Rattle.std.specs.Prelude.{◌≡◌, ◌++◌, ◌-◌, OnOk, string_bytes, length, slice_get};
ghost use Rattle.std.specs.List.{flat_map};
ghost use Rattle.service.specs.AnswerLines.{changed_line, changed_ending, changed_text};

use crate::answer_lines::{write_end, write_more, write_place};
use route_meaning::{ChangedAnswer, Spot};
use std::alloc::AllocError;

/// `C|`, the place, and LF.
fn write_spot(out: &mut String, spot: &Spot) -> Result<(), AllocError>
    ensures line { OnOk result (string_bytes out.new ≡ string_bytes out.old ++ changed_line spot.now) }
{
    out.push_str("C|")?;
    write_place(out, &spot.peer, &spot.prefix)?;
    out.push('\n')
}

/// `E|PLACES`, or if more places follow, `M` and the last one.
fn write_spots_ending(out: &mut String, answer: &ChangedAnswer) -> Result<(), AllocError>
    ensures line { OnOk result (string_bytes out.new ≡ string_bytes out.old ++ changed_ending answer.now.spots.items answer.now.more (slice_get answer.now.spots.items (length answer.now.spots.items - 1))) }
{
    match answer.spots.last() {
        Some(spot) if answer.more => write_more(out, &spot.peer, &spot.prefix),
        _ => write_end(out, answer.spots.len()),
    }
}

/// Writes `C|COLLECTOR|ADDRESS|AS|PREFIX` for each place that changed. After an error `out` may have any text.
pub fn write_spots(out: &mut String, spots: &[Spot]) -> Result<(), AllocError>
    ensures lines { OnOk result (string_bytes out.new ≡ string_bytes out.old ++ flat_map changed_line spots.now) }
{
    for spot in spots {
        write_spot(out, spot)?;
    }
    Ok(())
}

/// Writes an answer at the end of `out`: for each place that changed `C|COLLECTOR|ADDRESS|AS|PREFIX`, then `E|PLACES` if no
/// more places follow, else `M|COLLECTOR|ADDRESS|AS|PREFIX` of the last one. After an error `out` may have any text.
pub fn write_changed(out: &mut String, answer: &ChangedAnswer) -> Result<(), AllocError>
    ensures lines { OnOk result (string_bytes out.new ≡ string_bytes out.old ++ changed_text answer.now) }
{
    write_spots(out, &answer.spots)?;
    write_spots_ending(out, answer)
}
