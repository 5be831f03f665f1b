//! Texts of paths, read.

ghost use Rattle.std.specs.Prelude.{◌≡◌, ◌<◌, ◌^◌, ◌++◌, List, IfOk, length, map};
ghost use Rattle.std.specs.List.{AllByRecursion, join_with_byte};
ghost use Rattle.route_model.specs.declared.path.Segment.{Segment};
ghost use Rattle.route_model.specs.Encoding.{IsSegment};
ghost use Rattle.route_text.specs.NormalPath.{IsNormalPath};
ghost use Rattle.route_text.specs.Reads.{Reads, ReadsBy};
ghost use Rattle.route_text.specs.RouteText.{path_text};
ghost use Rattle.route_text.specs.inner.Steps.{IsStep, step_text, steps, run, IsBuilt};
ghost use Rattle.route_text.specs.declared.step.Step.{Step};

use crate::cut::cut_at_first;
use crate::fault::TextError;
use crate::path_builder::PathBuilder;
use crate::step::read_step;
use route_model::Path;
use std::alloc::Global;

/// The most segments that a path has.
const MOST_SEGMENTS: usize = 65_535;

/// The path that the text writes, with numbers in a row in one sequence as far as it holds them.
pub(crate) fn read_path(alloc: Global, text: &str) -> Result<Path, TextError>
    ensures only { (path : List Segment) → length path < 2 ^ 16 → AllByRecursion IsSegment path → IsNormalPath path → text.now ≡ path_text path → Reads result path }
    ensures count { IfOk result (λ path. length path < 2 ^ 16) }
    ensures valid { IfOk result (AllByRecursion IsSegment) }
    ensures normal { IfOk result IsNormalPath }
{
    if text == "-" {
        return Ok(Path::new(Vec::new(alloc)));
    }
    let builder = read_steps(alloc, text)?;
    let segments = builder.finish()?;
    if segments.len() > MOST_SEGMENTS {
        return Err(TextError::BadText);
    }
    Ok(Path::new(segments))
}

/// The steps of a path, one a word.
fn read_steps(alloc: Global, text: &str) -> Result<PathBuilder, TextError>
    ensures only { (all : List Step) → 0 < length all → AllByRecursion IsStep all → text.now ≡ join_with_byte 32 (map step_text all) → ReadsBy (λ b. steps (b.closed.items ++ run b.run.items)) result all }
    ensures built { IfOk result (λ b. IsBuilt b.closed.items b.run.items) }
{
    let mut builder = PathBuilder::new(alloc);
    let mut rest = text;
    while let Some((word, after)) = cut_at_first(rest, ' ') {
        builder.push(read_step(alloc, word)?)?;
        rest = after;
    }
    builder.push(read_step(alloc, rest)?)?;
    Ok(builder)
}
