//! The words of a path's text.

ghost use Rattle.std.specs.Prelude.{◌≡◌, ◌<◌, ◌^◌, ℕ, List, IfOk, length};
ghost use Rattle.std.specs.List.{AllByRecursion};
ghost use Rattle.route_model.specs.Encoding.{AreNumbers};
ghost use Rattle.route_text.specs.Reads.{Reads, ReadsBy};
ghost use Rattle.route_text.specs.RouteText.{numbers_text};
ghost use Rattle.route_text.specs.inner.Steps.{IsStep, step_text};
ghost use Rattle.route_text.specs.declared.step.Step.{Step};

use crate::cut::cut_at_first;
use crate::fault::TextError;
use crate::number::read_u32;
use route_model::AsNumbers;
use std::alloc::Global;

/// What one word of a path's text says.
#[derive(Debug, Drop)]
pub(crate) enum Step {
    Number(u32),
    Set(AsNumbers),
}

/// The step that a word writes.
pub(crate) fn read_step(alloc: Global, word: &str) -> Result<Step, TextError>
    ensures only { (step : Step) → IsStep step → word.now ≡ step_text step → Reads result step }
    ensures valid { IfOk result IsStep }
{
    let Some(inner) = word.strip_prefix('{') else {
        return Ok(Step::Number(read_u32(word)?));
    };
    let Some(inner) = inner.strip_suffix('}') else {
        return Err(TextError::BadText);
    };
    Ok(Step::Set(read_set(alloc, inner)?))
}

/// The numbers of a set, with commas between them.
fn read_set(alloc: Global, text: &str) -> Result<AsNumbers, TextError>
    ensures only { (numbers : List ℕ) → AreNumbers numbers → text.now ≡ numbers_text 44 numbers → Reads result numbers }
    ensures valid { IfOk result AreNumbers }
{
    let numbers = read_numbers(alloc, text)?;
    if numbers.len() > 255 {
        return Err(TextError::BadText);
    }
    Ok(AsNumbers::new(numbers))
}

/// One number or more, with commas between them.
fn read_numbers(alloc: Global, text: &str) -> Result<Vec<u32>, TextError>
    ensures only { (numbers : List ℕ) → 0 < length numbers → AllByRecursion (λ n. n < 2 ^ 32) numbers → text.now ≡ numbers_text 44 numbers → ReadsBy (λ x. x.items) result numbers }
    ensures some { IfOk result (λ numbers. 0 < length numbers.items) }
    ensures valid { IfOk result (λ numbers. AllByRecursion (λ n. n < 2 ^ 32) numbers.items) }
{
    let mut numbers = Vec::new(alloc);
    let mut rest = text;
    while let Some((word, after)) = cut_at_first(rest, ',') {
        numbers.push(read_u32(word)?)?;
        rest = after;
    }
    numbers.push(read_u32(rest)?)?;
    Ok(numbers)
}
