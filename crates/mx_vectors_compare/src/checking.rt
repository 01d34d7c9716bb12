//! Takes the step of a case, and compares it with the processor's.

ghost use Rattle.std.specs.Prelude.{◌≡◌, ◌↔◌, length, IsTrue, IfOk, IfErr, IsOk, Some};
ghost use Rattle.mx_decode.specs.Decode.{front};
ghost use Rattle.mx_encode.specs.Forms.{has_form};
ghost use Rattle.mx_exec.specs.Step.{one_step};
ghost use Rattle.mx_vectors_compare.specs.Agreement.{DoesAgree, StepAgrees, decoded_length};
ghost use Rattle.mx_vectors_compare.specs.Failure.{IsCaseWanting};

use crate::case_lines::CompareFailure;
use crate::telling::{tell_decoding, tell_end};
use crate::{Case, image_of, is_end_same};
use mx_decode::decode;
use mx_encode::{Wide, encode, one_chosen, spelled_has_form};
use mx_exec::{Image, Outcome, step};
use mx_exec_cache::{Cache, run_down};
use mx_insn::Insn;
use std::alloc::Global;
use std::io::Write;

/// The length of the instruction at the front, or 0.
fn length_of(bytes: &[u8]) -> u32
    ensures { result ≡ decoded_length (front bytes.now) }
{
    match decode(bytes) {
        Ok((_, length)) => u32::from(length),
        Err(_) => 0,
    }
}

/// Whether the instruction at the front takes all bytes.
fn is_whole(case: &Case<'_>) -> bool
    ensures { IsTrue result ↔ (decoded_length (front case.now.bytes) ≡ length case.now.bytes) }
{
    let bytes = case.bytes.as_slice();
    length_of(bytes) as usize == bytes.len()
}

/// What an instruction's spelling decodes as, if it has one: as itself.
fn decoded_again(insn: &Insn, wide: Wide) -> Option<Insn>
    ensures { IsTrue (has_form insn.now) → result ≡ Some insn.now }
{
    let Ok(bytes) = encode(insn, wide) else {
        return None;
    };
    match decode(bytes.as_slice()) {
        Ok((again, _)) => Some(again),
        Err(_) => None,
    }
}

/// Whether two instructions have one spelling: so they have, if they are equal and have a spelling.
/// Bytes spell at most one instruction.
fn is_spelled_alike(found: &Insn, wanted: &Insn, wide: Wide) -> bool
    ensures { IsTrue (has_form wanted.now) → found.now ≡ wanted.now → IsTrue result }
{
    one_chosen();
    match (encode(found, wide), encode(wanted, wide)) {
        (Ok(found), Ok(wanted)) => found.as_slice() == wanted.as_slice(),
        _ => false,
    }
}

/// Whether an instruction's spelling decodes as the instruction.
fn is_again(insn: &Insn, immediate: bool, displacement: bool) -> bool
    ensures { IsTrue (has_form insn.now) → IsTrue result }
{
    let wide = Wide {
        immediate,
        displacement,
    };
    match decoded_again(insn, wide) {
        Some(again) => is_spelled_alike(&again, insn, wide),
        None => false,
    }
}

/// Whether an instruction's spelling with any marks decodes as the instruction.
fn is_always_again(insn: &Insn) -> bool
    ensures { IsTrue (has_form insn.now) → IsTrue result }
{
    is_again(insn, false, false)
        & is_again(insn, false, true)
        & is_again(insn, true, false)
        & is_again(insn, true, true)
}

/// Whether the case's instruction, if there is one, decodes again, spelled with any marks.
fn is_spelled(case: &Case<'_>) -> bool
    ensures { IsTrue result ↔ IsOk (front case.now.bytes) }
{
    spelled_has_form();
    match decode(case.bytes.as_slice()) {
        Ok((insn, _)) => is_always_again(&insn),
        Err(_) => false,
    }
}

/// How a step is taken.
#[derive(Clone, Copy)]
enum Way {
    /// As one step, which decodes.
    Step,
    /// As the only step of a run, by the cached instruction, if it is cached.
    Run,
}

/// Takes one step.
fn take_step(image: &mut Image, cache: &mut Cache, way: Way) -> Outcome
    ensures outcome { result ≡ (one_step image.old).0 }
    ensures image { image.new ≡ (one_step image.old).1 }
{
    match way {
        Way::Step => step(image),
        Way::Run => run_down(image, cache, 1).1,
    }
}

/// Takes the step of a case in one way. Prints a line for each field that isn't as wanted, and
/// answers whether there is none.
fn is_step_same<W: Write>(
    alloc: Global,
    case: &Case<'_>,
    cache: &mut Cache,
    way: Way,
    out: &mut W,
) -> Result<bool, CompareFailure>
    ensures same { IfOk result (λ same. IsTrue same ↔ StepAgrees case.now) }
    ensures err { IfErr result IsCaseWanting }
{
    let mut image = image_of(alloc, case)?;
    let outcome = take_step(&mut image, cache, way);
    let same = is_end_same(case, outcome, &image);
    if !same {
        tell_end(case, outcome, &image, out)?;
    }
    Ok(same)
}

/// Takes the step of a case: in a step, and in two runs, the second of which finds it cached. What
/// went wrong in one way isn't tried in the next, so that it is reported once.
fn is_step_same_each_way<W: Write>(
    alloc: Global,
    case: &Case<'_>,
    cache: &mut Cache,
    out: &mut W,
) -> Result<bool, CompareFailure>
    ensures same { IfOk result (λ same. IsTrue same ↔ StepAgrees case.now) }
    ensures err { IfErr result IsCaseWanting }
{
    Ok(
        is_step_same(alloc, case, cache, Way::Step, out)?
            && is_step_same(alloc, case, cache, Way::Run, out)?
            && is_step_same(alloc, case, cache, Way::Run, out)?,
    )
}

/// Takes the step of a case, decoded and by the instruction that is then cached. Prints a line for
/// each field that isn't as wanted, and answers whether there is none.
pub fn check_case<W: Write>(
    alloc: Global,
    case: &Case<'_>,
    cache: &mut Cache,
    out: &mut W,
) -> Result<bool, CompareFailure>
    ensures same { IfOk result (λ same. IsTrue same ↔ DoesAgree case.now) }
    ensures err { IfErr result IsCaseWanting }
{
    let whole = is_whole(case);
    let spelled = is_spelled(case);
    tell_decoding(case, length_of(case.bytes.as_slice()), spelled, out)?;
    let step = is_step_same_each_way(alloc, case, cache, out)?;
    Ok(whole & spelled & step)
}
