// The resample call and the window call on a sheet.
ghost use Rattle.std.specs.Prelude.{◌≡◌, false, not, ◌&&◌, List, [], ◌∷◌, length, is_ok, if◌then◌else◌, nat_lt};
ghost use Rattle.image.specs.Refusals.{reply, check, answer};
ghost use Rattle.image.specs.Stores.{elements_mut, laid};
ghost use Rattle.sampler.specs.Functions.{is_nearest};
ghost use Rattle.history.specs.Calls.{Store, match_answer, buffer_checks, resample_answer, asked, plan_value, Step};
ghost use Rattle.history.specs.Calls.Window.{whole as entire, part as within};
ghost use Rattle.history.specs.Past.{Entry, Past, Upheld};
ghost use Rattle.history.specs.Promise.{Promise};
ghost use Rattle.resampling.specs.Seen.{request_of, sheet_of, call_of};

use crate::multi_step_plan::run_plan;
use convolution::KernelFamily;
use image::{Element, ImageStore, ImageStoreMut, Numbers, Part, PicScaleError};
use planner::ResamplingPlan;
use sampler::ResamplingFunction;

// Whether a destination and a source are those of the plan.
#[tactic(auto, unfolding(history::specs::Calls::match_answer))]
fn check_match<T, F>(
    plan: &ResamplingPlan<T, F>,
    dst: Numbers,
    src: Numbers,
) -> Result<(), PicScaleError>
    ensures { reply result ≡ match_answer (request_of plan.now) dst src }
{
    let channels = plan.channels();
    if dst.channels != channels {
        return Err(PicScaleError::ChannelMismatch {
            expected: channels,
            channels: dst.channels,
        });
    }
    if src.channels != channels {
        return Err(PicScaleError::ChannelMismatch {
            expected: channels,
            channels: src.channels,
        });
    }
    let source = plan.source_size();
    if src.size() != source {
        return Err(PicScaleError::InvalidSourceSize {
            expected: source,
            size: src.size(),
        });
    }
    let target = plan.target_size();
    if dst.size() != target {
        return Err(PicScaleError::InvalidDestinationSize {
            expected: target,
            size: dst.size(),
        });
    }
    Ok(())
}

// Whether a call needs a depth: where the elements do, unless its plan is of one nearest stage.
fn needs_depth<T: Element>(function: ResamplingFunction) -> bool
    ensures { result ≡ (T.Element.NEEDS_DEPTH && not (is_nearest function)) }
{
    T::should_have_bit_depth() && !function.is_nearest()
}

// Whether a buffer of `size` elements has the room that is expected.
fn check_room(expected: usize, size: usize) -> Result<(), PicScaleError>
    ensures { reply result ≡ answer (check (nat_lt size expected) 8 (expected ∷ size ∷ []) ∷ []) }
{
    if size < expected {
        return Err(PicScaleError::InvalidScratchSize { expected, size });
    }
    Ok(())
}

// The buffers of a call whose sizes are not equal, and its depth.
fn check_buffers<T: Element, F>(
    plan: &ResamplingPlan<T, F>,
    depth: usize,
    work: usize,
    first: usize,
    second: usize,
) -> Result<(), PicScaleError>
    ensures { reply result ≡ answer (buffer_checks T.Element.NEEDS_DEPTH (request_of plan.now) depth work first second) }
{
    check_room(plan.scratch_size(), work)?;
    check_room(plan.half_size(), first)?;
    check_room(plan.half_size(), second)?;
    if needs_depth::<T>(plan.scaler().function) && !(1..=16).contains(&depth) {
        return Err(PicScaleError::UnsupportedBitDepth(depth));
    }
    Ok(())
}

// A resample into any destination, the whole of it: the answer, and the plan's value in its rows where it is granted.
// (The three buffers stay parameters, here and below: a struct of them would owe in every contract that they are those
// that were lent.)
#[tactic(auto, unfolding(history::specs::Calls::match_answer))]
fn resample_store<T: Element, F: KernelFamily<T>>(
    plan: &ResamplingPlan<T, F>,
    source: &ImageStore<'_, T>,
    into: &mut ImageStoreMut<'_, T>,
    work: &mut [T],
    first: &mut [T],
    second: &mut [T],
) -> Result<(), PicScaleError>
    ensures reply { reply result ≡ resample_answer T.Element.BYTES T.Element.NEEDS_DEPTH (asked (call_of (F.KernelFamily.meaning plan.now.family) plan.now entire source.now work.old first.old second.old) into.old.numbers (length (elements_mut into.old))) into.old.numbers (length (elements_mut into.old)) }
    ensures same { into.new.numbers ≡ into.old.numbers }
    ensures place { into.new.buffer.ghost_name ≡ into.old.buffer.ghost_name }
    ensures after { elements_mut into.new ≡ (if is_ok result then laid into.old.numbers (plan_value (call_of (F.KernelFamily.meaning plan.now.family) plan.now entire source.now work.old first.old second.old) into.old.numbers.bit_depth) (elements_mut into.old) else elements_mut into.old) }
    ensures kept { is_ok result ≡ false → (work.new ≡ work.old) × (first.new ≡ first.old) × (second.new ≡ second.old) }
{
    into.validate()?;
    let rows = source.rows()?;
    check_match(plan, into.numbers, source.numbers)?;
    if source.numbers.size() == into.numbers.size() {
        return source.copied_to_mut(into);
    }
    let depth = into.numbers.bit_depth;
    check_buffers(plan, depth, work.len(), first.len(), second.len())?;
    run_plan(
        plan,
        depth,
        &rows,
        work,
        first,
        second,
        into.buffer,
        into.numbers.pitch(),
    );
    Ok(())
}

// Resamples a source by a plan into the whole of a sheet. The promise on sheets stands here: the call is one step of
// the sheet's past, whatever that was, and after it no pixel is wrong.
pub fn resample_with_scratch<T: Element, F: KernelFamily<T>>(
    plan: &ResamplingPlan<T, F>,
    source: &ImageStore<'_, T>,
    sheet: &mut ImageStoreMut<'_, T>,
    work: &mut [T],
    first: &mut [T],
    second: &mut [T],
) -> Result<(), PicScaleError>
    ensures step { Step T.Element.BYTES T.Element.NEEDS_DEPTH (call_of (F.KernelFamily.meaning plan.now.family) plan.now entire source.now work.old first.old second.old) (sheet_of sheet.old) (reply result) (sheet_of sheet.new) }
    ensures past { (made : Store T) (es : List (Entry T)) → Past T.Element.BYTES T.Element.NEEDS_DEPTH made es (sheet_of sheet.old) → Past T.Element.BYTES T.Element.NEEDS_DEPTH made (record { call = call_of (F.KernelFamily.meaning plan.now.family) plan.now entire source.now work.old first.old second.old; answer = reply result } ∷ es) (sheet_of sheet.new) }
    ensures upheld { (made : Store T) (es : List (Entry T)) → Past T.Element.BYTES T.Element.NEEDS_DEPTH made es (sheet_of sheet.old) → Upheld T.Element.BYTES T.Element.NEEDS_DEPTH made (record { call = call_of (F.KernelFamily.meaning plan.now.family) plan.now entire source.now work.old first.old second.old; answer = reply result } ∷ es) (sheet_of sheet.new) }
    ensures promise { Promise T }
    ensures after { elements_mut sheet.new ≡ (if is_ok result then laid sheet.old.numbers (plan_value (call_of (F.KernelFamily.meaning plan.now.family) plan.now entire source.now work.old first.old second.old) sheet.old.numbers.bit_depth) (elements_mut sheet.old) else elements_mut sheet.old) }
    ensures same { sheet.new.numbers ≡ sheet.old.numbers }
    ensures place { sheet.new.buffer.ghost_name ≡ sheet.old.buffer.ghost_name }
    ensures kept { is_ok result ≡ false → (work.new ≡ work.old) × (first.new ≡ first.old) × (second.new ≡ second.old) }
{
    resample_store(plan, source, sheet, work, first, second)
}

// The same into a plain slice: the store is made here, over the whole of it.
fn resample_part<T: Element, F: KernelFamily<T>>(
    plan: &ResamplingPlan<T, F>,
    source: &ImageStore<'_, T>,
    buffer: &mut [T],
    numbers: Numbers,
    work: &mut [T],
    first: &mut [T],
    second: &mut [T],
) -> Result<(), PicScaleError>
    ensures reply { reply result ≡ resample_answer T.Element.BYTES T.Element.NEEDS_DEPTH (asked (call_of (F.KernelFamily.meaning plan.now.family) plan.now entire source.now work.old first.old second.old) numbers (length buffer.old)) numbers (length buffer.old) }
    ensures after { buffer.new ≡ (if is_ok result then laid numbers (plan_value (call_of (F.KernelFamily.meaning plan.now.family) plan.now entire source.now work.old first.old second.old) numbers.bit_depth) buffer.old else buffer.old) }
    ensures kept { is_ok result ≡ false → (work.new ≡ work.old) × (first.new ≡ first.old) × (second.new ≡ second.old) }
{
    let mut window = ImageStoreMut { buffer, numbers };
    resample_store(plan, source, &mut window, work, first, second)
}

// Resamples a source by a plan into a window of a sheet.
pub fn resample_window<T: Element, F: KernelFamily<T>>(
    plan: &ResamplingPlan<T, F>,
    source: &ImageStore<'_, T>,
    sheet: &mut ImageStoreMut<'_, T>,
    part: Part,
    work: &mut [T],
    first: &mut [T],
    second: &mut [T],
) -> Result<(), PicScaleError>
    ensures step { Step T.Element.BYTES T.Element.NEEDS_DEPTH (call_of (F.KernelFamily.meaning plan.now.family) plan.now (within part.x part.y part.width part.height) source.now work.old first.old second.old) (sheet_of sheet.old) (reply result) (sheet_of sheet.new) }
    ensures past { (made : Store T) (es : List (Entry T)) → Past T.Element.BYTES T.Element.NEEDS_DEPTH made es (sheet_of sheet.old) → Past T.Element.BYTES T.Element.NEEDS_DEPTH made (record { call = call_of (F.KernelFamily.meaning plan.now.family) plan.now (within part.x part.y part.width part.height) source.now work.old first.old second.old; answer = reply result } ∷ es) (sheet_of sheet.new) }
    ensures upheld { (made : Store T) (es : List (Entry T)) → Past T.Element.BYTES T.Element.NEEDS_DEPTH made es (sheet_of sheet.old) → Upheld T.Element.BYTES T.Element.NEEDS_DEPTH made (record { call = call_of (F.KernelFamily.meaning plan.now.family) plan.now (within part.x part.y part.width part.height) source.now work.old first.old second.old; answer = reply result } ∷ es) (sheet_of sheet.new) }
    ensures promise { Promise T }
    ensures place { sheet.new.buffer.ghost_name ≡ sheet.old.buffer.ghost_name }
    ensures kept { is_ok result ≡ false → (work.new ≡ work.old) × (first.new ≡ first.old) × (second.new ≡ second.old) }
{
    sheet.validate()?;
    part.check(sheet.numbers.size())?;
    let numbers = sheet.numbers.part(part);
    let offset = part.y * numbers.stride + part.x * numbers.channels;
    resample_part(
        plan,
        source,
        &mut sheet.buffer[offset..],
        numbers,
        work,
        first,
        second,
    )
}
