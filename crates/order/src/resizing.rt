// One order, from its bytes to the rows of its target.
ghost use Rattle.std.specs.Prelude.{◌≡◌, ◌^◌, ◌<◌, ◌≤◌, length, IfOk, vec_len, MatchResult};
ghost use Rattle.image.specs.declared.validation.PicScaleError.TheVariants.{OutOfMemory};
ghost use Rattle.image.specs.Refusals.{reply};
ghost use Rattle.image.specs.Refusals.Answer.{granted};
ghost use Rattle.image.specs.Rows.{row, joined};
ghost use Rattle.planner.specs.Plan.{Planned, but_for_memory, plan_work, plan_half};
ghost use Rattle.planner.specs.Plans.{area};
ghost use Rattle.order.specs.Orders.{order_answer, order_channels, order_scaler, order_source, order_target, order_rows};
ghost use Rattle.order.specs.Packed.{packed_numbers, plan_pixels};

use crate::order::read_order;
use convolution::KernelFamily;
use image::{ImageSize, ImageStore, ImageStoreMut, Numbers, PicScaleError};
use planner::{ResamplingPlan, plan_generic_resize};
use resampling::resample_with_scratch;
use std::alloc::Global;

// The numbers of an image without gaps.
fn packed(channels: usize, size: ImageSize) -> Numbers
    ensures { result ≡ packed_numbers channels size }
{
    Numbers {
        channels,
        width: size.width,
        height: size.height,
        stride: 0,
        bit_depth: 0,
    }
}

// Runs a plan from pixels without gaps to others: the stores are made here, over the whole of the slices. (The buffers stay
// parameters, as the call that they go to has them.)
fn run_order<F: KernelFamily<u8>>(
    plan: &ResamplingPlan<u8, F>,
    source: &[u8],
    pixels: &mut [u8],
    work: &mut [u8],
    first: &mut [u8],
    second: &mut [u8],
) -> Result<(), PicScaleError>
    requires source { area plan.now.channels plan.now.source_size ≤ length source.now }
    requires target { length pixels.old ≡ area plan.now.channels plan.now.target_size }
    requires work { plan_work plan.now ≤ length work.old }
    requires halves { (plan_half plan.now ≤ length first.old) × (plan_half plan.now ≤ length second.old) }
    ensures reply { granted ≡ reply result }
    ensures after { pixels.new ≡ plan_pixels (F.KernelFamily.meaning plan.now.family) plan.now source.now }
{
    let store = ImageStore {
        buffer: source,
        numbers: packed(plan.channels(), plan.source_size()),
    };
    let mut sheet = ImageStoreMut {
        buffer: pixels,
        numbers: packed(plan.channels(), plan.target_size()),
    };
    resample_with_scratch(plan, &store, &mut sheet, work, first, second)
}

// What becomes of an order: its plan, and the pixels of its target without gaps.
#[derive(Drop)]
pub struct Resized<F> {
    pub plan: ResamplingPlan<u8, F>,
    pub pixels: Vec<u8>,
}

fn zeros(heap: Global, n: usize) -> Result<Vec<u8>, PicScaleError>
    ensures { MatchResult result (λ v. vec_len v ≡ n) (λ e. e ≡ OutOfMemory) }
{
    Ok(vec![in heap; 0u8; n]?)
}

// Runs a plan on an order's pixels, with buffers of its own.
fn finish<F: KernelFamily<u8>>(
    heap: Global,
    plan: ResamplingPlan<u8, F>,
    source: &[u8],
) -> Result<Resized<F>, PicScaleError>
    requires source { area plan.channels plan.source_size ≤ length source.now }
    requires small { area plan.channels plan.target_size < 2 ^ 63 }
    ensures { MatchResult result (λ out. (out.plan ≡ plan) × (out.pixels.items ≡ plan_pixels (F.KernelFamily.meaning plan.family) plan source.now)) (λ e. e ≡ OutOfMemory) }
{
    let mut pixels = zeros(heap, plan.target_size().elements(plan.channels()))?;
    let mut work = zeros(heap, plan.scratch_size())?;
    let mut first = zeros(heap, plan.half_size())?;
    let mut second = zeros(heap, plan.half_size())?;
    run_order(
        &plan,
        source,
        &mut pixels,
        &mut work,
        &mut first,
        &mut second,
    )?;
    Ok(Resized { plan, pixels })
}

// One order. A refusal is the first of reading, planning and the elements; want of memory comes after all of them.
pub fn resize<F: KernelFamily<u8>>(
    heap: Global,
    family: F,
    bytes: &[u8],
) -> Result<Resized<F>, PicScaleError>
    ensures answer { but_for_memory (reply result) ≡ order_answer (F.KernelFamily.meaning family).knows bytes.now }
    ensures plan { IfOk result (λ out. Planned family (order_scaler bytes.now) (order_channels bytes.now) (order_source bytes.now) (order_target bytes.now) out.plan) }
    ensures rows { IfOk result (λ out. out.pixels.items ≡ joined (row (order_rows (F.KernelFamily.meaning family) bytes.now)) (order_target bytes.now).height) }
{
    let order = read_order(bytes)?;
    let planned = plan_generic_resize::<u8, F>(
        heap,
        order.scaler,
        family,
        order.channels,
        order.source,
        order.target,
    );
    if matches!(planned, Ok(_) | Err(PicScaleError::OutOfMemory)) {
        order.check_elements()?;
    }
    finish(heap, planned?, order.pixels)
}
