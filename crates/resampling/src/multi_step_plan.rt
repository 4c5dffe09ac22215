// Chains: the first stage writes the first half, each later one the other half, the last the destination.
// A destination stays a slice and its stride: a struct that held the `&mut` would owe in every contract that it is the lent one.
ghost use Rattle.std.specs.Prelude.{◌≡◌, ◌+◌, ◌*◌, ◌≤◌, true, false, not, [], ◌∷◌, ◌++◌, length, take, if◌then◌else◌};
ghost use Rattle.image.specs.Images.{image_of};
ghost use Rattle.image.specs.Rows.{RowsFit, row, painted};
ghost use Rattle.planner.specs.Chains.{Linked, Dimensions};
ghost use Rattle.planner.specs.Plans.{area};
ghost use Rattle.planner.specs.Plan.{plan_stages, plan_work, plan_half};
ghost use Rattle.sampler.specs.Functions.{is_nearest};
ghost use Rattle.values.specs.Values.{stage_value, composed};
ghost use Rattle.resampling.specs.Running.{RowsOf, Runnable, AllRunnable, Roomy, packed, end_of};

use crate::nearest_plan::nearest_rows;
use crate::run::Run;
use convolution::{ConvolutionOptions, KernelFamily};
use image::{Element, ImageSize, SourceRows};
use planner::{ResamplingPlan, Route, Stage, StageKind};

// How the stages of a plan run: its family, its route, its channels and the destination's depth.
#[derive(Drop)]
pub(crate) struct Settings<'a, F> {
    pub(crate) family: &'a F,
    pub(crate) route: Route,
    pub(crate) channels: usize,
    pub(crate) depth: usize,
}

// A stage between equal sizes, and no gap. By row number: of what `chunks_mut` lends a proof keeps no element. (`image`
// keeps its own copy of rows to itself: it asks something of its callers, as no public function does.)
#[tactic(auto, using(image::proofs::Paint::painted_none, image::proofs::Paint::painted_more, image::proofs::Strides::row_fits))]
fn copy_rows<T: Element>(src: &SourceRows<'_, T>, dst: &mut [T], dst_stride: usize)
    requires { RowsFit src.now.row_length dst_stride src.now.height (length dst.old) }
    ensures { dst.new ≡ painted dst.old dst_stride (row (image_of src.now)) src.now.height }
{
    let n = src.row_length;
    for y in 0..src.height {
        let to = y * dst_stride;
        dst[to..to + n].copy_from_slice(src.row(y));
    }
}

// One stage, whatever it does: its value lies in the rows of `dst`, and nothing else of it changes. The kinds are data of a
// plan and a closed set, so a match says at once what each does; closures for them would be made at each stage.
pub(crate) fn run_stage<T: Element, F: KernelFamily<T>>(
    settings: &Settings<'_, F>,
    stage: Stage,
    src: &SourceRows<'_, T>,
    work: &mut [T],
    dst: &mut [T],
    dst_stride: usize,
)
    requires ready { Runnable T.Element.NEEDS_DEPTH settings.now (length work.old) stage }
    requires source { RowsOf settings.now.channels stage.source src.now }
    requires target { RowsFit (stage.target.width * settings.now.channels) dst_stride stage.target.height (length dst.old) }
    ensures { dst.new ≡ painted dst.old dst_stride (row (stage_value (F.KernelFamily.meaning settings.now.family.now) settings.now.channels settings.now.depth stage (image_of src.now))) stage.target.height }
{
    let channels = settings.channels;
    let options = ConvolutionOptions {
        function: stage.function,
        channels,
        src_size: stage.source,
        dst_size: stage.target,
        bit_depth: settings.depth,
    };
    match stage.kind {
        StageKind::Copied => copy_rows(src, dst, dst_stride),
        StageKind::Sampled => nearest_rows(
            channels,
            stage.source,
            stage.target,
            src,
            dst,
            dst_stride,
        ),
        StageKind::Vertical => {
            let run = Run {
                family: settings.family,
                options,
                src,
            };
            run.vertical_convolve(dst, dst_stride)
        }
        StageKind::Horizontal => {
            let run = Run {
                family: settings.family,
                options,
                src,
            };
            run.horizontal_convolve(dst, dst_stride)
        }
        StageKind::Both => {
            let run = Run {
                family: settings.family,
                options,
                src,
            };
            run.both_axes_convolve(settings.route, work, dst, dst_stride)
        }
    }
}

// The part of the half that was written last: of the second one where `flipped` is set. (The form of two slices and a flag
// is a rule of the project: both halves stay lent while the flag says which is which.)
fn written<'a, T>(first: &'a [T], second: &'a [T], flipped: bool, len: usize) -> &'a [T]
    requires { len ≤ length (if flipped then second.now else first.now) }
    ensures { result.now ≡ take len (if flipped then second.now else first.now) }
{
    if flipped {
        &second[0..len]
    } else {
        &first[0..len]
    }
}

// The image without gaps that a half begins with. (The size and the channels come from a stage and the settings, apart, and
// so do their facts.)
fn packed_rows<'a, T>(half: &'a [T], size: ImageSize, channels: usize) -> SourceRows<'a, T>
    requires size { Dimensions size }
    requires channels { channels ≤ 4 }
    requires held { area channels size ≤ length half.now }
    ensures image { image_of result ≡ packed channels size half.now }
    ensures rows { RowsOf channels size result }
{
    let n = size.width * channels;
    SourceRows {
        elements: half,
        row_length: n,
        stride: n,
        height: size.height,
    }
}

// One stage from an image without gaps to another. (That it may run by these settings stays a clause, also below: it is of a
// stage, the settings and a work buffer, which meet here only.)
#[tactic(auto, using(crate::proofs::Packed::packed_fits, crate::proofs::Packed::stage_packed))]
fn run_packed<T: Element, F: KernelFamily<T>>(
    settings: &Settings<'_, F>,
    stage: Stage,
    src: &[T],
    work: &mut [T],
    dst: &mut [T],
)
    requires ready { Runnable T.Element.NEEDS_DEPTH settings.now (length work.old) stage }
    requires source { area settings.now.channels stage.source ≤ length src.now }
    requires target { area settings.now.channels stage.target ≤ length dst.old }
    ensures { packed settings.now.channels stage.target dst.new ≡ stage_value (F.KernelFamily.meaning settings.now.family.now) settings.now.channels settings.now.depth stage (packed settings.now.channels stage.source src.now) }
{
    let rows = packed_rows(src, stage.source, settings.channels);
    let dst_stride = stage.target.width * settings.channels;
    run_stage(settings, stage, &rows, work, dst, dst_stride);
}

// One stage between the halves: it reads the part that was written last, and writes the other half. The flag is the one by
// which `written` finds that part, while both halves are lent.
fn turn<T: Element, F: KernelFamily<T>>(
    settings: &Settings<'_, F>,
    stage: Stage,
    first: &mut [T],
    second: &mut [T],
    flipped: bool,
    work: &mut [T],
)
    requires ready { Runnable T.Element.NEEDS_DEPTH settings.now (length work.old) stage }
    requires first { (area settings.now.channels stage.source ≤ length first.old) × (area settings.now.channels stage.target ≤ length first.old) }
    requires second { (area settings.now.channels stage.source ≤ length second.old) × (area settings.now.channels stage.target ≤ length second.old) }
    ensures { packed settings.now.channels stage.target (if not flipped then second.new else first.new) ≡ stage_value (F.KernelFamily.meaning settings.now.family.now) settings.now.channels settings.now.depth stage (packed settings.now.channels stage.source (if flipped then second.old else first.old)) }
{
    if flipped {
        run_packed(settings, stage, second, work, first);
    } else {
        run_packed(settings, stage, first, work, second);
    }
}

// The middle stages of a chain, from the image of size `start` in the first half on: whether the second half was
// written last.
fn middle<T: Element, F: KernelFamily<T>>(
    settings: &Settings<'_, F>,
    stages: &[Stage],
    start: ImageSize,
    first: &mut [T],
    second: &mut [T],
    work: &mut [T],
) -> bool
    requires linked { Linked start (end_of start stages.now) stages.now }
    requires ready { AllRunnable T.Element.NEEDS_DEPTH settings.now (length work.old) stages.now }
    requires began { (area settings.now.channels start ≤ length first.old) × (area settings.now.channels start ≤ length second.old) }
    requires room { Roomy settings.now.channels (length first.old) stages.now × Roomy settings.now.channels (length second.old) stages.now }
    ensures value { packed settings.now.channels (end_of start stages.now) (if result then second.new else first.new) ≡ composed (F.KernelFamily.meaning settings.now.family.now) settings.now.channels settings.now.depth stages.now (packed settings.now.channels start first.old) }
    ensures room { (area settings.now.channels (end_of start stages.now) ≤ length first.old) × (area settings.now.channels (end_of start stages.now) ≤ length second.old) }
{
    let mut flipped = false;
    for stage in stages {
        turn(settings, *stage, first, second, flipped, work);
        flipped = !flipped;
    }
    flipped
}

// A chain of two stages or more.
#[tactic(auto, using(crate::proofs::Chained::linked_end))]
fn run_chain<T: Element, F: KernelFamily<T>>(
    settings: &Settings<'_, F>,
    head: Stage,
    inner: &[Stage],
    tail: Stage,
    src: &SourceRows<'_, T>,
    work: &mut [T],
    first: &mut [T],
    second: &mut [T],
    dst: &mut [T],
    dst_stride: usize,
)
    requires linked { Linked head.target tail.source inner.now }
    requires ready { Runnable T.Element.NEEDS_DEPTH settings.now (length work.old) head × AllRunnable T.Element.NEEDS_DEPTH settings.now (length work.old) inner.now × Runnable T.Element.NEEDS_DEPTH settings.now (length work.old) tail }
    requires first { Roomy settings.now.channels (length first.old) (head ∷ inner.now) }
    requires second { Roomy settings.now.channels (length second.old) (head ∷ inner.now) }
    requires source { RowsOf settings.now.channels head.source src.now }
    requires target { RowsFit (tail.target.width * settings.now.channels) dst_stride tail.target.height (length dst.old) }
    ensures { dst.new ≡ painted dst.old dst_stride (row (composed (F.KernelFamily.meaning settings.now.family.now) settings.now.channels settings.now.depth (head ∷ (inner.now ++ tail ∷ [])) (image_of src.now))) tail.target.height }
{
    let channels = settings.channels;
    let stride = head.target.width * channels;
    run_stage(settings, head, src, work, first, stride);
    let flipped = middle(settings, inner, head.target, first, second, work);
    let len = tail.source.elements(channels);
    let half = packed_rows(written(first, second, flipped, len), tail.source, channels);
    run_stage(settings, tail, &half, work, dst, dst_stride);
}

// All the stages of a plan, from the source to the rows of the destination. (The one scratch of the Rust is three
// buffers here, lent by the caller; a struct of them would owe their places in every contract.)
pub(crate) fn run_plan<T: Element, F: KernelFamily<T>>(
    plan: &ResamplingPlan<T, F>,
    depth: usize,
    src: &SourceRows<'_, T>,
    work: &mut [T],
    first: &mut [T],
    second: &mut [T],
    dst: &mut [T],
    dst_stride: usize,
)
    requires depth { is_nearest plan.now.scaler.function ≡ false → T.Element.NEEDS_DEPTH ≡ true → (1 ≤ depth) × (depth ≤ 16) }
    requires work { plan_work plan.now ≤ length work.old }
    requires halves { (plan_half plan.now ≤ length first.old) × (plan_half plan.now ≤ length second.old) }
    requires source { RowsOf plan.now.channels plan.now.source_size src.now }
    requires target { RowsFit (plan.now.target_size.width * plan.now.channels) dst_stride plan.now.target_size.height (length dst.old) }
    ensures { dst.new ≡ painted dst.old dst_stride (row (composed (F.KernelFamily.meaning plan.now.family) plan.now.channels depth (plan_stages plan.now) (image_of src.now))) plan.now.target_size.height }
{
    let settings = Settings {
        family: plan.family(),
        route: plan.scaler().route,
        channels: plan.channels(),
        depth,
    };
    let stages = plan.stages();
    match stages {
        [head, inner @ .., tail] => run_chain(
            &settings, *head, inner, *tail, src, work, first, second, dst, dst_stride,
        ),
        _ => run_stage(&settings, stages[0], src, work, dst, dst_stride),
    }
}
