// The record of one stage.
ghost use Rattle.std.specs.Prelude.{◌≡◌, ◌≤◌, Some};
ghost use Rattle.planner.specs.Stages.{stage_of, kind_of, letter_of};
ghost use Rattle.planner.specs.Chains.{Dimensions};
ghost use Rattle.planner.specs.Plans.{needs_kernel, work_by};
ghost use Rattle.planner.specs.Lines.{stage_line};

use crate::scaler::Route;
use image::ImageSize;
use sampler::ResamplingFunction;
use std::fmt;

// What a stage does: copies, takes the nearest pixels, or applies a kernel to one axis or to both.
#[derive(Clone, Copy, Debug, PartialEq, Eq)]
pub enum StageKind {
    Copied,
    Sampled,
    Vertical,
    Horizontal,
    Both,
}

impl StageKind {
    // What a stage by `function` between these sizes does.
    fn between(function: ResamplingFunction, source: ImageSize, target: ImageSize) -> StageKind
        ensures { result ≡ kind_of function source target }
    {
        if function.is_nearest() {
            return StageKind::Sampled;
        }
        let same_width = source.width == target.width;
        let same_height = source.height == target.height;
        match (same_width, same_height) {
            (true, true) => StageKind::Copied,
            (true, false) => StageKind::Vertical,
            (false, true) => StageKind::Horizontal,
            (false, false) => StageKind::Both,
        }
    }

    // The letter that stands for the kind.
    fn letter(self) -> char
        ensures { result ≡ letter_of self }
    {
        match self {
            StageKind::Copied => 'C',
            StageKind::Sampled => 'N',
            StageKind::Vertical => 'V',
            StageKind::Horizontal => 'H',
            StageKind::Both => 'B',
        }
    }
}

#[derive(Clone, Copy, Debug, PartialEq, Eq)]
pub struct Stage {
    pub kind: StageKind,
    pub function: ResamplingFunction,
    pub source: ImageSize,
    pub target: ImageSize,
}

impl Stage {
    pub fn new(function: ResamplingFunction, source: ImageSize, target: ImageSize) -> Stage
        ensures { result ≡ stage_of function source target }
    {
        let kind = StageKind::between(function, source, target);
        Stage {
            kind,
            function,
            source,
            target,
        }
    }

    // Whether the stage runs a kernel of its family.
    pub fn needs_kernel(&self) -> bool
        ensures { result ≡ needs_kernel self.now.kind }
    {
        !matches!(self.kind, StageKind::Copied | StageKind::Sampled)
    }

    // The letter that stands for what the stage does.
    pub fn letter(&self) -> char
        ensures { result ≡ letter_of self.now.kind }
    {
        self.kind.letter()
    }

    // The elements of the work buffer that the stage needs: none but on both axes, as the route has it. (The channels are
    // the plan's and the sizes the stage's, so that no type has the facts of both.)
    pub(crate) fn scratch_size(&self, route: Route, channels: usize) -> usize
        requires source { Dimensions self.now.source }
        requires target { Dimensions self.now.target }
        requires channels { channels ≤ 4 }
        ensures { result ≡ work_by self.now.kind route channels self.now }
    {
        let rows = match (self.kind, route) {
            (StageKind::Both, Route::Single) if self.target.height < 4 => 1,
            (StageKind::Both, Route::Single) => 4,
            (StageKind::Both, Route::Whole) => self.target.height,
            _ => 0,
        };
        ImageSize::new(self.source.width, rows).elements(channels)
    }
}

// The stage's letter, its source and its target.
impl fmt::Display for Stage {
    ghost output = { λ st. Some (stage_line st) };

    fn fmt<W: fmt::Write>(&self, f: &mut fmt::Formatter<W>) -> fmt::Result {
        let letter = self.letter();
        let source = self.source;
        let target = self.target;
        write!(
            f,
            "{letter} {} {} {} {}",
            source.width, source.height, target.width, target.height
        )
    }
}
