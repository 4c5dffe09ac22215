// The resampling functions, each with its place, a number from 0 by which callers in C and files name it, and its record.
ghost use Rattle.std.specs.Prelude.{◌≡◌, not, if◌then◌else◌, Ok, Err, nat_lt};
ghost use Rattle.sampler.specs.Functions.{place, function_at, filter_of, is_nearest, size_of, float_of, ewa_of, fixed_of};

#[derive(Clone, Copy, Debug, PartialEq, Eq)]
pub enum ResamplingFunction {
    Bilinear,
    Nearest,
    Cubic,
    MitchellNetravalli,
    CatmullRom,
    Hermite,
    BSpline,
    Hann,
    Bicubic,
    Hamming,
    Hanning,
    EwaHanning,
    Blackman,
    EwaBlackman,
    Welch,
    Quadric,
    EwaQuadric,
    Gaussian,
    Sphinx,
    Bartlett,
    Robidoux,
    EwaRobidoux,
    RobidouxSharp,
    EwaRobidouxSharp,
    Spline16,
    Spline36,
    Spline64,
    Kaiser,
    BartlettHann,
    Box,
    Bohman,
    Lanczos2,
    Lanczos3,
    Lanczos4,
    Lanczos5,
    Lanczos6,
    Lanczos2Jinc,
    Lanczos3Jinc,
    Lanczos4Jinc,
    Lanczos5Jinc,
    Lanczos6Jinc,
    EwaLanczos3,
    Ginseng,
    EwaGinseng,
    EwaLanczosSharp,
    EwaLanczos4Sharpest,
    EwaLanczosSoft,
    HaasnSoft,
    Lagrange2,
    Lagrange3,
    EwaMitchellNetravalli,
    EwaCatmullRom,
    Area,
}

// Every function at its place, so in the order of the enumeration.
const FUNCTIONS: [ResamplingFunction; 53] = [
    ResamplingFunction::Bilinear,
    ResamplingFunction::Nearest,
    ResamplingFunction::Cubic,
    ResamplingFunction::MitchellNetravalli,
    ResamplingFunction::CatmullRom,
    ResamplingFunction::Hermite,
    ResamplingFunction::BSpline,
    ResamplingFunction::Hann,
    ResamplingFunction::Bicubic,
    ResamplingFunction::Hamming,
    ResamplingFunction::Hanning,
    ResamplingFunction::EwaHanning,
    ResamplingFunction::Blackman,
    ResamplingFunction::EwaBlackman,
    ResamplingFunction::Welch,
    ResamplingFunction::Quadric,
    ResamplingFunction::EwaQuadric,
    ResamplingFunction::Gaussian,
    ResamplingFunction::Sphinx,
    ResamplingFunction::Bartlett,
    ResamplingFunction::Robidoux,
    ResamplingFunction::EwaRobidoux,
    ResamplingFunction::RobidouxSharp,
    ResamplingFunction::EwaRobidouxSharp,
    ResamplingFunction::Spline16,
    ResamplingFunction::Spline36,
    ResamplingFunction::Spline64,
    ResamplingFunction::Kaiser,
    ResamplingFunction::BartlettHann,
    ResamplingFunction::Box,
    ResamplingFunction::Bohman,
    ResamplingFunction::Lanczos2,
    ResamplingFunction::Lanczos3,
    ResamplingFunction::Lanczos4,
    ResamplingFunction::Lanczos5,
    ResamplingFunction::Lanczos6,
    ResamplingFunction::Lanczos2Jinc,
    ResamplingFunction::Lanczos3Jinc,
    ResamplingFunction::Lanczos4Jinc,
    ResamplingFunction::Lanczos5Jinc,
    ResamplingFunction::Lanczos6Jinc,
    ResamplingFunction::EwaLanczos3,
    ResamplingFunction::Ginseng,
    ResamplingFunction::EwaGinseng,
    ResamplingFunction::EwaLanczosSharp,
    ResamplingFunction::EwaLanczos4Sharpest,
    ResamplingFunction::EwaLanczosSoft,
    ResamplingFunction::HaasnSoft,
    ResamplingFunction::Lagrange2,
    ResamplingFunction::Lagrange3,
    ResamplingFunction::EwaMitchellNetravalli,
    ResamplingFunction::EwaCatmullRom,
    ResamplingFunction::Area,
];

// A number that is the place of no function.
#[derive(Clone, Copy, Debug, PartialEq, Eq)]
pub struct UnknownPlace(pub u8);

impl TryFrom<u8> for ResamplingFunction {
    type Error = UnknownPlace;

    ghost try_from_gives = { λ n r. r ≡ (if nat_lt n 53 then Ok (function_at n) else Err (record { 0 = n })) };

    fn try_from(place: u8) -> Result<ResamplingFunction, UnknownPlace> {
        FUNCTIONS
            .get(place as usize)
            .copied()
            .ok_or(UnknownPlace(place))
    }
}

impl From<ResamplingFunction> for u8 {
    ghost from_gives = { λ f r. r ≡ place f };

    fn from(function: ResamplingFunction) -> u8 {
        function as u8
    }
}

// What is to be known of a function. The kernel goes by the name of its function.
#[derive(Clone, Copy, Debug)]
pub struct ResamplingFilter {
    pub kernel: ResamplingFunction,
    pub min_kernel_size: f32,
    pub is_ewa: bool,
    pub is_resizable_kernel: bool,
    pub is_area: bool,
}

impl ResamplingFunction {
    pub fn is_nearest(&self) -> bool
        ensures { result ≡ is_nearest self.now }
    {
        *self == ResamplingFunction::Nearest
    }

    pub fn get_resampling_filter(&self) -> ResamplingFilter
        ensures { result ≡ filter_of self.now }
    {
        ResamplingFilter {
            kernel: *self,
            min_kernel_size: self.min_kernel_size(),
            is_ewa: self.is_ewa(),
            is_resizable_kernel: self.is_resizable_kernel(),
            is_area: matches!(self, Self::Area),
        }
    }

    // Most kernels have the size 2, so the match lists the others.
    fn min_kernel_size(&self) -> f32
        ensures { result ≡ float_of (size_of self.now) }
    {
        match self {
            Self::Bilinear | Self::Nearest | Self::Hamming | Self::EwaHanning | Self::Bartlett =>
                1.0,
            Self::Hann
            | Self::Lanczos3
            | Self::Lanczos3Jinc
            | Self::EwaLanczos3
            | Self::Ginseng
            | Self::EwaGinseng
            | Self::EwaLanczosSharp
            | Self::EwaLanczosSoft
            | Self::HaasnSoft
            | Self::Lagrange3 => 3.0,
            Self::Spline36 | Self::Lanczos4 | Self::Lanczos4Jinc | Self::EwaLanczos4Sharpest => 4.0,
            Self::Lanczos5 | Self::Lanczos5Jinc => 5.0,
            Self::Spline64 | Self::Lanczos6 | Self::Lanczos6Jinc => 6.0,
            _ => 2.0,
        }
    }

    // Whether a kernel weighs by the distance in both axes at once.
    fn is_ewa(&self) -> bool
        ensures { result ≡ ewa_of self.now }
    {
        matches!(
            self,
            Self::EwaHanning
                | Self::EwaBlackman
                | Self::EwaQuadric
                | Self::EwaRobidoux
                | Self::EwaRobidouxSharp
                | Self::EwaLanczos3
                | Self::EwaGinseng
                | Self::EwaLanczosSharp
                | Self::EwaLanczos4Sharpest
                | Self::EwaLanczosSoft
                | Self::EwaMitchellNetravalli
                | Self::EwaCatmullRom
        )
    }

    // The splines have kernels of a fixed size.
    fn is_resizable_kernel(&self) -> bool
        ensures { result ≡ not (fixed_of self.now) }
    {
        !matches!(self, Self::Spline16 | Self::Spline36 | Self::Spline64)
    }
}
