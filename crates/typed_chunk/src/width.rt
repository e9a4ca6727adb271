//! The widths that codes may have.

ghost use Rattle.std.specs.Prelude.{◌≡◌, ◌≤◌, ◌<◌, ◌^◌, IfSome, is_some};
ghost use Rattle.typed_chunk.specs.Packed.{bits, is_width, least_width};
ghost use Rattle.typed_chunk.specs.declared.width.Width.{Width};

/// How many bits each code of a list has.
#[derive(Clone, Copy, Debug, PartialEq, Eq)]
pub enum Width {
    Zero,
    One,
    Two,
    Four,
    Eight,
    Sixteen,
    ThirtyTwo,
    SixtyFour,
}

impl Width {
    /// The least width in which a code fits.
    #[tactic(auto, unfolding(crate::specs::Packed::least_width))]
    pub fn of(code: u64) -> Width
        ensures is { bits result ≡ least_width code }
        ensures fits { code < 2 ^ bits result }
        ensures least { (width : Width) → code < 2 ^ bits width → bits result ≤ bits width }
    {
        match code {
            0 => Width::Zero,
            1 => Width::One,
            2..=3 => Width::Two,
            4..=15 => Width::Four,
            16..=0xff => Width::Eight,
            0x100..=0xffff => Width::Sixteen,
            0x1_0000..=0xffff_ffff => Width::ThirtyTwo,
            _ => Width::SixtyFour,
        }
    }

    /// The number of bits.
    pub fn bits(self) -> u8
        ensures { result ≡ bits self }
    {
        match self {
            Width::Zero => 0,
            Width::One => 1,
            Width::Two => 2,
            Width::Four => 4,
            Width::Eight => 8,
            Width::Sixteen => 16,
            Width::ThirtyTwo => 32,
            Width::SixtyFour => 64,
        }
    }

    /// The width of so many bits, or `None` if no width has so many.
    #[tactic(auto, unfolding(crate::specs::Packed::is_width))]
    pub fn from_bits(count: u8) -> Option<Width>
        ensures some { is_some result ≡ is_width count }
        ensures width { IfSome result (λ width. bits width ≡ count) }
    {
        match count {
            0 => Some(Width::Zero),
            1 => Some(Width::One),
            2 => Some(Width::Two),
            4 => Some(Width::Four),
            8 => Some(Width::Eight),
            16 => Some(Width::Sixteen),
            32 => Some(Width::ThirtyTwo),
            64 => Some(Width::SixtyFour),
            _ => None,
        }
    }
}
