//! The flags of a look-up.
ghost use Rattle.std.specs.Prelude.{◌≡◌, ◌↔◌, ◌&&◌, ◌==◌, not, true, find, IfSome, IsNone};
ghost use Rattle.pid_lookup.specs.Flags.{
  Switches,
  bits_of,
  all_requests,
  request_of,
  switches_of,
  is_bad,
};
ghost use Rattle.pid_lookup.specs.Steps.Styles.{switches};
ghost use Rattle.pid_lookup.specs.Answers.{with_numbers, request_word};

/// What a look-up asks for.
#[derive(Clone, Copy)]
pub enum Request {
    Vendor,
    Device,
    VendorAndDevice,
    Subvendor,
    Subsystem,
    SubvendorAndSubsystem,
    Class,
    ProgIf,
}

/// How names and numbers are shown.
#[derive(Clone, Copy)]
pub enum Style {
    /// The number alone.
    Numeric,
    /// The name, or a word and the number.
    Plain,
    /// The name or a word, and the number in brackets.
    Mixed,
    /// The name, or no answer.
    NoNumbers,
    /// The name and the number in brackets, or no answer.
    NoNumbersMixed,
}

impl Style {
    /// The style that also shows the number of a name.
    pub fn with_numbers(self) -> Style
        ensures { switches result ≡ with_numbers (switches self) }
    {
        match self {
            Style::Numeric => Style::Numeric,
            Style::Plain | Style::Mixed => Style::Mixed,
            Style::NoNumbers | Style::NoNumbersMixed => Style::NoNumbersMixed,
        }
    }
}

impl Request {
    /// The word that stands for an unknown name; in a pair the device's.
    pub fn word(self) -> &'static [u8]
        ensures { result.now ≡ request_word self }
    {
        match self {
            Request::Vendor => b"Vendor",
            Request::Subvendor => b"Unknown vendor",
            Request::Class => b"Class",
            Request::ProgIf => b"ProgIf",
            Request::Device
            | Request::VendorAndDevice
            | Request::Subsystem
            | Request::SubvendorAndSubsystem => b"Device",
        }
    }
}

/// What the flags say; the request is missing if the low 16 bits are none.
#[derive(Clone, Copy)]
pub struct Flags {
    /// What is looked up.
    pub request: Option<Request>,
    /// How it is shown.
    pub style: Style,
}

const NUMERIC: u32 = 0x1_0000;

const NO_NUMBERS: u32 = 0x2_0000;

const MIXED: u32 = 0x4_0000;

const UNKNOWN: u32 = 0xfff8_0000;

// The style of three switches; none if they ask for numbers alone and for no numbers.
fn style_of(numeric: bool, no_numbers: bool, mixed: bool) -> Option<Style>
    ensures bad { IsNone result ↔ (((numeric && not mixed) && no_numbers) ≡ true) }
    ensures style { IfSome result (λ style. switches style
        ≡ record { numeric = numeric && not mixed; no_numbers = no_numbers; mixed = mixed }) }
{
    match (numeric, no_numbers, mixed) {
        (_, false, true) => Some(Style::Mixed),
        (_, true, true) => Some(Style::NoNumbersMixed),
        (true, false, false) => Some(Style::Numeric),
        (true, true, false) => None,
        (false, true, false) => Some(Style::NoNumbers),
        (false, false, false) => Some(Style::Plain),
    }
}

fn request_at(bits: u32) -> Option<Request>
    ensures { result ≡ find (λ request. bits_of request == bits) all_requests }
{
    match bits {
        0x1 => Some(Request::Vendor),
        0x2 => Some(Request::Device),
        0x3 => Some(Request::VendorAndDevice),
        0x9 => Some(Request::Subvendor),
        0xa => Some(Request::Subsystem),
        0xb => Some(Request::SubvendorAndSubsystem),
        0x4 => Some(Request::Class),
        0x10 => Some(Request::ProgIf),
        _ => None,
    }
}

/// The flags, unless they are bad. The only function that tests their bits.
pub fn read_flags(flags: u32) -> Option<Flags>
    ensures bad { IsNone result ↔ (is_bad flags ≡ true) }
    ensures request { IfSome result (λ read. read.request ≡ request_of flags) }
    ensures style { IfSome result (λ read. switches read.style ≡ switches_of flags) }
{
    if flags & UNKNOWN != 0 {
        return None;
    }
    let style = style_of(
        flags & NUMERIC != 0,
        flags & NO_NUMBERS != 0,
        flags & MIXED != 0,
    )?;
    Some(Flags {
        request: request_at(flags & 0xffff),
        style,
    })
}
