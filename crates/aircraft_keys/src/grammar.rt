//! The names that the grammar of an aircraft file has in each table.

ghost use Rattle.std.specs.Prelude.{◌≡◌};
ghost use Rattle.aircraft_keys.specs.Grammar.{section_name, section_keys, side_keys, plain_keys, section_at, is_among};
ghost use Rattle.aircraft_keys.specs.Texts.{texts};
ghost use Rattle.std.specs.Str.{bytes_eq};

/// A table of an aircraft file, a list of such tables, or the three tables of its envelopes.
#[derive(Clone, Copy, Debug, PartialEq, Eq)]
pub enum Section {
    Dry,
    Chord,
    Limits,
    Tolerance,
    Trim,
    Averages,
    Zone,
    Position,
    Hold,
    Fuel,
    Envelope,
}

/// All sections.
const SECTIONS: [Section; 11] = [
    Section::Dry,
    Section::Chord,
    Section::Limits,
    Section::Tolerance,
    Section::Trim,
    Section::Averages,
    Section::Zone,
    Section::Position,
    Section::Hold,
    Section::Fuel,
    Section::Envelope,
];

impl Section {
    /// The section with this key.
    pub fn at(key: &[u8]) -> Option<Section>
        ensures { result ≡ section_at key.now }
    {
        SECTIONS.iter().copied().find(|section| section.is_at(key))
    }

    fn is_at(self, key: &[u8]) -> bool
        ensures { result ≡ bytes_eq key.now (section_name self) }
    {
        is_same(key, self.name())
    }

    fn name(self) -> &'static [u8]
        ensures { result.now ≡ section_name self }
    {
        match self {
            Section::Dry => b"dry",
            Section::Chord => b"chord",
            Section::Limits => b"limits",
            Section::Tolerance => b"tolerance",
            Section::Trim => b"trim",
            Section::Averages => b"averages",
            Section::Zone => b"zone",
            Section::Position => b"position",
            Section::Hold => b"hold",
            Section::Fuel => b"fuel",
            Section::Envelope => b"envelope",
        }
    }

    /// The keys in the section.
    pub fn keys(self) -> &'static [&'static [u8]]
        ensures { texts result.now ≡ section_keys self }
    {
        match self {
            Section::Dry => &[b"mass", b"index"],
            Section::Chord => &[b"k", b"c", b"reference", b"lemac", b"mac"],
            Section::Limits => &[b"ramp", b"zero_fuel", b"take_off", b"landing"],
            Section::Tolerance => &[b"mass", b"index"],
            Section::Trim => &[b"low", b"high"],
            Section::Averages => &[b"adult", b"child", b"infant", b"bag"],
            Section::Zone => &[b"capacity", b"influence"],
            Section::Position => &[b"name", b"compartment", b"influence", b"bulk", b"fits"],
            Section::Hold => &[
                b"exclude",
                b"combined",
                b"forward",
                b"aft",
                b"lateral",
                b"left",
                b"right",
            ],
            Section::Fuel => &[b"rows"],
            Section::Envelope => &[b"zero_fuel", b"take_off", b"landing"],
        }
    }
}

/// The keys in a table of `envelope`.
pub fn side_keys() -> &'static [&'static [u8]]
    ensures { texts result.now ≡ side_keys }
{
    &[b"forward", b"aft"]
}

/// The keys of the document under which there is no section.
pub fn plain_keys() -> &'static [&'static [u8]]
    ensures { texts result.now ≡ plain_keys }
{
    &[b"registration", b"version"]
}

/// Whether the key is one of these.
pub fn is_among(key: &[u8], keys: &[&[u8]]) -> bool
    ensures { result ≡ is_among key.now (texts keys.now) }
{
    for other in keys {
        if is_same(key, other) {
            return true;
        }
    }
    false
}

fn is_same(key: &[u8], other: &[u8]) -> bool
    ensures { result ≡ bytes_eq key.now other.now }
{
    key == other
}
