//! What each key of an aircraft file is called, and what is wanted there.

ghost use Rattle.std.specs.Prelude.{◌≡◌, map};
ghost use Rattle.aircraft_keys.specs.KeyNames.{keys, key_name, wanted};
ghost use Rattle.aircraft_keys.specs.Texts.{pair_of};

const MASS: &str = "a whole number of kilograms from 1 to 1000000";

const SMALL_MASS: &str = "a whole number of kilograms from 0 to 1000000";

const INDEX: &str = "an index as text with five decimals, from -10000.00000 to 10000.00000";

const STATION: &str = "a whole number of millimetres from -100000 to 100000";

const AVERAGE: &str = "a whole number of kilograms from 0 to 300";

const PAIRS: &str =
    "a list of pairs, each a mass in kilograms and an index as text with five decimals";

const ENDS: &str =
    "a list of pairs, each the name of a position and the most kilograms up to that end";

/// The keys in the order of their numbers, which count from 1: the full name, and what is wanted there.
const KEYS: [(&str, &str); 38] = [
    ("", ""),
    ("registration", "a text of 2 to 10 capitals and digits"),
    ("version", "a text of 1 to 12 capitals and digits"),
    ("dry.mass", MASS),
    ("dry.index", INDEX),
    ("chord.k", INDEX),
    (
        "chord.c",
        "a whole number of kilogram metres from 1 to 1000000",
    ),
    ("chord.reference", STATION),
    ("chord.lemac", STATION),
    (
        "chord.mac",
        "a whole number of millimetres from 1 to 100000",
    ),
    ("limits.ramp", MASS),
    ("limits.zero_fuel", MASS),
    ("limits.take_off", MASS),
    ("limits.landing", MASS),
    ("tolerance.mass", SMALL_MASS),
    (
        "tolerance.index",
        "an index as text with five decimals, from 0.00000 to 10000.00000",
    ),
    ("trim.low", INDEX),
    (
        "trim.high",
        "an index as text with five decimals, from that of trim.low to 10000.00000",
    ),
    ("averages.adult", AVERAGE),
    ("averages.child", AVERAGE),
    ("averages.infant", AVERAGE),
    ("averages.bag", AVERAGE),
    (
        "zone",
        "1 to 16 tables, each with capacity, 0 to 999 seats, and influence, -100000 to 100000 ticks a kilogram",
    ),
    (
        "position",
        "a list of tables, each with name, compartment, influence in ticks a kilogram, and bulk = true or fits, pairs of a kind and its most kilograms",
    ),
    ("hold.exclude", "a list of pairs of names of positions"),
    (
        "hold.combined",
        "a list of lists, each the most kilograms and then one name of a position or more",
    ),
    ("hold.forward", ENDS),
    ("hold.aft", ENDS),
    ("fuel.rows", PAIRS),
    ("envelope.zero_fuel.forward", PAIRS),
    ("envelope.zero_fuel.aft", PAIRS),
    ("envelope.take_off.forward", PAIRS),
    ("envelope.take_off.aft", PAIRS),
    ("envelope.landing.forward", PAIRS),
    ("envelope.landing.aft", PAIRS),
    ("hold.lateral", SMALL_MASS),
    ("hold.left", "a list of names of positions, each named once"),
    (
        "hold.right",
        "a list of names of positions, each named once and none of them on the left",
    ),
];

fn keys() -> &'static [(&'static str, &'static str)]
    ensures { map pair_of result.now ≡ keys }
{
    &KEYS
}

/// The full name of the key with this number, from 1 to 37. Empty for another number.
pub fn key_name(number: usize) -> &'static str
    ensures { result.now ≡ key_name number }
{
    match keys().get(number) {
        Some((name, _)) => name,
        None => "",
    }
}

/// What is wanted at the key with this number, from 1 to 37, in words and with its unit. Empty for another number.
pub fn wanted(number: usize) -> &'static str
    ensures { result.now ≡ wanted number }
{
    match keys().get(number) {
        Some((_, form)) => form,
        None => "",
    }
}
